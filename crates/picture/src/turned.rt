// A layer that shows the store below after a turn.
ghost use Rattle.std.specs.Prelude.{◌≡◌};
ghost use Rattle.geometry.specs.Turns.{turn_of};
ghost use Rattle.picture.specs.Stores.{turned_coded};
ghost use Rattle.picture.specs.ViewLaws.{turn_inner, turn_backed, turn_narrow, turn_shifts};
ghost use Rattle.picture.specs.Views.{turn_view, turn_shift, coding};

use crate::layer::Layer;
use crate::store::Store;
use crate::view::LayerView;
use geometry::{Place, Sides, Turn};
use refusal::Refusal;

// Shows as place (k, m) the place (x, y) below that the turn takes to (k, m).
pub type Turned<S> = Layer<S, Turn>;

impl LayerView for Turn {
    ghost view = { turn_view };

    ghost shift = { turn_shift };

    ghost inner = { turn_inner };

    ghost backed = { turn_backed };

    ghost narrow = { turn_narrow };

    ghost shifts = { turn_shifts };

    #[inline]
    fn sides_shown(self, below: Sides) -> Sides {
        self.field(below)
    }

    #[inline]
    fn place_below(self, below: Sides, place: Place) -> Result<Place, Refusal> {
        self.backwards(below, place)
    }

    // A turned line may be a column, or run backwards.
    #[inline]
    fn shift(self) -> Option<Place> {
        None
    }
}

impl<S: Store> Layer<S, Turn> {
    // The store below as it is: code 0.
    pub fn new(below: S) -> Self
        ensures { result ≡ record { below = below; view = turn_of 0 } }
    {
        let view = Turn {
            mirrored: false,
            flipped: false,
            transposed: false,
        };
        Layer { below, view }
    }

    // Takes another turn, by its code from 0 to 7. A number, since boxes have codes, and this call refuses one that there is not.
    pub fn set_code(&mut self, code: u8) -> Result<(), Refusal>
        ensures answer { result ≡ coding code }
        ensures after { self.new ≡ turned_coded self.old code }
    {
        self.view = Turn::try_from(code)?;
        Ok(())
    }
}
