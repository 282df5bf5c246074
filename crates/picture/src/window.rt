// A layer that shows what of a frame lies inside the store below.
ghost use Rattle.std.specs.Prelude.{◌≡◌};
ghost use Rattle.picture.specs.ViewLaws.{window_inner, window_backed, window_narrow, window_shifts};
ghost use Rattle.picture.specs.Views.{window_view, window_shift};

use crate::layer::Layer;
use crate::store::Store;
use crate::view::{LayerView, moved};
use geometry::{Place, Rectangle, Sides};
use refusal::Refusal;

// Where a window stands and how much it would show. It may pass any edge of the store below.
pub type Frame = Rectangle<u32>;

// Shows the part of its frame that lies inside the store below, from (0, 0).
pub type Window<S> = Layer<S, Frame>;

impl LayerView for Frame {
    ghost view = { window_view };

    ghost shift = { window_shift };

    ghost inner = { window_inner };

    ghost backed = { window_backed };

    ghost narrow = { window_narrow };

    ghost shifts = { window_shifts };

    #[inline]
    fn sides_shown(self, below: Sides) -> Sides {
        Sides {
            width: self.width.min(below.width.saturating_sub(self.left)),
            height: self.height.min(below.height.saturating_sub(self.top)),
        }
    }

    #[inline]
    fn place_below(self, below: Sides, place: Place) -> Result<Place, Refusal> {
        if !self.sides_shown(below).contain(place) {
            return Err(Refusal::PlaceOutside);
        }
        Ok(moved(self.corner(), place))
    }

    #[inline]
    fn shift(self) -> Option<Place> {
        Some(self.corner())
    }
}

impl<S: Store> Layer<S, Frame> {
    // Any frame will do: one past an edge or empty shows less or nothing.
    pub fn new(below: S, frame: Frame) -> Self
        ensures { result ≡ record { below = below; view = frame } }
    {
        Layer { below, view: frame }
    }
}
