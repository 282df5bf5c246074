// The two ways to show a picture as another, as one trait.
ghost use Rattle.std.specs.Prelude.{◌≡◌, ◌+◌, ◌^◌, ◌<◌};
ghost use Rattle.geometry.specs.Places.{at};
ghost use Rattle.picture.specs.Laws.{Inner, Backed, Narrow, Shifts};
ghost use Rattle.picture.specs.Views.{View, Shift, seen};

use geometry::{Place, Sides};
use refusal::Refusal;

// Which sides a layer shows of a store below, and which place below as each place.
pub trait LayerView: Copy {
    // The sides that it shows, and the place below of each place.
    ghost view: { Self → View };

    // How far from each place its place below lies, if that is as far for all.
    ghost shift: { Self → Shift };

    // Each place that is shown has its place inside the store below.
    ghost inner: { (v : Self) → Inner (view v) };

    // No two places that are shown have the same.
    ghost backed: { (v : Self) → Backed (view v) };

    // The sides that are shown fit 32 bits where those below do.
    ghost narrow: { (v : Self) → Narrow (view v) };

    // It moves each place by so much.
    ghost shifts: { (v : Self) → Shifts (view v) (shift v) };

    // The sides that are shown of a store of these sides.
    fn sides_shown(self, below: Sides) -> Sides
        ensures { result ≡ (view self).sides below };

    // The place below that is shown as this place.
    fn place_below(self, below: Sides, place: Place) -> Result<Place, Refusal>
        ensures { result ≡ seen (view self) below place };

    // By how much it moves each place, if all by as much.
    fn shift(self) -> Option<Place>
        ensures { result ≡ shift self };
}

// The place that lies as far from a corner as this one from (0, 0).
pub(crate) fn moved(corner: Place, place: Place) -> Place
    requires across { corner.x + place.x < 2 ^ 32 }
    requires down { corner.y + place.y < 2 ^ 32 }
    ensures { result ≡ at (corner.x + place.x) (corner.y + place.y) }
{
    Place {
        x: corner.x + place.x,
        y: corner.y + place.y,
    }
}
