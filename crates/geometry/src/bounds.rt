// Boxes of places.
ghost use Rattle.std.specs.Prelude.{◌≡◌};
ghost use Rattle.geometry.specs.Boxes.{has, lies, body_box};

use crate::place::{Body, Place, Rectangle};

// The places from `top` and `left` on, up to but without `bottom` and `right`.
#[derive(Clone, Copy, Debug, Default, PartialEq, Eq)]
pub struct Bounds {
    pub top: u32,
    pub bottom: u32,
    pub left: u32,
    pub right: u32,
}

impl Bounds {
    // Whether a place lies in the box.
    pub fn contain(&self, place: Place) -> bool
        ensures { result ≡ has self.now place.y place.x }
    {
        self.stands_at(place.y) && self.left <= place.x && place.x < self.right
    }

    // Whether the box has places at this height.
    pub(crate) fn stands_at(&self, y: u32) -> bool
        ensures { result ≡ lies self.now.top self.now.bottom y }
    {
        self.top <= y && y < self.bottom
    }
}

// The places of a body. The sums are taken in 32 bits, where they cannot wrap.
impl From<Body> for Bounds {
    ghost from_gives = { λ body box. box ≡ body_box body };

    fn from(body: Body) -> Bounds {
        let body = Rectangle::from(body);
        Bounds {
            top: body.top,
            bottom: body.top + body.height,
            left: body.left,
            right: body.left + body.width,
        }
    }
}
