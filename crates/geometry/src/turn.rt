// The eight turns that lay a body onto its field.
ghost use Rattle.std.specs.Prelude.{◌≡◌};
ghost use Rattle.geometry.specs.Turns.{mirror, from_code, code_of, field, turned, unturned};

use crate::place::{Place, Sides};
use refusal::Refusal;

// A turn makes a body's place (x, y) the place (k, m) of a field: mirrored left to right, flipped upside down, then
// rows and columns exchanged.
#[derive(Clone, Copy, Debug, PartialEq, Eq)]
pub struct Turn {
    pub mirrored: bool,
    pub flipped: bool,
    pub transposed: bool,
}

// Counted from the other end of a side, if `on`. What lies past the end is mirrored to 0.
#[inline]
pub fn mirrored_if(on: bool, side: u32, x: u32) -> u32
    ensures { result ≡ mirror on side x }
{
    if !on {
        return x;
    }
    // A test and no subtraction that stops at 0: where it is known to hold, as in a turn, it costs nothing.
    if x < side { side - 1 - x } else { 0 }
}

// The turn of a code from 0 to 7.
impl TryFrom<u8> for Turn {
    type Error = Refusal;

    ghost try_from_gives = { λ code turn. turn ≡ from_code code };

    fn try_from(code: u8) -> Result<Turn, Refusal> {
        let (mirrored, flipped, transposed) = match code {
            0 => (false, false, false),
            1 => (true, false, false),
            2 => (true, true, false),
            3 => (false, true, false),
            4 => (false, false, true),
            5 => (true, false, true),
            6 => (true, true, true),
            7 => (false, true, true),
            _ => return Err(Refusal::TurnCode),
        };
        Ok(Turn {
            mirrored,
            flipped,
            transposed,
        })
    }
}

// The code that gives a turn.
impl From<Turn> for u8 {
    ghost from_gives = { λ turn code. code ≡ code_of turn };

    fn from(turn: Turn) -> u8 {
        let within_four = match (turn.mirrored, turn.flipped) {
            (false, false) => 0,
            (true, false) => 1,
            (true, true) => 2,
            (false, true) => 3,
        };
        if turn.transposed {
            within_four + 4
        } else {
            within_four
        }
    }
}

impl Turn {
    // The sides of the field that a body with these sides makes.
    #[inline]
    pub fn field(self, body: Sides) -> Sides
        ensures { result ≡ field self body }
    {
        if self.transposed {
            Sides {
                width: body.height,
                height: body.width,
            }
        } else {
            body
        }
    }

    // The field's place of a body's place; refused outside the body.
    #[inline]
    pub fn forwards(self, body: Sides, place: Place) -> Result<Place, Refusal>
        ensures { result ≡ turned self body place }
    {
        if !body.contain(place) {
            return Err(Refusal::PlaceOutside);
        }
        let x = mirrored_if(self.mirrored, body.width, place.x);
        let y = mirrored_if(self.flipped, body.height, place.y);
        if self.transposed {
            Ok(Place { x: y, y: x })
        } else {
            Ok(Place { x, y })
        }
    }

    // The body's place of a field's place; refused outside the field.
    #[inline]
    pub fn backwards(self, body: Sides, place: Place) -> Result<Place, Refusal>
        ensures { result ≡ unturned self body place }
    {
        let (x, y) = if self.transposed {
            (place.y, place.x)
        } else {
            (place.x, place.y)
        };
        if !body.contain(Place { x, y }) {
            return Err(Refusal::PlaceOutside);
        }
        Ok(Place {
            x: mirrored_if(self.mirrored, body.width, x),
            y: mirrored_if(self.flipped, body.height, y),
        })
    }
}
