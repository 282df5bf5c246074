// Which row serves a projected place, and where in its body.
ghost use Rattle.std.specs.Prelude.{◌≡◌, ◌+◌, ◌≤◌, true, Ok};
ghost use Rattle.std.specs.List.{position};
ghost use Rattle.geometry.specs.Boxes.{lies};
ghost use Rattle.sheet.specs.Serving.{covers_place, served_place, Sided};

use crate::row::Row;
use geometry::{PackedPlace, Place, Turn, centre};
use refusal::Refusal;

// A row's number, and a place in its body counted from the body's corner.
#[derive(Clone, Copy, Debug, PartialEq, Eq)]
pub struct Served {
    pub row: u8,
    pub place: PackedPlace,
}

// Whether a number lies in the `length` numbers from `start` on. The sum is taken in 64 bits, where it cannot wrap.
fn spans(start: u32, length: u32, x: u32) -> bool
    ensures { result ≡ lies start (start + length) x }
{
    start <= x && u64::from(x) < u64::from(start) + u64::from(length)
}

impl Row {
    // Whether the row's projected rectangle has the place.
    fn covers(&self, place: Place) -> bool
        ensures { result ≡ covers_place self.now place }
    {
        let p = self.projected;
        spans(p.left, p.width, place.x) && spans(p.top, p.height, place.y)
    }

    // The place in the row's body that serves a place of its projected rectangle. None of the steps is refused.
    pub(crate) fn place_in_body(&self, place: Place) -> Result<Place, Refusal>
        requires turn { self.now.turn ≤ 7 }
        requires sided { Sided self.now }
        requires covered { covers_place self.now place ≡ true }
        ensures { result ≡ Ok (served_place self.now place) }
    {
        let turn = Turn::try_from(self.turn)?;
        let body = self.body.sides();
        let field = turn.field(body);
        let p = self.projected;
        let x = centre(field.width, p.width, place.x - p.left)?;
        let y = centre(field.height, p.height, place.y - p.top)?;
        turn.backwards(body, Place { x, y })
    }
}

// The number of the first of the rows that covers a place.
pub(crate) fn first_covering(rows: &[Row], place: Place) -> Option<usize>
    ensures { result ≡ position (λ r. covers_place r place) rows.now }
{
    rows.iter().position(|row| row.covers(place))
}
