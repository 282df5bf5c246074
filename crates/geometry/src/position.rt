// Where the middle of a body's sample lies in the projected picture, as exact fractions.
ghost use Rattle.std.specs.Prelude.{◌≡◌, Some};
ghost use Rattle.geometry.specs.Positions.{whole_part, coordinate, located, fraction_text};

use crate::place::{Body, PackedPlace, ProjectedRectangle};
use crate::turn::Turn;
use refusal::Refusal;
use std::fmt;

// A numerator over a denominator, not reduced.
#[derive(Clone, Copy, Debug, PartialEq, Eq)]
pub struct Fraction {
    pub numerator: u64,
    pub denominator: u64,
}

// How far from the projected picture's left edge and from its top.
#[derive(Clone, Copy, Debug, PartialEq, Eq)]
pub struct Position {
    pub across: Fraction,
    pub down: Fraction,
}

// The middle of cell `k` of `a`, over `q` samples that begin at `edge`. 64 bits hold it at these widths.
fn coordinate(edge: u32, q: u32, a: u16, k: u16) -> Fraction
    ensures { result ≡ coordinate edge q a k }
{
    let denominator = 2 * a as u64;
    let half_cells = 2 * k as u64 + 1;
    Fraction {
        numerator: denominator * edge as u64 + half_cells * q as u64,
        denominator,
    }
}

impl Fraction {
    // The number of whole samples before this point; none over a denominator of 0.
    pub fn whole(self) -> Option<u64>
        ensures { result ≡ whole_part self }
    {
        self.numerator.checked_div(self.denominator)
    }
}

// As 12/4.
impl fmt::Display for Fraction {
    ghost output = { λ f. Some (fraction_text f) };

    fn fmt<W: fmt::Write>(&self, f: &mut fmt::Formatter<W>) -> fmt::Result {
        write!(f, "{}/{}", self.numerator, self.denominator)
    }
}

impl Position {
    // The position of a place in a body, counted from the body's corner, that a turn lays onto a projected rectangle.
    // The whole parts name its centre sample. Refused outside the body.
    pub fn of(
        rectangle: &ProjectedRectangle,
        turn: Turn,
        body: Body,
        place: PackedPlace,
    ) -> Result<Position, Refusal>
        ensures { result ≡ located rectangle.now turn body place }
    {
        let sides = body.sides();
        let field = turn.field(sides);
        let cell = turn.forwards(sides, place.0)?;
        Ok(Position {
            across: coordinate(
                rectangle.left,
                rectangle.width,
                field.width as u16,
                cell.x as u16,
            ),
            down: coordinate(
                rectangle.top,
                rectangle.height,
                field.height as u16,
                cell.y as u16,
            ),
        })
    }
}
