// Widths and heights, of which none may be 0.
ghost use Rattle.std.specs.Prelude.{◌≡◌};
ghost use Rattle.rwpk.specs.Boxes.{sides_of};
ghost use Rattle.rwpk.specs.Fields.{field_as};
ghost use Rattle.rwpk.specs.Rows.{side_by, sides_by};

use crate::fault::Fault;
use crate::words::{Word, word_at};
use geometry::Sides;
use refusal::Refusal;
use sheet::SheetSides;

pub(crate) fn side_at<W: Word>(input: &[u8], place: usize) -> Result<W, Fault>
    ensures { result ≡ side_by W.number (field_as W.of W.WIDTH input.now) place }
{
    let side: W = word_at(input, place)?;
    if side.is_zero() {
        return Err(Fault::at(Refusal::EmptySide, place));
    }
    Ok(side)
}

// The width whose first byte stands at `place`, and the height after it.
fn sides_at<W: Word>(input: &[u8], place: usize) -> Result<Sides<W>, Fault>
    ensures { result ≡ sides_by W.WIDTH (side_by W.number (field_as W.of W.WIDTH input.now)) place }
{
    Ok(Sides {
        width: side_at(input, place)?,
        height: side_at(input, place + W::WIDTH)?,
    })
}

// The sides of the box's two pictures.
pub(crate) fn picture_sides(input: &[u8]) -> Result<SheetSides, Fault>
    ensures { result ≡ sides_of input.now }
{
    Ok(SheetSides {
        projected: sides_at(input, 14)?,
        packed: sides_at(input, 22)?,
    })
}
