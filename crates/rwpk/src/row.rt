// Reading one row of a box.
ghost use Rattle.std.specs.Prelude.{◌≡◌};
ghost use Rattle.rwpk.specs.Boxes.{row_length};
ghost use Rattle.rwpk.specs.Fields.{field_as};
ghost use Rattle.rwpk.specs.Rows.{flag_at, turn_at, side_by, rectangle_by, row_at};

use crate::bands::bands_at;
use crate::fault::Fault;
use crate::sides::side_at;
use crate::words::{Word, word_at};
use geometry::Rectangle;
use refusal::Refusal;
use sheet::Row;

// Whether the row has bands.
fn flag_at(input: &[u8], place: usize) -> Result<bool, Fault>
    ensures { result ≡ flag_at input.now place }
{
    let byte: u8 = word_at(input, place)?;
    if byte / 32 > 0 {
        return Err(Fault::at(Refusal::ReservedBit, place));
    }
    if byte % 16 > 0 {
        return Err(Fault::at(Refusal::PackingType, place));
    }
    Ok(byte / 16 == 1)
}

fn turn_at(input: &[u8], place: usize) -> Result<u8, Fault>
    ensures { result ≡ turn_at input.now place }
{
    let byte: u8 = word_at(input, place)?;
    if byte % 32 > 0 {
        return Err(Fault::at(Refusal::ReservedBit, place));
    }
    Ok(byte / 32)
}

// The rectangle whose width, height, top and left stand at `place`, one after the other.
fn rectangle_at<W: Word>(input: &[u8], place: usize) -> Result<Rectangle<W>, Fault>
    ensures { result ≡ rectangle_by W.WIDTH (side_by W.number (field_as W.of W.WIDTH input.now)) (field_as W.of W.WIDTH input.now) place }
{
    Ok(Rectangle {
        width: side_at(input, place)?,
        height: side_at(input, place + W::WIDTH)?,
        top: word_at(input, place + 2 * W::WIDTH)?,
        left: word_at(input, place + 3 * W::WIDTH)?,
    })
}

// The row whose first byte stands at `place`.
pub(crate) fn row_at(input: &[u8], place: usize) -> Result<Row, Fault>
    ensures { result ≡ row_at input.now place }
{
    let banded = flag_at(input, place)?;
    let projected = rectangle_at(input, place + 1)?;
    let turn = turn_at(input, place + 17)?;
    let body = rectangle_at(input, place + 18)?;
    let bands = if banded {
        Some(bands_at(input, place + 26)?)
    } else {
        None
    };
    Ok(Row {
        projected,
        turn,
        body,
        bands,
    })
}

// How many bytes a row has in a box.
pub(crate) fn row_length(row: &Row) -> usize
    ensures { result ≡ row_length row.now }
{
    if row.bands.is_some() { 32 } else { 26 }
}
