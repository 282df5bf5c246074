// Listing a box.
ghost use Rattle.std.specs.Prelude.{◌≡◌};
ghost use Rattle.rwpk.specs.Writing.{put_answer, part_out};
ghost use Rattle.listing.specs.Listing.{listing};

use crate::lines::{push_refused, push_sheet};
use crate::text::Text;
use refusal::Refusal;
use rwpk::load;
use sheet::Sheet;

// The lines of a box, or the one line of its refusal.
fn lines_of(input: &[u8]) -> Text
    ensures { result.bytes ≡ listing input.now }
{
    let mut text = Text::new();
    let mut sheet = Sheet::new();
    match load(&mut sheet, input) {
        Ok(()) => push_sheet(&mut text, &sheet.sides(), sheet.rows()),
        Err(fault) => push_refused(&mut text, &fault),
    }
    text
}

// Writes the listing of a box at the start of the buffer, whose rest stays, and answers its length. Refused with 22 where
// the buffer is too short.
pub fn list_box(input: &[u8], buffer: &mut [u8]) -> Result<usize, Refusal>
    ensures answer { result ≡ put_answer buffer.old 0 (listing input.now) }
    ensures buffer { buffer.new ≡ part_out result buffer.old 0 (listing input.now) }
{
    // All lines are put together first, so that a buffer that is too short stays as it was.
    let text = lines_of(input);
    let lines = text.as_str().as_bytes();
    if buffer.len() < lines.len() {
        return Err(Refusal::BufferShort);
    }
    buffer[0..lines.len()].copy_from_slice(lines);
    Ok(lines.len())
}
