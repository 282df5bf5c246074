// Copying a box through a sheet.
ghost use Rattle.std.specs.Prelude.{◌≡◌, ◌≤◌, length, Ok};
ghost use Rattle.sheet.specs.Contents.{content};
ghost use Rattle.rwpk.specs.Bytes.{box_of};
ghost use Rattle.rwpk.specs.Writing.{put_at, copy_answer, copy_out};

use crate::fault::CopyFault;
use crate::loading::read_box;
use crate::words::Word;
use crate::writing::write_part;
use refusal::Refusal;
use sheet::Sheet;

// Writes the box of the sheet at the start of a buffer that has room for it, and answers its length.
fn write_box(sheet: &Sheet, out: &mut [u8]) -> Result<usize, Refusal>
    requires { length (box_of (content sheet.now)) ≤ length out.old }
    ensures answer { result ≡ Ok (length (box_of (content sheet.now))) }
    ensures out { out.new ≡ put_at out.old 0 (box_of (content sheet.now)) }
{
    let mut place = 0;
    for part in 0..sheet.len() + 1 {
        place += write_part(sheet, part, out, place)?;
    }
    // The size is known once all parts are written.
    (place as u32).put(out, 0);
    Ok(place)
}

// Reads a box onto a sheet and writes the sheet's box at the start of the buffer: granted, that is the input, byte for byte.
pub fn copy_box(input: &[u8], out: &mut [u8]) -> Result<usize, CopyFault>
    ensures answer { result ≡ copy_answer input.now out.old }
    ensures out { out.new ≡ copy_out result out.old input.now }
{
    let sheet = read_box(input)?;
    if out.len() < input.len() {
        return Err(CopyFault::Unwritten(Refusal::BufferShort));
    }
    Ok(write_box(&sheet, out)?)
}
