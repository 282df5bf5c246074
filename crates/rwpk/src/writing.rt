// Writing the parts of a box into a buffer.
ghost use Rattle.std.specs.Prelude.{◌≡◌, ◌+◌, ◌*◌, ◌≤◌, length};
ghost use Rattle.sheet.specs.Contents.{content};
ghost use Rattle.rwpk.specs.Boxes.{row_length};
ghost use Rattle.rwpk.specs.Bytes.{flag_byte, plain_bytes, row_bytes};
ghost use Rattle.rwpk.specs.Loading.{Faultless};
ghost use Rattle.rwpk.specs.Parts.{part_at};
ghost use Rattle.rwpk.specs.Writing.{put_at, refuse_short, put_answer, part_answer, part_out};

use crate::bytes::bands_bytes;
use crate::fields::{put, put_rectangle, put_sides};
use crate::row::row_length;
use crate::words::Word;
use refusal::Refusal;
use sheet::{Row, Sheet};

// The first byte of a row.
fn flag_byte(row: &Row) -> u8
    ensures { result ≡ flag_byte row.now.bands }
{
    if row.bands.is_some() { 16 } else { 0 }
}

// The byte of a row's turn: the code in the three highest bits.
fn turn_byte(row: &Row) -> u8
    requires { row.now.turn ≤ 7 }
    ensures { result ≡ row.now.turn * 32 }
{
    row.turn * 32
}

// The 26 bytes that every row has.
fn put_plain(out: &mut [u8], place: usize, row: &Row)
    requires fits { place + 26 ≤ length out.old }
    requires turn { row.now.turn ≤ 7 }
    ensures { out.new ≡ put_at out.old place (plain_bytes row.now) }
{
    flag_byte(row).put(out, place);
    put_rectangle(out, place + 1, &row.projected);
    turn_byte(row).put(out, place + 17);
    put_rectangle(out, place + 18, &row.body);
}

// A row may have faults, and one with faults has no bytes: so this asks for one without.
fn put_row(out: &mut [u8], place: usize, row: &Row)
    requires fits { place + row_length row.now ≤ length out.old }
    requires faultless { Faultless row.now }
    ensures { out.new ≡ put_at out.old place (row_bytes row.now) }
{
    put_plain(out, place, row);
    if let Some(bands) = &row.bands {
        put(out, place + 26, &bands_bytes(bands));
    }
}

// Whether the buffer has room for so many bytes at a place.
fn judge_room(out: &[u8], place: usize, size: usize) -> Result<(), Refusal>
    ensures { result ≡ refuse_short (length out.now) (place + size) }
{
    if out.len() < place || out.len() - place < size {
        return Err(Refusal::BufferShort);
    }
    Ok(())
}

fn write_head(sheet: &Sheet, out: &mut [u8], place: usize) -> Result<usize, Refusal>
    ensures answer { result ≡ put_answer out.old place (part_at (content sheet.now) 0) }
    ensures out { out.new ≡ part_out result out.old place (part_at (content sheet.now) 0) }
{
    judge_room(out, place, 26)?;
    let count = sheet.len() as u8;
    put(
        out,
        place,
        &[0, 0, 0, 0, b'r', b'w', b'p', b'k', 0, 0, 0, 0, 0, count],
    );
    let sides = sheet.sides();
    put_sides(out, place + 14, &sides.projected);
    put_sides(out, place + 22, &sides.packed);
    Ok(26)
}

fn write_row(row: &Row, out: &mut [u8], place: usize) -> Result<usize, Refusal>
    requires { Faultless row.now }
    ensures answer { result ≡ put_answer out.old place (row_bytes row.now) }
    ensures out { out.new ≡ part_out result out.old place (row_bytes row.now) }
{
    let size = row_length(row);
    judge_room(out, place, size)?;
    put_row(out, place, row);
    Ok(size)
}

// Writes one part of the sheet's box at a place, and answers how long it is: part 0 is the first 26 bytes with size 0, and
// part i + 1 is row i. Refused with 23 where there is no such part, then with 22 where the buffer has no room.
pub fn write_part(
    sheet: &Sheet,
    part: usize,
    out: &mut [u8],
    place: usize,
) -> Result<usize, Refusal>
    ensures answer { result ≡ part_answer (content sheet.now) part out.old place }
    ensures out { out.new ≡ part_out result out.old place (part_at (content sheet.now) part) }
{
    let rows = sheet.rows();
    if part > rows.len() {
        return Err(Refusal::AllWritten);
    }
    if part == 0 {
        write_head(sheet, out, place)
    } else {
        write_row(&rows[part - 1], out, place)
    }
}
