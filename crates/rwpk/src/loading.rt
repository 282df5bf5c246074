// Loading a box onto a sheet.
ghost use Rattle.std.specs.Prelude.{◌≡◌, ◌<◌, [], length, nat_lt, OnErr};
ghost use Rattle.refusal.specs.declared.Refusal.TheVariants.{BytesLeft};
ghost use Rattle.sheet.specs.Contents.{content};
ghost use Rattle.rwpk.specs.Boxes.{count_of, judged, rows_from, box_of_bytes};
ghost use Rattle.rwpk.specs.Fields.{refuse};
ghost use Rattle.rwpk.specs.Loading.{Faultless, appended, rows_laid, content_read, load_answer, load_next};

use crate::fault::Fault;
use crate::header::judge_header;
use crate::row::{row_at, row_length};
use crate::sides::picture_sides;
use crate::words::word_at;
use refusal::Refusal;
use sheet::{Row, Sheet};

// Where the first row begins.
const FIRST_ROW: usize = 26;

// Judges the paired flag with its reserved bits, and reads how many rows there are.
fn row_count(input: &[u8]) -> Result<u8, Fault>
    ensures { result ≡ count_of input.now }
{
    let flags: u8 = word_at(input, 12)?;
    if flags / 128 > 0 {
        return Err(Fault::at(Refusal::Paired, 12));
    }
    if flags > 0 {
        return Err(Fault::at(Refusal::ReservedBit, 12));
    }
    let count: u8 = word_at(input, 13)?;
    if count == 0 {
        return Err(Fault::at(Refusal::NoRows, 13));
    }
    Ok(count)
}

// Lays a row that was read at `place`. It is free of faults, so where it is refused, it is for where it lies.
fn lay_at(sheet: &mut Sheet, row: Row, place: usize) -> Result<(), Fault>
    requires few { length (content sheet.old).rows < 255 }
    requires faultless { Faultless row }
    ensures answer { result ≡ judged (content sheet.old).sides (content sheet.old).rows row place }
    ensures after { content sheet.new ≡ appended result (content sheet.old) row }
{
    sheet.lay(row).map_err(|refusal| Fault::at(refusal, place))
}

// Nothing may stand in the input from `place` on.
fn judge_end(input: &[u8], place: usize) -> Result<(), Fault>
    ensures { result ≡ refuse (nat_lt place (length input.now)) BytesLeft place }
{
    if place < input.len() {
        return Err(Fault::at(Refusal::BytesLeft, place));
    }
    Ok(())
}

// Reads so many rows, and lays each before it reads the next. Nothing may come after them.
fn lay_rows(sheet: &mut Sheet, count: u8, input: &[u8]) -> Result<(), Fault>
    requires { (content sheet.old).rows ≡ [] }
    ensures rows { rows_laid result (content sheet.new).rows ≡ rows_from (content sheet.old).sides count [] input.now 26 }
    ensures sides { (content sheet.new).sides ≡ (content sheet.old).sides }
{
    let mut place = FIRST_ROW;
    for _ in 0..count {
        let row = row_at(input, place)?;
        lay_at(sheet, row, place)?;
        place += row_length(&row);
    }
    judge_end(input, place)
}

// The box's content, on a sheet of its own.
pub(crate) fn read_box(input: &[u8]) -> Result<Sheet, Fault>
    ensures { content_read result ≡ box_of_bytes input.now }
{
    judge_header(input)?;
    let count = row_count(input)?;
    let sides = picture_sides(input)?;
    let mut sheet = Sheet::new();
    // Granted, since the sides were judged as they were read.
    let _ = sheet.open(sides);
    lay_rows(&mut sheet, count, input)?;
    Ok(sheet)
}

// Gives the sheet what the box holds, and nothing of what it held before. A box that is refused leaves it as it was.
pub fn load(sheet: &mut Sheet, input: &[u8]) -> Result<(), Fault>
    ensures answer { result ≡ load_answer input.now }
    ensures after { content sheet.new ≡ load_next input.now (content sheet.old) }
    ensures refused { OnErr result (sheet.new ≡ sheet.old) }
{
    let fresh = read_box(input)?;
    *sheet = fresh;
    Ok(())
}
