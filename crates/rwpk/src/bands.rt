// The guard bands of a row: four sizes, and two bytes of prediction flag and kinds.
ghost use Rattle.std.specs.Prelude.{◌≡◌};
ghost use Rattle.rwpk.specs.Rows.{sizes_at, kinds_of, kinds_at, bands_at};

use crate::fault::Fault;
use crate::words::word_at;
use refusal::Refusal;
use sheet::{FourSides, GuardBands};

fn sizes_at(input: &[u8], place: usize) -> Result<FourSides, Fault>
    ensures { result ≡ sizes_at input.now place }
{
    let sizes = FourSides {
        left: word_at(input, place)?,
        right: word_at(input, place + 1)?,
        top: word_at(input, place + 2)?,
        bottom: word_at(input, place + 3)?,
    };
    if sizes.are_zero() {
        return Err(Fault::at(Refusal::GuardBands, place));
    }
    Ok(sizes)
}

// The kinds of the four sides, of three bits each.
fn kinds_of(word: u16) -> FourSides
    ensures { result ≡ kinds_of word }
{
    FourSides {
        left: (word / 4096 % 8) as u8,
        right: (word / 512 % 8) as u8,
        top: (word / 64 % 8) as u8,
        bottom: (word / 8 % 8) as u8,
    }
}

// The two bytes of prediction flag and kinds as one number.
fn kinds_at(input: &[u8], place: usize) -> Result<u16, Fault>
    ensures { result ≡ kinds_at input.now place }
{
    let word: u16 = word_at(input, place)?;
    if word % 8 > 0 {
        return Err(Fault::at(Refusal::ReservedBit, place));
    }
    if kinds_of(word).has_over_four() {
        return Err(Fault::at(Refusal::GuardBands, place));
    }
    Ok(word)
}

pub(crate) fn bands_at(input: &[u8], place: usize) -> Result<GuardBands, Fault>
    ensures { result ≡ bands_at input.now place }
{
    let sizes = sizes_at(input, place)?;
    let word = kinds_at(input, place + 4)?;
    Ok(GuardBands {
        sizes,
        prediction: word / 32768 == 1,
        kinds: kinds_of(word),
    })
}
