// The first fields of a box: size, type, and version with flags, four bytes each.
ghost use Rattle.std.specs.Prelude.{◌≡◌};
ghost use Rattle.rwpk.specs.Header.{header};

use crate::fault::Fault;
use refusal::Refusal;

// The letters rwpk as one number.
const RWPK: u32 = 0x7277706b;

// Reads and judges the header, slice by slice, each taken apart into its first bytes and the rest: the customer asked for this
// form. Granted, the box has a payload after it.
pub(crate) fn judge_header(input: &[u8]) -> Result<(), Fault>
    ensures { result ≡ header input.now }
{
    let [s0, s1, s2, s3, after_size @ ..] = input else {
        return Err(Fault::at(Refusal::InputEnds, 0));
    };
    let size = u32::from_be_bytes([*s0, *s1, *s2, *s3]);
    if size as usize != input.len() {
        return Err(Fault::at(Refusal::SizeDiffers, 0));
    }
    let [t0, t1, t2, t3, after_type @ ..] = after_size else {
        return Err(Fault::at(Refusal::InputEnds, 4));
    };
    let kind = u32::from_be_bytes([*t0, *t1, *t2, *t3]);
    if kind != RWPK {
        return Err(Fault::at(Refusal::NotRwpk, 4));
    }
    let [version, f0, f1, f2, payload @ ..] = after_type else {
        return Err(Fault::at(Refusal::InputEnds, 8));
    };
    let version_and_flags = u32::from_be_bytes([*version, *f0, *f1, *f2]);
    if version_and_flags != 0 {
        return Err(Fault::at(Refusal::NotRwpk, 8));
    }
    if payload.is_empty() {
        return Err(Fault::at(Refusal::NoPayload, 12));
    }
    Ok(())
}
