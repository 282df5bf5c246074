// Numbers of one, two and four bytes, highest byte first.
//
// The input and a place in it go together through all that reads. They stay two parameters, as in the definitions: a struct
// of both would be made for each field and taken apart again.
ghost use Rattle.std.specs.Prelude.{◌≡◌, ◌==◌, ◌+◌, ◌≤◌, ℕ, length};
ghost use Rattle.rwpk.specs.Bytes.{word_bytes};
ghost use Rattle.rwpk.specs.Fields.{field_as, first_as};
ghost use Rattle.rwpk.specs.Writing.{put_at};

use crate::fault::Fault;
use crate::fields::put;
use refusal::Refusal;

// A number of so many bytes. That each width says for itself how it is read and written is the library's way: its
// `from_be_bytes` and `to_be_bytes` belong to no trait.
pub(crate) trait Word: Copy {
    // How many bytes it has.
    ghost WIDTH: { ℕ };

    const WIDTH: usize;

    // As a number of any size, and back from one that fits.
    ghost number: { Self → ℕ };

    ghost of: { ℕ → Self };

    // The number in the first bytes, if there are enough.
    fn first(bytes: &[u8]) -> Option<Self>
        ensures { result ≡ first_as of WIDTH bytes.now };

    fn is_zero(self) -> bool
        ensures { result ≡ (number self == 0) };

    // Writes its bytes at a place, and nothing else.
    fn put(self, out: &mut [u8], place: usize)
        requires { place + WIDTH ≤ length out.old }
        ensures { out.new ≡ put_at out.old place (word_bytes WIDTH (number self)) };
}

impl Word for u8 {
    ghost WIDTH = { 1 };

    const WIDTH: usize = 1;

    ghost number = { λ n. n };

    ghost of = { λ n. n };

    fn first(bytes: &[u8]) -> Option<u8> {
        let [a, ..] = bytes else { return None };
        Some(*a)
    }

    fn is_zero(self) -> bool {
        self == 0
    }

    fn put(self, out: &mut [u8], place: usize) {
        put(out, place, &[self]);
    }
}

impl Word for u16 {
    ghost WIDTH = { 2 };

    const WIDTH: usize = 2;

    ghost number = { λ n. n };

    ghost of = { λ n. n };

    fn first(bytes: &[u8]) -> Option<u16> {
        let [a, b, ..] = bytes else { return None };
        Some(u16::from_be_bytes([*a, *b]))
    }

    fn is_zero(self) -> bool {
        self == 0
    }

    fn put(self, out: &mut [u8], place: usize) {
        put(out, place, &self.to_be_bytes());
    }
}

impl Word for u32 {
    ghost WIDTH = { 4 };

    const WIDTH: usize = 4;

    ghost number = { λ n. n };

    ghost of = { λ n. n };

    fn first(bytes: &[u8]) -> Option<u32> {
        let [a, b, c, d, ..] = bytes else { return None };
        Some(u32::from_be_bytes([*a, *b, *c, *d]))
    }

    fn is_zero(self) -> bool {
        self == 0
    }

    fn put(self, out: &mut [u8], place: usize) {
        put(out, place, &self.to_be_bytes());
    }
}

// The number whose first byte stands at `place`.
pub(crate) fn word_at<W: Word>(input: &[u8], place: usize) -> Result<W, Fault>
    ensures { result ≡ field_as W.of W.WIDTH input.now place }
{
    input
        .get(place..)
        .and_then(|rest| W::first(rest))
        .ok_or(Fault::at(Refusal::InputEnds, place))
}
