// Text that is put together before it is known to fit where it goes.
ghost use Rattle.std.specs.Prelude.{◌≡◌, ◌+◌, ◌≤◌, ◌++◌, length, decimal};
ghost use Rattle.listing.specs.Lines.{items};

use arrayvec::ArrayString;
use itoa::Buffer;

// No listing is longer: a line of a row has at most 209 bytes, and there are at most 255.
pub const LONGEST: usize = 65536;

// In an array, since listing a box must not run out of memory.
pub(crate) type Text = ArrayString<LONGEST>;

// The calls that push ask each for room for what it pushes itself, so their clauses differ.
pub(crate) fn push_number(text: &mut Text, n: u64)
    requires { length text.old.bytes + length (decimal n) ≤ 65536 }
    ensures { text.new.bytes ≡ text.old.bytes ++ decimal n }
{
    text.push_str(Buffer::new().format(n));
}

// Each number after a space.
pub(crate) fn push_numbers(text: &mut Text, ns: &[u64])
    requires { length text.old.bytes + length (items ns.now) ≤ 65536 }
    ensures { text.new.bytes ≡ text.old.bytes ++ items ns.now }
{
    for n in ns {
        text.push_str(" ");
        push_number(text, *n);
    }
}
