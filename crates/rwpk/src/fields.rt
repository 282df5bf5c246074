// Writing fields into a buffer.
//
// A buffer and a place in it go together through these and through the parts of a box. They stay two parameters, since a
// struct of both would be made for each field and taken apart again: `put(Spot { out, place: place + 17 }, ..)`.
ghost use Rattle.std.specs.Prelude.{◌≡◌, ◌+◌, ◌*◌, ◌≤◌, ◌++◌, length};
ghost use Rattle.rwpk.specs.Bytes.{word_bytes, rectangle_bytes};
ghost use Rattle.rwpk.specs.Writing.{put_at};

use crate::words::Word;
use geometry::{Rectangle, Sides};

// Writes the bytes at a place, and nothing else.
pub(crate) fn put(out: &mut [u8], place: usize, bytes: &[u8])
    requires { place + length bytes.now ≤ length out.old }
    ensures { out.new ≡ put_at out.old place bytes.now }
{
    out[place..place + bytes.len()].copy_from_slice(bytes);
}

// A width and the height after it.
pub(crate) fn put_sides<W: Word>(out: &mut [u8], place: usize, sides: &Sides<W>)
    requires { place + 2 * W.WIDTH ≤ length out.old }
    ensures { out.new ≡ put_at out.old place (word_bytes W.WIDTH (W.number sides.now.width) ++ word_bytes W.WIDTH (W.number sides.now.height)) }
{
    sides.width.put(out, place);
    sides.height.put(out, place + W::WIDTH);
}

// A rectangle's width, height, top and left, one after the other.
pub(crate) fn put_rectangle<W: Word>(out: &mut [u8], place: usize, rectangle: &Rectangle<W>)
    requires { place + 4 * W.WIDTH ≤ length out.old }
    ensures { out.new ≡ put_at out.old place (rectangle_bytes (λ x. word_bytes W.WIDTH (W.number x)) rectangle.now) }
{
    rectangle.width.put(out, place);
    rectangle.height.put(out, place + W::WIDTH);
    rectangle.top.put(out, place + 2 * W::WIDTH);
    rectangle.left.put(out, place + 3 * W::WIDTH);
}
