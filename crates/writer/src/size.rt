// The size field of a box.
ghost use Rattle.std.specs.Prelude.{◌≡◌, ◌≤◌, length};
ghost use Rattle.rwpk.specs.Bytes.{word_bytes};
ghost use Rattle.rwpk.specs.Writing.{put_at};

// Writes the size into the first four bytes, and nothing else.
pub(crate) fn put_size(out: &mut [u8], size: u32)
    requires { 4 ≤ length out.old }
    ensures { out.new ≡ put_at out.old 0 (word_bytes 4 size) }
{
    out[0..4].copy_from_slice(&size.to_be_bytes());
}
