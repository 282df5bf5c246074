// Taking one row out of the front of a run of rows.
ghost use Rattle.std.specs.Prelude.{◌≡◌, ◌-◌, ◌<◌, ◌≤◌, true, length, take};
ghost use Rattle.std.specs.List.{remove};
ghost use Rattle.sheet.specs.Sound.{sound_rows};

use crate::row::{Row, SheetSides};

// Moves each of the rows from i + 1 up to n down by one.
pub(crate) fn close_gap(rows: &mut [Row], i: usize, n: usize)
    requires inside { i < n }
    requires within { n ≤ length rows.old }
    ensures rows { take (n - 1) rows.new ≡ remove (take n rows.old) i }
    ensures sound { (s : SheetSides) → sound_rows s (take n rows.old) ≡ true → sound_rows s (take (n - 1) rows.new) ≡ true }
{
    rows.copy_within(i + 1..n, i);
}
