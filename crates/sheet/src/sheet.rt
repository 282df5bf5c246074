// A sheet: a table that keeps the rules.
ghost use Rattle.std.specs.Prelude.{◌≡◌, ◌≤◌, true, length};
ghost use Rattle.sheet.specs.Held.{held};
ghost use Rattle.sheet.specs.Sound.{sound};

use crate::table::Table;

mod edits;
mod reads;

// The region table of one film: the sides of its pictures, and up to 255 rows, sound after every call.
#[derive(Drop)]
pub struct Sheet {
    table: Table,
    ghost whole: { length table.rows ≡ 255 },
    ghost few: { table.len ≤ 255 },
    ghost sound: { sound (held table) ≡ true },
}
