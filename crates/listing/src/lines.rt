// The lines of a listing.
ghost use Rattle.std.specs.Prelude.{◌≡◌, ◌+◌, ◌≤◌, ◌++◌, length};
ghost use Rattle.listing.specs.Lines.{items, band_items, row_line, row_lines, sheet_lines, refused_line};

use crate::text::{Text, push_number, push_numbers};
use rwpk::Fault;
use sheet::{GuardBands, Row, SheetSides};

fn push_bands(text: &mut Text, bands: &Option<GuardBands>)
    requires { length text.old.bytes + length (items (band_items bands.now)) ≤ 65536 }
    ensures { text.new.bytes ≡ text.old.bytes ++ items (band_items bands.now) }
{
    if let Some(b) = bands {
        push_numbers(
            text,
            &[
                b.sizes.left as u64,
                b.sizes.right as u64,
                b.sizes.top as u64,
                b.sizes.bottom as u64,
                u64::from(b.prediction),
                b.kinds.left as u64,
                b.kinds.right as u64,
                b.kinds.top as u64,
                b.kinds.bottom as u64,
            ],
        );
    }
}

fn push_row(text: &mut Text, i: usize, row: &Row)
    requires { length text.old.bytes + length (row_line i row.now) ≤ 65536 }
    ensures { text.new.bytes ≡ text.old.bytes ++ row_line i row.now }
{
    let projected = &row.projected;
    let body = &row.body;
    push_number(text, i as u64);
    push_numbers(
        text,
        &[
            projected.width as u64,
            projected.height as u64,
            projected.top as u64,
            projected.left as u64,
            row.turn as u64,
            body.width as u64,
            body.height as u64,
            body.top as u64,
            body.left as u64,
        ],
    );
    push_bands(text, &row.bands);
    text.push_str("\n");
}

fn push_rows(text: &mut Text, rows: &[Row])
    requires { length text.old.bytes + length (row_lines 0 rows.now) ≤ 65536 }
    ensures { text.new.bytes ≡ text.old.bytes ++ row_lines 0 rows.now }
{
    for (i, row) in rows.iter().enumerate() {
        push_row(text, i, row);
    }
}

// The lines of a box that is granted.
pub(crate) fn push_sheet(text: &mut Text, sides: &SheetSides, rows: &[Row])
    requires { length text.old.bytes + length (sheet_lines sides.now rows.now) ≤ 65536 }
    ensures { text.new.bytes ≡ text.old.bytes ++ sheet_lines sides.now rows.now }
{
    text.push_str("sheet");
    push_numbers(
        text,
        &[
            sides.projected.width as u64,
            sides.projected.height as u64,
            sides.packed.width as u64,
            sides.packed.height as u64,
            rows.len() as u64,
        ],
    );
    text.push_str("\n");
    push_rows(text, rows);
}

// The line of a box that is refused.
pub(crate) fn push_refused(text: &mut Text, fault: &Fault)
    requires { length text.old.bytes + length (refused_line fault.now) ≤ 65536 }
    ensures { text.new.bytes ≡ text.old.bytes ++ refused_line fault.now }
{
    text.push_str("refused");
    push_numbers(text, &[fault.refusal.number() as u64]);
    text.push_str(" at");
    push_numbers(text, &[fault.place as u64]);
    text.push_str("\n");
}
