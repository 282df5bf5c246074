// The claim map: a mark at each packed place that says whose it is.
ghost use Rattle.std.specs.Prelude.{◌≡◌, ◌≤◌, true, cond, [], ◌∷◌, length, OnErr, OnOk};
ghost use Rattle.sheet.specs.Contents.{content};
ghost use Rattle.packing.specs.Maps.{claim_map, Marked, line_of, filled, filled_all, marked};
ghost use Rattle.packing.specs.Moves.{fitted, is_packed};

use crate::sides::check_sides;
use geometry::{Bounds, Place, Sides};
use picture::{Mark, Store};
use refusal::Refusal;
use sheet::{Row, Sheet, claim};

// Marks one line of a box. A put outside is refused and changes nothing, so the box may be of any size.
fn fill_line<S: Store<Sample = Mark>>(map: &mut S, area: Bounds, y: u32, mark: Mark)
    ensures after { S.Store.shown map.new ≡ filled (S.Store.shown map.old) (line_of area y) mark }
    ensures rest { S.Store.kept map.old map.new }
{
    for x in area.left..area.right {
        let _ = map.put(Place { x, y }, mark);
    }
}

// Marks a whole box.
fn fill<S: Store<Sample = Mark>>(map: &mut S, area: Bounds, mark: Mark)
    ensures after { S.Store.shown map.new ≡ filled (S.Store.shown map.old) area mark }
    ensures rest { S.Store.kept map.old map.new }
{
    for y in area.top..area.bottom {
        fill_line(map, area, y, mark);
    }
}

// Marks several boxes.
fn fill_all<S: Store<Sample = Mark>>(map: &mut S, areas: &[Bounds], mark: Mark)
    ensures after { S.Store.shown map.new ≡ filled_all (S.Store.shown map.old) areas.now mark }
    ensures rest { S.Store.kept map.old map.new }
{
    for area in areas {
        fill(map, *area, mark);
    }
}

// Marks a row's bands, and its body over them.
fn mark_row<S: Store<Sample = Mark>>(map: &mut S, row: &Row, number: u8)
    ensures after { S.Store.shown map.new ≡ marked number (row.now ∷ []) (S.Store.shown map.old) }
    ensures rest { S.Store.kept map.old map.new }
{
    fill_all(map, &claim(row), Mark::Band(number));
    fill(map, Bounds::from(row.body), Mark::Body(number));
}

// Marks all rows, the last one first.
fn mark_rows<S: Store<Sample = Mark>>(map: &mut S, rows: &[Row])
    requires { length rows.now ≤ 255 }
    ensures after { S.Store.shown map.new ≡ marked 0 rows.now (S.Store.shown map.old) }
    ensures rest { S.Store.kept map.old map.new }
{
    for (n, row) in rows.iter().enumerate().rev() {
        mark_row(map, row, n as u8);
    }
}

// The same where the map has the sides of the sheet's packed picture.
fn map_fitting<S: Store<Sample = Mark>>(sheet: &Sheet, map: &mut S)
    requires { is_packed (content sheet.now) (S.Store.shown map.old) ≡ true }
    ensures after { S.Store.shown map.new ≡ claim_map (content sheet.now) }
    ensures words { Marked (content sheet.now) (S.Store.shown map.new) }
    ensures rest { S.Store.kept map.old map.new }
{
    sheet.facts();
    let Sides { width, height } = Sides::from(sheet.sides().packed);
    let whole = Bounds {
        top: 0,
        bottom: height,
        left: 0,
        right: width,
    };
    fill(map, whole, Mark::Nobody);
    mark_rows(map, sheet.rows());
}

// Puts at each packed place whose it is: nobody's, or the body's or the guard bands' of a row. Refused with 21 unless the
// map has the sides of the sheet's packed picture.
pub fn map_claims<S: Store<Sample = Mark>>(sheet: &Sheet, map: &mut S) -> Result<(), Refusal>
    ensures answer { result ≡ fitted (is_packed (content sheet.now) (S.Store.shown map.old)) }
    ensures after { S.Store.shown map.new ≡ cond (is_packed (content sheet.now) (S.Store.shown map.old))
        (claim_map (content sheet.now)) (S.Store.shown map.old) }
    ensures words { OnOk result (Marked (content sheet.now) (S.Store.shown map.new)) }
    ensures rest { S.Store.kept map.old map.new }
    ensures untouched { OnErr result (map.new ≡ map.old) }
{
    check_sides(map, Sides::from(sheet.sides().packed))?;
    map_fitting(sheet, map);
    Ok(())
}
