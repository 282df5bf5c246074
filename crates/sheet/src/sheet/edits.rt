// The edits of a sheet. Each decides by the rules alone, and a refused one leaves the sheet as it was.
ghost use Rattle.std.specs.Prelude.{◌≡◌, [], ◌∷◌, ◌++◌, Ok, OnErr};
ghost use Rattle.sheet.specs.Blocked.{blocked, SearchFinds, SmallSpot};
ghost use Rattle.sheet.specs.Contents.{content};
ghost use Rattle.sheet.specs.Rules.{new_sheet, with_rows, verdict, shape_checks, room_checks, open_answer, open_next, lay_answer, lay_next, lift_answer, lift_next, place_answer, place_next, found};

use super::Sheet;
use crate::checks::{has_bad_bands, has_empty_picture, has_empty_side, leaves_projected};
use crate::claims::{claim, claim_inside, meets_some};
use crate::gap::close_gap;
use crate::row::{Draft, PackedSides, Row, SheetSides};
use crate::table::Table;
use arrayvec::ArrayVec;
use geometry::{Body, Bounds, ProjectedRectangle, Sides, Spot, Turn, first_free};
use refusal::Refusal;

const CAPACITY: usize = 255;

// What stands in the table where there is no row.
const NO_ROW: Row = Row {
    projected: ProjectedRectangle {
        width: 1,
        height: 1,
        top: 0,
        left: 0,
    },
    turn: 0,
    body: Body {
        width: 1,
        height: 1,
        top: 0,
        left: 0,
    },
    bands: None,
};

impl Sheet {
    // Pictures of 1 by 1, and no rows.
    pub fn new() -> Sheet
        ensures { content result ≡ new_sheet }
    {
        Sheet {
            table: Table {
                sides: SheetSides {
                    projected: Sides {
                        width: 1,
                        height: 1,
                    },
                    packed: PackedSides {
                        width: 1,
                        height: 1,
                    },
                },
                rows: [NO_ROW; CAPACITY],
                len: 0,
            },
        }
    }

    // Gives the sheet four sides and no rows.
    pub fn open(&mut self, sides: SheetSides) -> Result<(), Refusal>
        ensures answer { result ≡ open_answer sides }
        ensures after { content self.new ≡ open_next sides (content self.old) }
        ensures refused { OnErr result (self.new ≡ self.old) }
    {
        if has_empty_picture(sides) {
            return Err(Refusal::EmptySide);
        }
        self.table.sides = sides;
        self.table.len = 0;
        Ok(())
    }

    // The checks of a row that do not ask where its body lies.
    fn judge_shape(&self, row: &Row) -> Result<(), Refusal>
        ensures { result ≡ verdict (shape_checks (content self.now) row.now) }
    {
        if self.len() >= CAPACITY {
            return Err(Refusal::SheetFull);
        }
        Turn::try_from(row.turn)?;
        if has_empty_side(row) {
            return Err(Refusal::EmptySide);
        }
        if has_bad_bands(row.bands) {
            return Err(Refusal::GuardBands);
        }
        if leaves_projected(self.table.sides.projected, row.projected) {
            return Err(Refusal::LeavesProjected);
        }
        Ok(())
    }

    // The checks of where its body lies.
    fn judge_room(&self, row: &Row) -> Result<(), Refusal>
        ensures { result ≡ verdict (room_checks (content self.now) row.now) }
    {
        if !claim_inside(self.table.sides.packed, row) {
            return Err(Refusal::ClaimLeaves);
        }
        if meets_some(&claim(row), self.rows()) {
            return Err(Refusal::ClaimMeets);
        }
        Ok(())
    }

    // Puts a row that passed its checks after the last one.
    fn append(&mut self, row: Row)
        requires shape { Ok tt ≡ verdict (shape_checks (content self.old) row) }
        requires room { Ok tt ≡ verdict (room_checks (content self.old) row) }
        ensures { content self.new ≡ with_rows (content self.old) ((content self.old).rows ++ row ∷ []) }
    {
        let n = self.table.len;
        self.table.rows[n] = row;
        self.table.len = n + 1;
    }

    // Appends a row after the last one.
    pub fn lay(&mut self, row: Row) -> Result<(), Refusal>
        ensures answer { result ≡ lay_answer (content self.old) row }
        ensures after { content self.new ≡ lay_next (content self.old) row }
        ensures refused { OnErr result (self.new ≡ self.old) }
    {
        self.judge_shape(&row)?;
        self.judge_room(&row)?;
        self.append(row);
        Ok(())
    }

    // Does nothing. Whoever calls it knows what a search that avoids all these boxes answers.
    fn search_finds(&self, draft: &Draft, boxes: &[Bounds])
        requires { boxes.now ≡ blocked (content self.now).sides.packed (content self.now).rows draft.now }
        ensures { SearchFinds (content self.now) draft.now boxes.now }
    {}

    // The highest free spot for the draft, and the leftmost of those.
    fn find_spot(&self, draft: &Draft) -> Option<Spot>
        ensures value { result ≡ found (content self.now) draft.now }
        ensures small { SmallSpot result }
    {
        let packed = self.table.sides.packed;
        let mut taken = ArrayVec::new();
        draft.block(packed, self.rows(), &mut taken);
        self.search_finds(draft, &taken);
        first_free(&taken, packed.height as u32, packed.width as u32)
    }

    // Lays the row at the highest free spot and the leftmost of those, and answers the body's top and left.
    pub fn place(&mut self, draft: Draft) -> Result<Spot, Refusal>
        ensures answer { result ≡ place_answer (content self.old) draft }
        ensures after { content self.new ≡ place_next (content self.old) draft }
        ensures refused { OnErr result (self.new ≡ self.old) }
    {
        self.judge_shape(&draft.at(0, 0))?;
        let spot = self.find_spot(&draft).ok_or(Refusal::NoFreeSpot)?;
        self.append(draft.at(spot.top as u16, spot.left as u16));
        Ok(spot)
    }

    // Takes out the row with this number; later rows move down by one.
    pub fn lift(&mut self, number: u8) -> Result<(), Refusal>
        ensures answer { result ≡ lift_answer (content self.old) number }
        ensures after { content self.new ≡ lift_next (content self.old) number }
        ensures refused { OnErr result (self.new ≡ self.old) }
    {
        let n = self.table.len;
        let i = usize::from(number);
        if i >= n {
            return Err(Refusal::NoSuchRow);
        }
        close_gap(&mut self.table.rows, i, n);
        self.table.len = n - 1;
        Ok(())
    }
}
