// The edits of a sheet as values, and what each may answer.
use crate::refused::EditRefused;
use geometry::Spot;
use sheet::{Draft, Row, SheetSides};

// One call on a sheet, with what it is given.
#[derive(Clone, Copy)]
pub enum Edit<'a> {
    Open(SheetSides),
    Load(&'a [u8]),
    Lay(Row),
    Place(Draft),
    Lift(u8),
}

// What a call answered: where it is granted, the spot that it placed a row at if it is a place; else why it is refused.
pub type Answer = Result<Option<Spot>, EditRefused>;
