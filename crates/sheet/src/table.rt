// What a sheet keeps.
use crate::row::{Row, SheetSides};

// The rows of a sheet are the first `len` of `rows`. The customer asked for this form: a plain array of fixed size, whose owner's
// invariant speaks of the first ones.
#[derive(Clone, Copy)]
pub struct Table {
    pub(crate) sides: SheetSides,
    pub(crate) rows: [Row; 255],
    pub(crate) len: usize,
}
