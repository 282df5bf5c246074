// The sheet: a region table that keeps its rules, with its edits, positions and serving.
#![tactic(auto)]

mod checks;
mod claims;
mod gap;
mod laws;
mod row;
mod served;
mod sheet;
mod spots;
mod table;

pub use claims::{PARTS, claim};
pub use laws::{claim_laws, serving_laws};
pub use row::{Draft, FourSides, GuardBands, PackedSides, Row, SheetSides};
pub use served::Served;
pub use sheet::Sheet;
