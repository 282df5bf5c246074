// Moving samples between the projected and the packed picture of a sheet.
#![tactic(auto)]

mod carry;
mod claim_map;
mod course;
mod moving;
mod packing;
mod rehearsing;
mod rows;
mod sides;
mod unpacking;

pub use claim_map::map_claims;
pub use packing::pack;
pub use rehearsing::{Rehearsal, rehearse};
pub use unpacking::unpack;
