// The 'rwpk' box: reading it field by field, loading it onto a sheet, and writing its parts.
#![tactic(auto)]

mod bands;
mod bytes;
mod copying;
mod fault;
mod fields;
mod header;
mod laws;
mod loading;
mod row;
mod sides;
mod words;
mod writing;

pub use copying::copy_box;
pub use fault::{CopyFault, Fault};
pub use laws::box_laws;
pub use loading::load;
pub use writing::write_part;
