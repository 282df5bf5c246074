// Lists of edits: each call of a list decided from the sheet that the one before it left.
#![tactic(auto)]

mod edit;
mod refused;
mod replay;

pub use edit::{Answer, Edit};
pub use refused::{EditRefused, refusal_number};
pub use replay::{apply, replay_edits};
