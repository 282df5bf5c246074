// The listing of a box: what it holds, or why it is refused, in lines of text.
#![tactic(auto)]

mod lines;
mod list;
mod text;

pub use list::list_box;
pub use text::LONGEST;
