// Picture stores: what a store means, two bottoms over a lent run, two layers over any store, and a copy between stores.
#![tactic(auto)]

mod bottom;
mod copying;
mod laws;
mod layer;
mod layout;
mod line;
mod mark;
mod picked;
mod rows;
mod run;
mod store;
mod tiles;
mod track;
mod turned;
mod view;
mod window;

pub use copying::copy;
pub use laws::{layer_laws, run_laws};
pub use line::Line;
pub use mark::Mark;
pub use picked::Picked;
pub use rows::Rows;
pub use store::{Store, sides_of};
pub use tiles::Tiles;
pub use track::Track;
pub use turned::Turned;
pub use window::{Frame, Window};
