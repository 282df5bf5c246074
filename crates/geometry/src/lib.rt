// Places, turns, centres, positions and free spots: the arithmetic that everything above rests on.
#![tactic(auto)]

mod bounds;
mod cells;
mod laws;
mod place;
mod position;
mod search;
mod turn;

pub use bounds::Bounds;
pub use cells::centre;
pub use laws::{centre_laws, position_laws, search_law, turn_laws};
pub use place::{Body, PackedPlace, Place, ProjectedPlace, ProjectedRectangle, Rectangle, Sides};
pub use position::{Fraction, Position};
pub use search::{Spot, first_free};
pub use turn::{Turn, mirrored_if};
