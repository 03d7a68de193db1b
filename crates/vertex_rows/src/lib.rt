// Vertices in lent flat slices, read, written and moved row by row, and the matrix that the joints of a vertex add up
// to. Three floats a position or a normal, four a tangent; floats past the last whole row stay as they are.
#![tactic(auto)]

mod directions;
mod influences;
mod positions;
mod rows;
mod vertices;

pub use directions::{flip_tangent, flip_tangents};
pub use influences::{Influences, joint_matrix};
pub use positions::{move_position, transform_positions};
pub use rows::{load3, store3};
pub use vertices::skin_vertex;
