// Vertices in lent flat slices, moved by a matrix, in place: the port of transform.rs's `transformed`. Three floats a
// position or a normal, four a tangent; floats past the last whole row stay as they are.
#![tactic(auto)]

mod blocks;
mod packed;
mod rigid;

pub use blocks::put_units;
pub use rigid::transformed;
