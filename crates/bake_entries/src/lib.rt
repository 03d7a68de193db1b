// The C functions of the bake and of the room that it needs; include/mesh3d.h declares them.
#![tactic(auto)]

mod baking;
mod room;

pub use baking::mesh3d_bake_floats;
pub use room::mesh3d_bake_room;
