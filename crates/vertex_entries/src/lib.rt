// The C functions of vertices; include/mesh3d.h declares them.
#![tactic(auto)]

mod morphs;
mod moves;

pub use morphs::mesh3d_morphed_floats;
pub use moves::{mesh3d_skinned_floats, mesh3d_transformed_floats};
