// The C function of the bake on scenes that are lent in bytes, as little-endian words and floats; include/mesh3d.h
// declares it.
#![tactic(auto)]

mod scenes;

pub use scenes::mesh3d_bake;
