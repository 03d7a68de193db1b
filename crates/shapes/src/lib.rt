// The vertices of a mesh's primitives, blended and placed, in lent outputs: the body of `world_mesh_impl` of
// skinning.rs.
#![tactic(auto)]

mod counting;
mod meshes;
mod parts;
mod primitives;

pub use counting::mesh_lengths;
pub use meshes::write_mesh;

// How many floats of each attribute.
#[derive(Clone, Copy)]
pub struct Lengths {
    pub positions: usize,
    pub normals: usize,
    pub tangents: usize,
}
