// The mesh of a node, put out: the last stage of a bake.
#![tactic(auto)]

mod delivery;
mod palettes;
mod weighing;

pub use delivery::{deliver, mesh_of};

// The placing that a mesh is put out with: the code of each node's place, and its world.
#[derive(Clone, Copy)]
pub struct Placed<'a> {
    pub places: &'a [u32],
    pub worlds: &'a [f32],
}
