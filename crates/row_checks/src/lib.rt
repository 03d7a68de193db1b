// What is asked of one record of a lent scene: that its parts lie in their tables, and that it is within its limits.
// docs/TABLES.md has the layout and the limits.
#![tactic(auto)]

mod limits;
mod places;

pub use limits::{
    in_between_within, mesh_within, node_within, primitive_within, skeleton_within, skin_within,
    tags_known, target_within,
};
pub use places::{
    base_floats, in_between_fits, mesh_fits, node_fits, primitive_fits, skeleton_fits, target_fits,
};

// The lengths of what parts may lie in: slices, and tables whose records are listed by others.
#[derive(Clone, Copy)]
pub struct Sizes {
    pub words: usize,
    pub floats: usize,
    pub node_weights: usize,
    pub mesh_weights: usize,
    pub primitives: usize,
    pub targets: usize,
    pub in_betweens: usize,
}
