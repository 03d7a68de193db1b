// The slices that a call borrows, as contracts name them, and the attributes of vertices that a call changes.
#![tactic(auto)]

// Positions, normals and tangents, as rows of floats.
#[derive(Drop)]
pub struct Vertices<'a> {
    pub positions: &'a mut [f32],
    pub normals: &'a mut [f32],
    pub tangents: &'a mut [f32],
}
