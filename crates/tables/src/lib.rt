// A scene as it is lent: records of whole numbers in `words`, and floats in slices beside them. docs/TABLES.md has the
// layout. What a record says is read here; whether all that is lent lies in its tables is asked by the crate `checks`.
#![tactic(auto)]

use tracks::Part;

mod parts;
mod places;
mod readers;
mod rows;

pub use parts::{floats_in, words_in};
pub use readers::{base_of, id_of, is_marked, property_of, track_of, weight_of};
pub use rows::{
    alone, channel_row, in_between_row, mesh_row, node_row, primitive_row, skeleton_row, skin_row,
    target_row,
};

// The nodes and the roots.
#[repr(C)]
#[derive(Clone, Copy)]
pub struct Graph {
    pub nodes: Part,
    pub roots: Part,
}

#[repr(C)]
#[derive(Clone, Copy)]
pub struct Meshes {
    pub meshes: Part,
    pub primitives: Part,
    pub targets: Part,
    pub in_betweens: Part,
}

#[repr(C)]
#[derive(Clone, Copy)]
pub struct Skins {
    pub skins: Part,
    pub skeletons: Part,
}

// Where each table lies in `words`: the word that it starts at, and how many records it has.
#[repr(C)]
#[derive(Clone, Copy)]
pub struct Header {
    pub graph: Graph,
    pub channels: Part,
    pub meshes: Meshes,
    pub skins: Skins,
}

// A scene as it is lent: the words of its records, its floats beside them, and where each table lies.
#[derive(Clone, Copy)]
pub struct Lent<'a> {
    pub words: &'a [u32],
    pub floats: &'a [f32],
    pub node_weights: &'a [f32],
    pub mesh_weights: &'a [f32],
    pub header: Header,
}

// An id that may be absent: then the mark is 0. The mark is a number, since one above 1 draws 2.
#[derive(Clone, Copy)]
pub struct Reference {
    pub mark: u32,
    pub id: u32,
}

// A part that may be absent: then the mark is 0, as above. A part that is present with no entries is not absent.
#[derive(Clone, Copy)]
pub struct Slot {
    pub mark: u32,
    pub part: Part,
}

#[derive(Clone, Copy)]
pub struct NodeRow {
    pub form: u32,
    pub base: usize,
    pub children: Part,
    pub mesh: Reference,
    pub skin: Reference,
    pub weights: Slot,
}

#[derive(Clone, Copy)]
pub struct ChannelRow {
    pub target: u32,
    pub property: u32,
    pub kind: u32,
    pub interpolation: u32,
    pub keys: Part,
    pub values: Part,
}

#[derive(Clone, Copy)]
pub struct MeshRow {
    pub primitives: Part,
    pub weights: Part,
}

#[derive(Clone, Copy)]
pub struct PrimitiveRow {
    pub positions: Part,
    pub normals: Slot,
    pub tangents: Slot,
    pub joints: Slot,
    pub weights: Slot,
    pub targets: Part,
}

#[derive(Clone, Copy)]
pub struct TargetRow {
    pub positions: Slot,
    pub normals: Slot,
    pub tangents: Slot,
    pub in_betweens: Part,
}

#[derive(Clone, Copy)]
pub struct InBetweenRow {
    pub weight: usize,
    pub positions: Slot,
    pub normals: Slot,
}

#[derive(Clone, Copy)]
pub struct SkinRow {
    pub skeleton: u32,
    pub root: Reference,
}

#[derive(Clone, Copy)]
pub struct SkeletonRow {
    pub joints: Part,
    pub inverse_binds: Part,
}

// What a channel drives.
#[derive(Clone, Copy)]
pub enum Property {
    Translation,
    Rotation,
    Scale,
    MorphWeights,
}
