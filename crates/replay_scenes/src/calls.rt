// The calls on a scene. Each is made with what stands next in the fields, and all that it answers and leaves is
// compared with what stands behind.
use crate::{nodes, skins, vertices};
use lists::Fields;
use scene_lists::Scene;
use std::fmt;

#[derive(Clone, Copy, PartialEq, Eq, Debug)]
pub enum Call {
    Parents,
    Pose,
    Places,
    Palette,
    Root,
    Weights,
    Bake,
    Transformed,
    Skinned,
    Morphed,
}

// The calls by their numbers in the list.
pub static CALLS: [Call; 10] = [
    Call::Parents,
    Call::Pose,
    Call::Places,
    Call::Palette,
    Call::Root,
    Call::Weights,
    Call::Bake,
    Call::Transformed,
    Call::Skinned,
    Call::Morphed,
];

pub fn call_of(number: u32) -> Option<Call> {
    CALLS.get(number as usize).copied()
}

impl fmt::Display for Call {
    fn fmt<W: fmt::Write>(&self, f: &mut fmt::Formatter<W>) -> fmt::Result {
        let name = match self {
            Call::Parents => "parents",
            Call::Pose => "sample_pose",
            Call::Places => "posed_node_transforms",
            Call::Palette => "joint_matrices_with",
            Call::Root => "skin_root",
            Call::Weights => "effective_morph_weights",
            Call::Bake => "world_mesh_at",
            Call::Transformed => "transformed",
            Call::Skinned => "skinned",
            Call::Morphed => "morphed",
        };
        write!(f, "{name}")
    }
}

fn replay_bake(scene: Scene, fields: &mut Fields) -> bool {
    let outcome = scene.replay_bake(fields);
    outcome.told && outcome.floats.differ == 0
}

// Answers whether the call is as the fields say. One that is not known is past all fields: nobody knows how much stands
// behind it.
pub fn replay(call: Option<Call>, scene: Scene, fields: &mut Fields) -> bool {
    let Some(call) = call else {
        fields.go_past();
        return false;
    };
    match call {
        Call::Parents => nodes::replay_parents(scene, fields),
        Call::Pose => nodes::replay_pose(scene, fields),
        Call::Places => nodes::replay_places(scene, fields),
        Call::Palette => skins::replay_palette(scene, fields),
        Call::Root => skins::replay_root(scene, fields),
        Call::Weights => skins::replay_weights(scene, fields),
        Call::Bake => replay_bake(scene, fields),
        Call::Transformed => vertices::replay_transformed(fields),
        Call::Skinned => vertices::replay_skinned(fields),
        Call::Morphed => vertices::replay_morphed(scene, fields),
    }
}
