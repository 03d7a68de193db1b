// The pose of one node: in its slot, over its base transform, and what a channel gives it.
#![tactic(auto)]

use scene::{Quat, Vec3};

mod gifts;
mod overlay;
mod slots;

pub use gifts::{gift_at, receive};
pub use overlay::local_transform;
pub use slots::{at_rest, pose_at, store_pose};

// What is posed of a node; its morph weights are not held.
#[derive(Clone, Copy)]
pub struct NodePose {
    pub translation: Option<Vec3>,
    pub rotation: Option<Quat>,
    pub scale: Option<Vec3>,
}

// What a channel gives the pose of its node. Weights stay where they are sampled.
#[derive(Clone, Copy)]
pub enum Gift {
    Translation(Vec3),
    Rotation(Quat),
    Scale(Vec3),
    Weights,
}
