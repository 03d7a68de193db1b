// The pose of every node at a time: the port of pose.rs.
#![tactic(auto)]

mod calls;
mod lines;
mod sampler;

pub use calls::{check_pose, pose_all, sample_pose};
pub use lines::keys_out_of_line;
