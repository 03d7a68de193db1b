// The forms of a lent scene put into an output of bytes, one for each record (docs/TEXT.md). Each function answers the
// place behind what it put; it stands still one past the end.
#![tactic(auto)]

mod fields;
mod forms;

pub use forms::{
    put_channel, put_in_between, put_mesh, put_node, put_primitive, put_scene, put_skeleton,
    put_skin, put_target,
};
