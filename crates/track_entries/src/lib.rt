// The C functions on tracks; include/mesh3d.h declares them.
#![tactic(auto)]

mod bytes;
mod floats;

pub use bytes::mesh3d_sample;
pub use floats::{
    Told, mesh3d_frame_floats, mesh3d_keys_in_line_floats, mesh3d_sample_floats,
    mesh3d_stride_floats,
};
