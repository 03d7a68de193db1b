// Keyframe tracks in a table of floats: how their keys and values are laid out, whether the keys are in line, and what
// the table draws.
#![tactic(auto)]

mod codes;
mod keys;
mod layout;
mod numbers;

pub use keys::keys_in_line;
pub use layout::{centre, factor, fits, track_stride, width};
pub use numbers::{check_in, check_table, is_scalar, lies_in};

#[derive(Clone, Copy)]
pub enum Interpolation {
    Step,
    Linear,
    CubicSpline,
}

// The kind of a track's values; a Vec3 or a Quat counts as one value.
#[derive(Clone, Copy)]
pub enum Kind {
    Vec3,
    Quat,
    Scalar,
}

// Entries of a table: where they start, and how many there are.
#[repr(C)]
#[derive(Clone, Copy)]
pub struct Part {
    pub at: usize,
    pub count: usize,
}

// A track whose keys and values lie in a table of floats; the values are counted by the kind's entries, and start at a
// float.
#[derive(Clone, Copy)]
pub struct Track {
    pub kind: Kind,
    pub interpolation: Interpolation,
    pub keys: Part,
    pub values: Part,
}
