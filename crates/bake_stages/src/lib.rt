// The stages of a bake before its mesh: the numbers that it refuses with, and the pose and the placing.
#![tactic(auto)]

mod numbers;
mod palettes;
mod posing;

pub use numbers::{check_first, check_late};
pub use posing::pose_and_place;
