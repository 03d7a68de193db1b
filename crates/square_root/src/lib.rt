// The square root of an f32, one at a time and sixteen at once: `f32::sqrt` of Rust's std, which the language lacks.
#![tactic(auto)]

mod block;
mod root;

pub use block::{Block, Roots, sqrt_block};
pub use root::sqrt;
