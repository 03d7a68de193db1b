// The palette of a skin, and the weights that a node's mesh is blended with: the port of skin.rs and of the scene part
// of skinning.rs, of which `skin_roots` has the root of a skin. World matrices come in lent slots, a code and sixteen
// floats a node.
#![tactic(auto)]

ghost use Rattle.std.specs.Prelude.{◌≡◌};
ghost use Rattle.skin.specs.Calls.{answer_of};

use refusals::Refusal;

mod calls;
mod palette;
mod skeletons;
mod weights;

pub use calls::joint_matrices_with;
pub use palette::{is_placed, palette_count, write_palette};
pub use weights::{check_weights, effective_morph_weights, has_mesh, row_has_mesh, weights_of};

// A refusal number, or 0, and how many floats were written: what a C function answers.
#[repr(C)]
#[derive(Clone, Copy)]
pub struct Answer {
    pub number: u32,
    pub length: usize,
}

impl From<Result<usize, Refusal>> for Answer {
    ghost from_gives = { λ r a. a ≡ answer_of r };

    fn from(r: Result<usize, Refusal>) -> Answer {
        match r {
            Ok(length) => Answer { number: 0, length },
            Err(e) => Answer {
                number: u32::from(e),
                length: 0,
            },
        }
    }
}
