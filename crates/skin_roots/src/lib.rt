// The root of a skin, as skinning.rs finds it: the node that it names, or the nearest one that is above all joints.
#![tactic(auto)]

ghost use Rattle.std.specs.Prelude.{◌≡◌};
ghost use Rattle.skin_roots.specs.Roots.{answer_of};

use refusals::Refusal;

mod lines;
mod roots;

pub use roots::skin_root;

// A refusal number, or 0, and the id of a node: what a C function answers.
#[repr(C)]
#[derive(Clone, Copy)]
pub struct Root {
    pub number: u32,
    pub node: u32,
}

impl From<Result<u32, Refusal>> for Root {
    ghost from_gives = { λ r a. a ≡ answer_of r };

    fn from(r: Result<u32, Refusal>) -> Root {
        match r {
            Ok(node) => Root { number: 0, node },
            Err(e) => Root {
                number: u32::from(e),
                node: 0,
            },
        }
    }
}
