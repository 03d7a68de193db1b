// The C functions that tell where the tables of a scene are at fault, and which channels a pose passes over;
// include/mesh3d.h declares them.
#![tactic(auto)]

ghost use Rattle.std.specs.Prelude.{◌≡◌};
ghost use Rattle.checks.specs.Drawn.{scene_lent};
ghost use Rattle.faults.specs.Faults.{fault_of};
ghost use Rattle.passed_over.specs.Passed.{passed_over_from};

use faults::Fault;
use passed_over::PassedOver;
use tables::{Header, Lent};

// The number of the tables, and the first table, record and word that draws it.
#[unsafe(no_mangle)]
pub extern "C" fn mesh3d_find_fault(
    words: &[u32],
    floats: &[f32],
    node_weights: &[f32],
    mesh_weights: &[f32],
    header: Header,
) -> Fault
    ensures { result ≡ fault_of (scene_lent words floats node_weights mesh_weights header) }
{
    faults::scene_fault(Lent {
        words,
        floats,
        node_weights,
        mesh_weights,
        header,
    })
}

// The first channel, from the channel `from` on, that a pose at a time passes over, and why. Answers 1, 2, 3, 5 or 0.
#[unsafe(no_mangle)]
pub extern "C" fn mesh3d_find_passed_over(
    words: &[u32],
    floats: &[f32],
    node_weights: &[f32],
    mesh_weights: &[f32],
    header: Header,
    time: f32,
    from: usize,
) -> PassedOver
    ensures { result ≡ passed_over_from (scene_lent words floats node_weights mesh_weights header) time from }
{
    let lent = Lent {
        words,
        floats,
        node_weights,
        mesh_weights,
        header,
    };
    passed_over::first_passed_over(lent, time, from)
}
