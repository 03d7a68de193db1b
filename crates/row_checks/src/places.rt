// Whether the parts of a record lie in their tables.
ghost use Rattle.std.specs.Prelude.{◌≡◌};
ghost use Rattle.row_checks.specs.Places.{slot_fits, base_floats, node_fits, mesh_fits, primitive_fits, target_fits};
ghost use Rattle.row_checks.specs.Places.{in_between_fits, skeleton_fits};

use crate::Sizes;
use tables::{InBetweenRow, MeshRow, NodeRow, PrimitiveRow, SkeletonRow, Slot, TargetRow};
use tracks::{Part, fits};

fn slot_fits(s: Slot, width: usize, len: usize) -> bool
    ensures { result ≡ slot_fits s width len }
{
    if s.mark == 0 {
        return true;
    }
    fits(s.part, width, len)
}

// Ten floats, or the sixteen of a matrix.
pub fn base_floats(form: u32) -> usize
    ensures { result ≡ base_floats form }
{
    if form == 0 {
        return 10;
    }
    16
}

pub fn node_fits(s: Sizes, r: NodeRow) -> bool
    ensures { result ≡ node_fits s r }
{
    let base = Part {
        at: r.base,
        count: base_floats(r.form),
    };
    fits(base, 1, s.floats)
        && fits(r.children, 1, s.words)
        && slot_fits(r.weights, 1, s.node_weights)
}

pub fn mesh_fits(s: Sizes, r: MeshRow) -> bool
    ensures { result ≡ mesh_fits s r }
{
    fits(r.primitives, 1, s.primitives) && fits(r.weights, 1, s.mesh_weights)
}

pub fn primitive_fits(s: Sizes, r: PrimitiveRow) -> bool
    ensures { result ≡ primitive_fits s r }
{
    fits(r.positions, 3, s.floats)
        && slot_fits(r.normals, 3, s.floats)
        && slot_fits(r.tangents, 4, s.floats)
        && slot_fits(r.joints, 4, s.words)
        && slot_fits(r.weights, 4, s.floats)
        && fits(r.targets, 1, s.targets)
}

pub fn target_fits(s: Sizes, r: TargetRow) -> bool
    ensures { result ≡ target_fits s r }
{
    slot_fits(r.positions, 3, s.floats)
        && slot_fits(r.normals, 3, s.floats)
        && slot_fits(r.tangents, 3, s.floats)
        && fits(r.in_betweens, 1, s.in_betweens)
}

pub fn in_between_fits(s: Sizes, r: InBetweenRow) -> bool
    ensures { result ≡ in_between_fits s r }
{
    let weight = Part {
        at: r.weight,
        count: 1,
    };
    fits(weight, 1, s.floats)
        && slot_fits(r.positions, 3, s.floats)
        && slot_fits(r.normals, 3, s.floats)
}

pub fn skeleton_fits(s: Sizes, r: SkeletonRow) -> bool
    ensures { result ≡ skeleton_fits s r }
{
    fits(r.joints, 1, s.words) && fits(r.inverse_binds, 16, s.floats)
}
