// Whether the counts, tags and marks of a record are within their limits.
ghost use Rattle.std.specs.Prelude.{◌≡◌};
ghost use Rattle.row_checks.specs.Bounds.{slot_within, node_within, tags_known, mesh_within};
ghost use Rattle.row_checks.specs.Bounds.{primitive_within, target_within, in_between_within, skin_within};
ghost use Rattle.row_checks.specs.Bounds.{skeleton_within};

use refusals::{IN_BETWEEN_LIMIT, JOINT_LIMIT, PRIMITIVE_LIMIT, TARGET_LIMIT, VERTEX_LIMIT};
use tables::{
    ChannelRow, InBetweenRow, MeshRow, NodeRow, PrimitiveRow, SkeletonRow, SkinRow, Slot, TargetRow,
};

fn slot_within(s: Slot) -> bool
    ensures { result ≡ slot_within s }
{
    if s.mark == 0 {
        return true;
    }
    s.mark <= 1 && s.part.count <= VERTEX_LIMIT
}

pub fn node_within(r: NodeRow) -> bool
    ensures { result ≡ node_within r }
{
    r.form <= 1 && r.mesh.mark <= 1 && r.skin.mark <= 1 && r.weights.mark <= 1
}

pub fn tags_known(r: ChannelRow) -> bool
    ensures { result ≡ tags_known r }
{
    r.property <= 3 && r.kind <= 2 && r.interpolation <= 2
}

pub fn mesh_within(r: MeshRow) -> bool
    ensures { result ≡ mesh_within r }
{
    r.primitives.count <= PRIMITIVE_LIMIT
}

pub fn primitive_within(r: PrimitiveRow) -> bool
    ensures { result ≡ primitive_within r }
{
    r.positions.count <= VERTEX_LIMIT
        && slot_within(r.normals)
        && slot_within(r.tangents)
        && slot_within(r.joints)
        && slot_within(r.weights)
        && r.targets.count <= TARGET_LIMIT
}

pub fn target_within(r: TargetRow) -> bool
    ensures { result ≡ target_within r }
{
    slot_within(r.positions)
        && slot_within(r.normals)
        && slot_within(r.tangents)
        && r.in_betweens.count <= IN_BETWEEN_LIMIT
}

pub fn in_between_within(r: InBetweenRow) -> bool
    ensures { result ≡ in_between_within r }
{
    slot_within(r.positions) && slot_within(r.normals)
}

pub fn skin_within(r: SkinRow) -> bool
    ensures { result ≡ skin_within r }
{
    r.root.mark <= 1
}

pub fn skeleton_within(r: SkeletonRow) -> bool
    ensures { result ≡ skeleton_within r }
{
    r.joints.count <= JOINT_LIMIT
}
