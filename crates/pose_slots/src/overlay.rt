ghost use Rattle.std.specs.Prelude.{◌≡◌};
ghost use Rattle.model.specs.Transform.{parts_of};
ghost use Rattle.model.specs.Pose.{local_transform};
ghost use Rattle.scene.specs.Values.{trs, transform_of};
ghost use Rattle.pose_slots.specs.Slots.{pose_of};

use crate::NodePose;
use scene::{Transform, Trs};

// The parts of a transform, a matrix being split.
fn parts_of(base: Transform) -> Trs
    ensures { trs result ≡ parts_of (transform_of base) }
{
    match base {
        Transform::Trs(p) => p,
        Transform::Matrix(m) => scene::from_matrix(m),
    }
}

// A node's local transform: its base transform with what is posed in place. Where neither translation, rotation nor
// scale is posed, the base transform as it is.
pub fn local_transform(p: NodePose, base: Transform) -> Transform
    ensures { transform_of result ≡ local_transform (pose_of p) (transform_of base) }
{
    if p.translation.is_some() | p.rotation.is_some() | p.scale.is_some() {
        let b = parts_of(base);
        return Transform::Trs(Trs {
            translation: p.translation.unwrap_or(b.translation),
            rotation: p.rotation.unwrap_or(b.rotation),
            scale: p.scale.unwrap_or(b.scale),
        });
    }
    base
}
