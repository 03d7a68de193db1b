ghost use Rattle.std.specs.Prelude.{◌≡◌, false, not, ◌&&◌};
ghost use Rattle.std.proofs.Math.Option.{some};
ghost use Rattle.std.specs.Float.Ieee.{is_nan};
ghost use Rattle.model.specs.Vector.{Vector, norm};
ghost use Rattle.model.specs.Scene.{rotation, vec3s, quats, scalars};
ghost use Rattle.model.specs.Sampling.{even, in_line, sample};
ghost use Rattle.scene.specs.Values.{vec3, quat};
ghost use Rattle.tracks.specs.Tracks.{table_number};
ghost use Rattle.tables.specs.Tags.{track_for, property_of};
ghost use Rattle.pose_slots.specs.Channels.{channel_in};
ghost use Rattle.pose_slots.specs.Gifts.{with_gift, Gives};

use crate::{Gift, NodePose};
use animation::SampledValue;
use refusals::WEIGHT_LIMIT;
use scene::{Quat, Vec3};
use tables::{ChannelRow, Property};

fn length4(q: Quat) -> f32
    ensures { result ≡ norm (quat q) }
{
    square_root::sqrt(q.x * q.x + q.y * q.y + q.z * q.z + q.w * q.w)
}

// A rotation of length 1, where there is a length to divide by.
fn rotation_of(q: Quat) -> Option<Gift>
    ensures { Gives result rotation quats (some (quat q)) }
{
    let len = length4(q);
    if float::is_finite(len) {
        if len > 0.0 {
            return Some(Gift::Rotation(Quat {
                x: q.x / len,
                y: q.y / len,
                z: q.z / len,
                w: q.w / len,
            }));
        }
    }
    None
}

fn of_vec3(property: Property, v: Vec3) -> Option<Gift>
    ensures { Gives result (property_of property) vec3s (some (vec3 v)) }
{
    match property {
        Property::Translation => Some(Gift::Translation(v)),
        Property::Rotation => None,
        Property::Scale => Some(Gift::Scale(v)),
        Property::MorphWeights => None,
    }
}

fn of_quat(property: Property, q: Quat) -> Option<Gift>
    ensures { Gives result (property_of property) quats (some (quat q)) }
{
    match property {
        Property::Translation => None,
        Property::Rotation => rotation_of(q),
        Property::Scale => None,
        Property::MorphWeights => None,
    }
}

fn of_scalars(property: Property) -> Option<Gift>
    ensures { (v : Vector) → Gives result (property_of property) scalars (some v) }
{
    match property {
        Property::Translation => None,
        Property::Rotation => None,
        Property::Scale => None,
        Property::MorphWeights => Some(Gift::Weights),
    }
}

// What a channel gives at a time. Its keys are in line where it is even.
pub fn gift_at(floats: &[f32], row: ChannelRow, time: f32) -> Option<Gift>
    requires { (table_number floats.now (track_for row) ≡ 0) × (is_nan time ≡ false)
        × ((even (channel_in floats.now row) && not (in_line (channel_in floats.now row).keys)) ≡ false) }
    ensures { Gives result (channel_in floats.now row).property
        (channel_in floats.now row).kind (sample (channel_in floats.now row) time) }
{
    let mut weights = [0.0f32; WEIGHT_LIMIT];
    match animation::sample(floats, tables::track_of(row), time, &mut weights) {
        Ok(SampledValue::Vec3(v)) => of_vec3(tables::property_of(row), v),
        Ok(SampledValue::Quat(q)) => of_quat(tables::property_of(row), q),
        Ok(SampledValue::Scalar(_)) => of_scalars(tables::property_of(row)),
        Err(_) => None,
    }
}

// A pose with a gift in place.
pub fn receive(p: NodePose, g: Option<Gift>) -> NodePose
    ensures { result ≡ with_gift g p }
{
    match g {
        Some(Gift::Translation(v)) => NodePose {
            translation: Some(v),
            ..p
        },
        Some(Gift::Rotation(q)) => NodePose {
            rotation: Some(q),
            ..p
        },
        Some(Gift::Scale(v)) => NodePose {
            scale: Some(v),
            ..p
        },
        Some(Gift::Weights) => p,
        None => p,
    }
}
