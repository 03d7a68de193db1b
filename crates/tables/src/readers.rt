ghost use Rattle.std.specs.Prelude.{◌≡◌, length, get_or};
ghost use Rattle.float.specs.F32.{zero32};
ghost use Rattle.scene.specs.Values.{trs, transform_of};
ghost use Rattle.tables.specs.Tags.{is_marked, property_for, property_of, option_of};
ghost use Rattle.tables.specs.Tags.{id_of};
ghost use Rattle.tables.specs.Tags.{track_for};
ghost use Rattle.tables.specs.Decoded.{parts_from, ten_in, base_of};

use crate::{ChannelRow, InBetweenRow, NodeRow, Property, Reference};
use scene::{Quat, Transform, Trs, Vec3};
use tracks::{Interpolation, Kind, Track};

// Whether a mark says present.
pub fn is_marked(mark: u32) -> bool
    ensures { result ≡ is_marked mark }
{
    mark != 0
}

// What an id that may be absent names.
pub fn id_of(r: Reference) -> Option<u32>
    ensures { option_of result ≡ id_of r }
{
    if r.mark == 0 {
        return None;
    }
    Some(r.id)
}

impl From<u32> for Property {
    ghost from_gives = { λ n p. property_of p ≡ property_for n };

    fn from(n: u32) -> Property {
        match n {
            0 => Property::Translation,
            1 => Property::Rotation,
            2 => Property::Scale,
            _ => Property::MorphWeights,
        }
    }
}

// What a channel drives.
pub fn property_of(row: ChannelRow) -> Property
    ensures { property_of result ≡ property_for row.property }
{
    Property::from(row.property)
}

// The track of a channel.
pub fn track_of(row: ChannelRow) -> Track
    ensures { result ≡ track_for row }
{
    Track {
        kind: Kind::from(row.kind),
        interpolation: Interpolation::from(row.interpolation),
        keys: row.keys,
        values: row.values,
    }
}

fn trs_from(ten: &[f32]) -> Trs
    requires { length ten.now ≡ 10 }
    ensures { trs result ≡ parts_from ten.now }
{
    Trs {
        translation: Vec3 {
            x: ten[0],
            y: ten[1],
            z: ten[2],
        },
        rotation: Quat {
            x: ten[3],
            y: ten[4],
            z: ten[5],
            w: ten[6],
        },
        scale: Vec3 {
            x: ten[7],
            y: ten[8],
            z: ten[9],
        },
    }
}

fn trs_in(floats: &[f32], at: usize) -> Trs
    ensures { trs result ≡ parts_from (ten_in floats.now at) }
{
    if 10 <= floats.len() {
        if at <= floats.len() - 10 {
            let end = at + 10;
            return trs_from(&floats[at..end]);
        }
    }
    let none = Vec3 {
        x: 0.0,
        y: 0.0,
        z: 0.0,
    };
    Trs {
        translation: none,
        rotation: Quat {
            x: 0.0,
            y: 0.0,
            z: 0.0,
            w: 0.0,
        },
        scale: none,
    }
}

// The base transform of a node.
pub fn base_of(floats: &[f32], row: NodeRow) -> Transform
    ensures { transform_of result ≡ base_of floats.now row }
{
    if row.form == 0 {
        return Transform::Trs(trs_in(floats, row.base));
    }
    Transform::Matrix(scene::load(floats, row.base))
}

// The weight of an in-between.
pub fn weight_of(floats: &[f32], row: InBetweenRow) -> f32
    ensures { result ≡ get_or floats.now row.weight zero32 }
{
    let at = row.weight;
    if at < floats.len() {
        return floats[at];
    }
    0.0
}
