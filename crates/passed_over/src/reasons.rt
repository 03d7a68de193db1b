ghost use Rattle.std.specs.Prelude.{◌≡◌, false};
ghost use Rattle.std.specs.Float.Ieee.{is_nan};
ghost use Rattle.tracks.specs.Tracks.{table_number};
ghost use Rattle.tracks.specs.Values.{kind_of};
ghost use Rattle.tables.specs.Tags.{track_for, property_of};
ghost use Rattle.pose_slots.specs.Channels.{channel_in};
ghost use Rattle.pose.specs.Lines.{out_of_line};
ghost use Rattle.passed_over.specs.Told.{code_told};
ghost use Rattle.passed_over.specs.Reasons.{fits, reason_for};

use crate::Reason;
use tables::{ChannelRow, Property};
use tracks::Kind;

// Whether a property takes values of a kind.
fn fits(property: Property, kind: Kind) -> bool
    ensures { result ≡ fits (property_of property) (kind_of kind) }
{
    match property {
        Property::Translation => matches!(kind, Kind::Vec3),
        Property::Rotation => matches!(kind, Kind::Quat),
        Property::Scale => matches!(kind, Kind::Vec3),
        Property::MorphWeights => matches!(kind, Kind::Scalar),
    }
}

// Why a channel gives none of n nodes anything at a time, if it does not.
pub(crate) fn reason_at(floats: &[f32], row: ChannelRow, n: usize, time: f32) -> Option<Reason>
    requires { (table_number floats.now (track_for row) ≡ 0) × (is_nan time ≡ false)
        × (out_of_line n (channel_in floats.now row) ≡ false) }
    ensures { code_told result ≡ reason_for time n (channel_in floats.now row) }
{
    if n <= row.target as usize {
        return Some(Reason::NoNode);
    }
    let track = tables::track_of(row);
    if tracks::track_stride(track) == 0 {
        return Some(Reason::UnevenLayout);
    }
    let kind = track.kind;
    if !fits(tables::property_of(row), kind) {
        return Some(Reason::UnfitKind);
    }
    if pose_slots::gift_at(floats, row, time).is_some() {
        return None;
    }
    Some(Reason::NoLength)
}
