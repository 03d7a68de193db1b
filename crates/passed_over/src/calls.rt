ghost use Rattle.std.specs.Prelude.{◌≡◌, drop, Ok};
ghost use Rattle.tables.specs.Decoded.{lent_of};
ghost use Rattle.pose_slots.specs.Channels.{channels_in};
ghost use Rattle.passed_over.specs.Reasons.{reason_for};
ghost use Rattle.passed_over.specs.Told.{passed_told};
ghost use Rattle.passed_over.specs.Passed.{first_with, passed_over_from, Searchable};

use crate::reasons::reason_at;
use crate::{Passed, PassedOver};
use refusals::Refusal;
use tables::Lent;

// The first channel from one on that gives no node anything at a time.
fn first_from(lent: Lent, time: f32, from: usize) -> Option<Passed>
    requires { Searchable lent.words.now lent.floats.now lent.header.channels lent.header.graph.nodes.count time }
    ensures { passed_told (Ok result) ≡ first_with (reason_for time lent.entry.header.graph.nodes.count) from
        (drop from (channels_in lent.entry.words.now lent.entry.floats.now lent.entry.header.channels)) }
{
    let channels = lent.header.channels;
    let n = lent.header.graph.nodes.count;
    for k in from..channels.count {
        let row = tables::channel_row(lent.words, channels, k);
        if let Some(reason) = reason_at(lent.floats, row, n, time) {
            return Some(Passed { reason, channel: k });
        }
    }
    None
}

// The same, where the pose is not refused.
fn search(lent: Lent, time: f32, from: usize) -> Result<Option<Passed>, Refusal>
    ensures { passed_told result ≡ passed_over_from (lent_of lent.entry) time from }
{
    let graph = lent.header.graph;
    pose::check_pose(lent, time, graph.nodes.count)?;
    Ok(first_from(lent, time, from))
}

// The first channel, from the channel `from` on, that the pose at a time passes over, and why. The number is that of
// `sample_pose` with slots enough; where it refuses, no channel is told.
pub fn first_passed_over(lent: Lent, time: f32, from: usize) -> PassedOver
    ensures { result ≡ passed_over_from (lent_of lent.entry) time from }
{
    PassedOver::from(search(lent, time, from))
}
