ghost use Rattle.std.specs.Prelude.{◌≡◌, false, not, ◌&&◌, ◌+◌, ◌≤◌, ◌<◌};
ghost use Rattle.std.specs.Float.Ieee.{is_nan};
ghost use Rattle.model.specs.Limits.{channel_limit};
ghost use Rattle.model.specs.Lists.{pick};
ghost use Rattle.model.specs.Sampling.{even, in_line};
ghost use Rattle.tracks.specs.Tracks.{table_number};
ghost use Rattle.tables.specs.Tags.{track_for};
ghost use Rattle.pose_slots.specs.Slots.{pose_of, room};
ghost use Rattle.pose_slots.specs.Channels.{channel_in, channels_in};
ghost use Rattle.pose_slots.specs.Gifts.{bare, brings_weights};
ghost use Rattle.tables.specs.Records.{channel_row};
ghost use Rattle.pose.specs.Lines.{Drivable};
ghost use Rattle.pose.specs.Encoded.{cleared_words, cleared_floats, Cleared, Encoded};
ghost use Rattle.pose.specs.Encoded.{driven, driven_word, DrivenIn};

use pose_slots::{Gift, NodePose, at_rest, gift_at, pose_at, receive, store_pose};
use tables::{ChannelRow, Lent};

// What a slot holds.
#[derive(Clone, Copy)]
struct Slot {
    pose: NodePose,
    word: u32,
}

// The word for the weights after channel k.
fn word_after(g: Option<Gift>, k: usize, word: u32) -> u32
    requires { k < channel_limit }
    ensures { result ≡ pick (brings_weights g) (k + 1) word }
{
    if matches!(g, Some(Gift::Weights)) {
        return (k + 1) as u32;
    }
    word
}

// The slot of the node that channel k is aimed at, after that channel.
fn slot_after(
    floats: &[f32],
    row: ChannelRow,
    k: usize,
    time: f32,
    marks: &[u32],
    slots: &[f32],
) -> Slot
    requires { (table_number floats.now (track_for row) ≡ 0) × (is_nan time ≡ false)
        × ((even (channel_in floats.now row) && not (in_line (channel_in floats.now row).keys)) ≡ false)
        × (row.target < room marks.now slots.now) × (k < channel_limit) }
    ensures { (pose_of result.pose ≡ bare (driven time (channel_in floats.now row) marks.now
        slots.now)) × (result.word ≡ driven_word time (channel_in floats.now row) k
        marks.now) }
{
    let g = gift_at(floats, row, time);
    let i = row.target as usize;
    let at = i * 4 + 3;
    Slot {
        pose: receive(pose_at(marks, slots, i), g),
        word: word_after(g, k, marks[at]),
    }
}

// Channel k, which is passed over where it is aimed past the last node.
fn drive(lent: Lent, k: usize, time: f32, marks: &mut [u32], slots: &mut [f32])
    requires drivable { Drivable lent.words.now lent.floats.now lent.header.channels lent.header.graph.nodes.count time
        marks.old slots.old }
    requires in_table { k < lent.header.channels.count }
    ensures { DrivenIn time lent.entry.header.graph.nodes.count k
        (channel_in lent.entry.floats.now (channel_row lent.entry.words.now lent.entry.header.channels k)) marks slots }
{
    let row = tables::channel_row(lent.words, lent.header.channels, k);
    let i = row.target as usize;
    if i < lent.header.graph.nodes.count {
        let slot = slot_after(lent.floats, row, k, time, marks, slots);
        store_pose(marks, slots, i, slot.pose, slot.word);
    }
}

// All channels, in order, from slots in which nothing is posed.
pub(crate) fn drive_all(lent: Lent, time: f32, marks: &mut [u32], slots: &mut [f32])
    requires drivable { Drivable lent.words.now lent.floats.now lent.header.channels lent.header.graph.nodes.count time
        marks.old slots.old }
    requires marks_value { (marks.old ≡ cleared_words lent.header.graph.nodes.count marks.old)
        × (slots.old ≡ cleared_floats lent.header.graph.nodes.count slots.old) }
    ensures { Encoded (channels_in lent.entry.words.now lent.entry.floats.now lent.entry.header.channels) time
        lent.entry.header.graph.nodes.count marks slots }
{
    for k in 0..lent.header.channels.count {
        drive(lent, k, time, marks, slots);
    }
}

// Slots for n nodes in which nothing is posed.
pub(crate) fn clear(marks: &mut [u32], slots: &mut [f32], n: usize)
    requires { n ≤ room marks.old slots.old }
    ensures { Cleared n marks slots }
{
    for i in 0..n {
        store_pose(marks, slots, i, at_rest(), 0);
    }
}
