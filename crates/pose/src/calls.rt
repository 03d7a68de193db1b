ghost use Rattle.std.specs.Prelude.{◌≡◌, ◌/◌, min};
ghost use Rattle.borrowed.specs.Slices.{change};
ghost use Rattle.refusals.specs.Drawn.{number_drawn};
ghost use Rattle.tables.specs.Decoded.{lent_of};
ghost use Rattle.pose_slots.specs.Channels.{channels_in};
ghost use Rattle.pose.specs.Lines.{Drivable};
ghost use Rattle.pose.specs.Encoded.{Encoded, pose_number_for, Posed};

use crate::lines::keys_out_of_line;
use crate::sampler::{clear, drive_all};
use refusals::Refusal;
use tables::Lent;

// How many nodes slices of such lengths have slots for.
fn slots_in(marks: usize, slots: usize) -> usize
    ensures { result ≡ min (marks / 4) (slots / 10) }
{
    (marks / 4).min(slots / 10)
}

// What a call for the pose at a time draws, with slots for so many nodes.
pub fn check_pose(lent: Lent, time: f32, slots: usize) -> Result<(), Refusal>
    ensures { number_drawn result ≡ pose_number_for (lent_of lent.entry) time slots }
{
    checks::check_tables(lent)?;
    if float::is_nan(time) {
        return Err(Refusal::NoTime);
    }
    if keys_out_of_line(lent) {
        return Err(Refusal::KeysOutOfLine);
    }
    let graph = lent.header.graph;
    if slots < graph.nodes.count {
        return Err(Refusal::ShortScratch);
    }
    Ok(())
}

// The poses of all nodes, in slots that hold anything: a stage, for tables and a time that have been checked.
pub fn pose_all(lent: Lent, time: f32, marks: &mut [u32], slots: &mut [f32])
    requires { Drivable lent.words.now lent.floats.now lent.header.channels lent.header.graph.nodes.count time
        marks.old slots.old }
    ensures { Encoded (channels_in lent.entry.words.now lent.entry.floats.now lent.entry.header.channels) time
        lent.entry.header.graph.nodes.count marks slots }
{
    clear(marks, slots, lent.header.graph.nodes.count);
    drive_all(lent, time, marks, slots);
}

// The pose of every node at a time, in lent slots: four words and ten floats a node. The words are marks for
// translation, rotation and scale, and 1 + the channel that gives the morph weights, or 0; floats that are not posed
// are 0. Refused, both slices stay as lent.
pub fn sample_pose(
    lent: Lent,
    time: f32,
    marks: &mut [u32],
    slots: &mut [f32],
) -> Result<(), Refusal>
    ensures { Posed (lent_of lent.entry) time (change marks) (change slots) (number_drawn result) }
{
    let space = slots_in(marks.len(), slots.len());
    check_pose(lent, time, space)?;
    pose_all(lent, time, marks, slots);
    Ok(())
}
