ghost use Rattle.tables.specs.Decoded.{lent_of};
ghost use Rattle.worlds.specs.Rooms.{SameRoom};
ghost use Rattle.bake_stages.specs.Scratch.{slices_in, scratch_lent, PosedAndPlaced, Ready};

use tables::Lent;
use worlds::Room;

// Poses and places all nodes, for tables, a time and room that have been checked; answers how many entries were taken.
pub fn pose_and_place(
    lent: Lent,
    time: f32,
    marks: &mut [u32],
    slots: &mut [f32],
    room: &mut Room<'_>,
) -> usize
    requires { Ready lent.words.now lent.floats.now lent.header time (slices_in marks.old slots.old room.old) }
    ensures same_room { SameRoom room.old room.new }
    ensures placed { PosedAndPlaced (lent_of lent.entry) time (scratch_lent marks slots room.old room.new) result }
{
    pose::pose_all(lent, time, marks, slots);
    worlds::place_all(lent, marks, slots, room)
}
