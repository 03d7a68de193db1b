// The bake of one node: `world_mesh_at` of pose.rs.
#![tactic(auto)]

ghost use Rattle.std.specs.Prelude.{◌≡◌, ◌&&◌, leb, length};
ghost use Rattle.tables.specs.Decoded.{lent_of};
ghost use Rattle.worlds.specs.Rooms.{SameRoom};
ghost use Rattle.borrowed.specs.Attributes.{SameSlices};
ghost use Rattle.bake.specs.Baked.{room_lent, told_by, Baked};

use bake_writing::Placed;
use borrowed::Vertices;
use refusals::Refusal;
use shapes::Lengths;
use tables::Lent;
use worlds::Room;

// What a bake tells: how many floats were put out, and how many entries the placing took.
#[derive(Clone, Copy)]
pub struct Put {
    pub lengths: Lengths,
    pub taken: usize,
}

// A refusal number, or 0; how many floats were put out, and how many entries the placing took: what a C function
// answers.
#[repr(C)]
#[derive(Clone, Copy)]
pub struct Answer {
    pub number: u32,
    pub positions: usize,
    pub normals: usize,
    pub tangents: usize,
    pub taken: usize,
}

impl From<Result<Put, Refusal>> for Answer {
    ghost from_gives = { λ r a. a ≡ told_by r };

    fn from(r: Result<Put, Refusal>) -> Answer {
        match r {
            Ok(put) => Answer {
                number: 0,
                positions: put.lengths.positions,
                normals: put.lengths.normals,
                tangents: put.lengths.tangents,
                taken: put.taken,
            },
            Err(e) => Answer {
                number: u32::from(e),
                positions: 0,
                normals: 0,
                tangents: 0,
                taken: 0,
            },
        }
    }
}

// Whether so many floats have room.
fn fits(n: Lengths, out: &Vertices<'_>) -> bool
    ensures { result ≡ (leb n.positions (length out.now.positions.now) && leb n.normals (length out.now.normals.now)
        && leb n.tangents (length out.now.tangents.now)) }
{
    (n.positions <= out.positions.len())
        & (n.normals <= out.normals.len())
        & (n.tangents <= out.tangents.len())
}

// The placing that a room holds.
fn placed_in<'a>(room: &'a Room<'_>) -> Placed<'a>
    ensures { (result.places.now ≡ room.now.places.now) × (result.worlds.now ≡ room.now.worlds.now) }
{
    Placed {
        places: room.places,
        worlds: room.worlds,
    }
}

// The mesh of a node in the world at a time: blended, skinned or transformed, its primitives one after the other in the
// three outputs. The scratch room (pose slots, walk room, world slots) is lent, and holds the pose and the placing
// after.
pub fn world_mesh_at(
    lent: Lent,
    node: u32,
    time: f32,
    marks: &mut [u32],
    slots: &mut [f32],
    room: &mut Room<'_>,
    out: &mut Vertices<'_>,
) -> Result<Put, Refusal>
    ensures same_room { SameRoom room.old room.new }
    ensures same_outputs { SameSlices out.old out.new }
    ensures baked { Baked (lent_of lent.entry) node time
        (room_lent marks slots room.old room.new out.old out.new) (told_by result) }
{
    let space = worlds::space_in(marks, slots, room);
    bake_stages::check_first(lent, node, time, space)?;
    let taken = bake_stages::pose_and_place(lent, time, marks, slots, room);
    let mesh = bake_writing::mesh_of(lent, node);
    let n = shapes::mesh_lengths(lent.words, lent.header.meshes.primitives, mesh.primitives);
    let fit = fits(n, out);
    let placed = placed_in(room);
    bake_stages::check_late(lent, node, placed.places, fit)?;
    bake_writing::deliver(lent, node, time, marks, placed, out);
    Ok(Put { lengths: n, taken })
}
