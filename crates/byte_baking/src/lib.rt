// The bake of one node, its outputs written in bytes.
#![tactic(auto)]

ghost use Rattle.std.specs.Prelude.{◌≡◌, take};
ghost use Rattle.tables.specs.Decoded.{lent_of};
ghost use Rattle.worlds.specs.Rooms.{SameRoom};
ghost use Rattle.bake.specs.Baked.{told_by, Baked};
ghost use Rattle.byte_baking.specs.Output.{output_lent, SameBytes, with_floats, Fits};
ghost use Rattle.byte_baking.specs.Baked.{room_over, BakedIn};

use bake::Put;
use borrowed::Vertices;
use refusals::Refusal;
use tables::Lent;
use worlds::Room;

// The three outputs in bytes.
#[derive(Drop)]
pub struct VertexBytes<'a> {
    pub positions: &'a mut [u8],
    pub normals: &'a mut [u8],
    pub tangents: &'a mut [u8],
}

// Writes the first n floats to the start of bytes.
fn write_start(n: usize, floats: &[f32], bytes: &mut [u8])
    requires { Fits n floats.now bytes.old }
    ensures { bytes.new ≡ with_floats (take n floats.now) bytes.old }
{
    wire::write(&floats[..n], bytes);
}

// The mesh of a node in the world at a time, its outputs in slices.
fn bake_floats(
    lent: Lent,
    node: u32,
    time: f32,
    marks: &mut [u32],
    slots: &mut [f32],
    room: &mut Room<'_>,
    positions: &mut [f32],
    normals: &mut [f32],
    tangents: &mut [f32],
) -> Result<Put, Refusal>
    ensures same_room { SameRoom room.old room.new }
    ensures baked { Baked (lent_of lent.entry) node time
        (room_over marks slots room.old room.new positions normals tangents) (told_by result) }
{
    let mut out = Vertices {
        positions,
        normals,
        tangents,
    };
    bake::world_mesh_at(lent, node, time, marks, slots, room, &mut out)
}

// The mesh of a node in the world at a time, as `bake::world_mesh_at` says it, in floats and in bytes: an output has as
// much room as both have. The floats are no struct: a field can't be cut while others of the same struct are in use.
pub fn bake_over(
    lent: Lent,
    node: u32,
    time: f32,
    marks: &mut [u32],
    slots: &mut [f32],
    room: &mut Room<'_>,
    positions: &mut [f32],
    normals: &mut [f32],
    tangents: &mut [f32],
    bytes: &mut VertexBytes<'_>,
) -> Result<Put, Refusal>
    ensures same_room { SameRoom room.old room.new }
    ensures same_bytes { SameBytes bytes.old bytes.new }
    ensures baked { BakedIn 0 (lent_of lent.entry) node time
        (room_over marks slots room.old room.new positions normals tangents)
        (output_lent bytes.old bytes.new) (told_by result) }
{
    let p = positions.len().min(bytes.positions.len() / 4);
    let n = normals.len().min(bytes.normals.len() / 4);
    let t = tangents.len().min(bytes.tangents.len() / 4);
    let put = bake_floats(
        lent,
        node,
        time,
        marks,
        slots,
        room,
        &mut positions[..p],
        &mut normals[..n],
        &mut tangents[..t],
    )?;
    write_start(put.lengths.positions, positions, bytes.positions);
    write_start(put.lengths.normals, normals, bytes.normals);
    write_start(put.lengths.tangents, tangents, bytes.tangents);
    Ok(put)
}
