ghost use Rattle.std.specs.Prelude.{◌≡◌};
ghost use Rattle.std.specs.Float.{binary32};
ghost use Rattle.std.specs.Float.Ieee.{of_bits};
ghost use Rattle.worlds.specs.Rooms.{SameRoom};
ghost use Rattle.bake.specs.Baked.{room, told_by};
ghost use Rattle.lent_bytes.specs.Bytes.{lent_of_bytes, slices_of, scene_bytes, decoding_room, drawn_by, decoded_to};
ghost use Rattle.byte_baking.specs.Output.{byte_output, output_lent, SameBytes};
ghost use Rattle.byte_baking.specs.Baked.{room_over, BakedIn};
ghost use Rattle.byte_bake.specs.Baked.{BakedBytes};

use bake::{Answer, Put};
use byte_baking::{VertexBytes, bake_over};
use lent_bytes::LentBytes;
use refusals::Refusal;
use tables::Header;
use worlds::Room;

// Decodes the scene into room that is long enough, and bakes.
fn bake_decoded(
    lent: LentBytes,
    node: u32,
    time: f32,
    word_room: &mut [u32],
    float_room: &mut [f32],
    marks: &mut [u32],
    slots: &mut [f32],
    room: &mut Room<'_>,
    positions: &mut [f32],
    normals: &mut [f32],
    tangents: &mut [f32],
    bytes: &mut VertexBytes<'_>,
) -> Result<Put, Refusal>
    requires { drawn_by (slices_of lent) (record { words = word_room.old; floats = float_room.old }) ≡ 0 }
    ensures same_room { SameRoom room.old room.new }
    ensures same_bytes { SameBytes bytes.old bytes.new }
    ensures baked_in { BakedIn 0 (lent_of_bytes lent.entry) node time
        (room_over marks slots room.old room.new positions normals tangents)
        (output_lent bytes.old bytes.new) (told_by result) }
    ensures float_room_value { (decoding_room word_room float_room).to
        ≡ decoded_to (slices_of lent.entry) (decoding_room word_room float_room).from }
{
    lent_bytes::decode(lent, word_room, float_room);
    let e = lent_bytes::ends_of(lent);
    let standing = lent_bytes::standing_in(word_room, float_room, e, lent.header);
    bake_over(
        standing, node, time, marks, slots, room, positions, normals, tangents, bytes,
    )
}

// The bake at the time with the given bit pattern: the room is looked at before anything is changed.
fn bake_bytes(
    lent: LentBytes,
    node: u32,
    time: u32,
    word_room: &mut [u32],
    float_room: &mut [f32],
    marks: &mut [u32],
    slots: &mut [f32],
    room: &mut Room<'_>,
    positions: &mut [f32],
    normals: &mut [f32],
    tangents: &mut [f32],
    bytes: &mut VertexBytes<'_>,
) -> Result<Put, Refusal>
    ensures same_room { SameRoom room.old room.new }
    ensures same_bytes { SameBytes bytes.old bytes.new }
    ensures baked { BakedBytes (slices_of lent.entry) lent.entry.header node
        (of_bits binary32 time)
        (decoding_room word_room float_room)
        (room_over marks slots room.old room.new positions normals tangents)
        (output_lent bytes.old bytes.new) (told_by result) }
{
    let time = float::from_bits(time);
    let count = lent_bytes::count_of(lent.floats, lent.node_weights, lent.mesh_weights);
    let words = lent.words.len() / 4;
    let drawn = lent_bytes::check_room(words, count, word_room.len(), float_room.len());
    let space = worlds::space_in(marks, slots, room);
    byte_checks::check_first(lent, node, time, space, drawn)?;
    bake_decoded(
        lent, node, time, word_room, float_room, marks, slots, room, positions, normals, tangents,
        bytes,
    )
}

// The mesh of a node in the world at the time with the given bit pattern, as `bake_floats` says it, of a scene in
// bytes: it is decoded into room that is lent. The mesh is left in floats and in bytes, and an output has as much room
// as both have. Answers 1, 2, 3, 5 to 10 or 0. What scratch room and outputs hold at entry is not read.
#[unsafe(no_mangle)]
pub extern "C" fn mesh3d_bake(
    words: &[u8],
    floats: &[u8],
    node_weights: &[u8],
    mesh_weights: &[u8],
    header: Header,
    node: u32,
    time: u32,
    word_room: &mut [u32],
    float_room: &mut [f32],
    marks: &mut [u32],
    slots: &mut [f32],
    walk: &mut [u32],
    places: &mut [u32],
    worlds: &mut [f32],
    position_floats: &mut [f32],
    normal_floats: &mut [f32],
    tangent_floats: &mut [f32],
    positions: &mut [u8],
    normals: &mut [u8],
    tangents: &mut [u8],
) -> Answer
    ensures { BakedBytes (scene_bytes words floats node_weights mesh_weights) header node
        (of_bits binary32 time) (decoding_room word_room float_room)
        (room marks slots walk places worlds position_floats normal_floats tangent_floats)
        (byte_output positions normals tangents) result }
{
    let lent = LentBytes {
        words,
        floats,
        node_weights,
        mesh_weights,
        header,
    };
    let mut scratch = Room {
        walk,
        places,
        worlds,
    };
    let mut bytes = VertexBytes {
        positions,
        normals,
        tangents,
    };
    Answer::from(bake_bytes(
        lent,
        node,
        time,
        word_room,
        float_room,
        marks,
        slots,
        &mut scratch,
        position_floats,
        normal_floats,
        tangent_floats,
        &mut bytes,
    ))
}
