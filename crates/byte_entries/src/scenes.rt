ghost use Rattle.std.specs.Prelude.{◌≡◌};
ghost use Rattle.worlds.specs.Placed.{answer_of};
ghost use Rattle.lent_bytes.specs.Bytes.{lent_of_bytes, slices_of, scene_bytes, decoding_room, drawn_by, decoded_to};
ghost use Rattle.byte_placing.specs.Placed.{placing_room, PlacedIn};
ghost use Rattle.byte_entries.specs.Placed.{PlacedBytes};

use byte_placing::place_over;
use lent_bytes::LentBytes;
use refusals::Refusal;
use tables::Header;
use worlds::{Answer, Space};

// Decodes the scene into room that is long enough, and places its nodes.
fn place_decoded(
    lent: LentBytes,
    word_room: &mut [u32],
    float_room: &mut [f32],
    marks: &[u32],
    slots: &[f32],
    walk: &mut [u32],
    codes: &mut [u32],
    matrices: &mut [f32],
    places: &mut [u8],
    worlds: &mut [u8],
) -> Result<usize, Refusal>
    requires { drawn_by (slices_of lent) (record { words = word_room.old; floats = float_room.old }) ≡ 0 }
    ensures placed_in { PlacedIn 0 (lent_of_bytes lent.entry) marks.now slots.now
        (placing_room walk codes matrices places worlds) (answer_of result) }
    ensures float_room_value { (decoding_room word_room float_room).to
        ≡ decoded_to (slices_of lent.entry) (decoding_room word_room float_room).from }
{
    lent_bytes::decode(lent, word_room, float_room);
    let e = lent_bytes::ends_of(lent);
    let standing = lent_bytes::standing_in(word_room, float_room, e, lent.header);
    place_over(
        standing, marks, slots, walk, codes, matrices, places, worlds,
    )
}

// Where every node stands in a given pose, as `place_floats` says it, of a scene in bytes: it is decoded into room that
// is lent. The code of a node's place and its world are left in numbers and in bytes, and there are as many world slots
// as both have. Answers 1, 2, 6 or 0, and the entries taken.
#[unsafe(no_mangle)]
pub extern "C" fn mesh3d_place(
    words: &[u8],
    floats: &[u8],
    node_weights: &[u8],
    mesh_weights: &[u8],
    header: Header,
    word_room: &mut [u32],
    float_room: &mut [f32],
    marks: &[u32],
    slots: &[f32],
    walk: &mut [u32],
    codes: &mut [u32],
    matrices: &mut [f32],
    places: &mut [u8],
    worlds: &mut [u8],
) -> Answer
    ensures { PlacedBytes (scene_bytes words floats node_weights mesh_weights) header marks.now
        slots.now (decoding_room word_room float_room)
        (placing_room walk codes matrices places worlds) result }
{
    let lent = LentBytes {
        words,
        floats,
        node_weights,
        mesh_weights,
        header,
    };
    let count = lent_bytes::count_of(floats, node_weights, mesh_weights);
    let drawn = lent_bytes::check_room(words.len() / 4, count, word_room.len(), float_room.len());
    let number_slots = codes.len().min(places.len() / 4);
    let world_slots = matrices.len().min(worlds.len() / 4) / 16;
    let space = Space {
        walk: walk.len() / 2,
        poses: (marks.len() / 4).min(slots.len() / 10),
        worlds: number_slots.min(world_slots),
    };
    if let Err(e) = byte_checks::check_place(lent, space, drawn) {
        return Answer::from(Err(e));
    }
    Answer::from(place_decoded(
        lent, word_room, float_room, marks, slots, walk, codes, matrices, places, worlds,
    ))
}
