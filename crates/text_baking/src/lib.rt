// A scene's text baked: from the bytes of a text to the bytes that are printed, in room of its own.
#![tactic(auto)]

ghost use Rattle.std.specs.Prelude.{◌≡◌, Ok};
ghost use Rattle.spelling.specs.Pushed.{Puts};
ghost use Rattle.tables.specs.Decoded.{lent_of};
ghost use Rattle.scene_text.specs.Reading.{read, told_by, room_of};
ghost use Rattle.text_baking.specs.Printed.{bake_text, needed_for, Readable, baked_text};
ghost use Rattle.text_baking.specs.Printed.{printed, Prints};

use borrowed::Vertices;
use refusals::Refusal;
use scene_forms::Tables;
use scene_text::Lengths;
use tables::Lent;
use worlds::Room;

// The most bytes of a text.
const TEXT_LIMIT: usize = 0x1_0000;

// Bakes a node of a lent scene, and prints its positions or the number.
fn bake_tables(lent: Lent<'_>, node: u32, time: f32, out: &mut [u8]) -> usize
    ensures { Puts (bake_text (lent_of lent.entry) node time) out 0 result }
{
    let mut marks = [0u32; 4096];
    let mut slots = [0f32; 10240];
    let mut walk = [0u32; 18432];
    let mut places = [0u32; 1024];
    let mut worlds = [0f32; 16384];
    let mut positions = [0f32; 7281];
    let mut normals = [0f32; 7281];
    let mut tangents = [0f32; 7281];
    let mut room = Room {
        walk: &mut walk,
        places: &mut places,
        worlds: &mut worlds,
    };
    let mut vertices = Vertices {
        positions: &mut positions,
        normals: &mut normals,
        tangents: &mut tangents,
    };
    let answer = bake::world_mesh_at(
        lent,
        node,
        time,
        &mut marks,
        &mut slots,
        &mut room,
        &mut vertices,
    );
    match answer {
        Ok(put) => {
            let n = put.lengths.positions;
            printing::put_vertices(out, &vertices.positions[..n])
        }
        Err(refusal) => printing::put_number(out, u32::from(refusal)),
    }
}

// Reads a text whose tables have room for it into them, bakes what it asks for, and prints that.
fn bake_reading(text: &[u8], n: Lengths, out: &mut [u8]) -> usize
    requires { Readable text.now × (told_by (Ok n) ≡ room_of text.now) }
    ensures { Puts (baked_text (read text.now)) out 0 result }
{
    let mut words = [0u32; 65536];
    let mut floats = [0f32; 7281];
    let mut node_weights = [0f32; 7281];
    let mut mesh_weights = [0f32; 7281];
    let mut tables = Tables {
        words: &mut words,
        floats: &mut floats,
        node_weights: &mut node_weights,
        mesh_weights: &mut mesh_weights,
    };
    let read = scene_text::read_scene(text, &mut tables);
    let Ok(scene) = read else { unreachable!() };
    let lent = Lent {
        words: &words[..n.words],
        floats: &floats[..n.floats],
        node_weights: &node_weights[..n.node_weights],
        mesh_weights: &mesh_weights[..n.mesh_weights],
        header: scene.header,
    };
    bake_tables(lent, scene.node, scene.time, out)
}

// What a text draws before it is baked, or the room that its tables need.
fn needed(text: &[u8]) -> Result<Lengths, Refusal>
    ensures { told_by result ≡ needed_for text.now }
{
    if TEXT_LIMIT < text.len() {
        return Err(Refusal::OverLimit);
    }
    scene_text::text_room(text)
}

// Bakes the node at the time that a text asks for, and prints the baked positions, one vertex a line, or the refusal
// number alone; answers how many bytes these are. No text draws 6 or 10.
pub fn bake_text(text: &[u8], out: &mut [u8; 65536]) -> usize
    ensures { Prints (printed text.now) out result }
{
    match needed(text) {
        Ok(n) => bake_reading(text, n, out),
        Err(refusal) => printing::put_number(out, u32::from(refusal)),
    }
}
