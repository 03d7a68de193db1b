// The C functions on scenes as text (docs/TEXT.md); include/mesh3d.h declares them.
#![tactic(auto)]

ghost use Rattle.std.specs.Prelude.{◌≡◌};
ghost use Rattle.checks.specs.Drawn.{scene_lent};
ghost use Rattle.scene_forms.specs.Read.{slices};
ghost use Rattle.scene_text.specs.Breaks.{break_for};
ghost use Rattle.scene_text.specs.Reading.{SceneRead, room_of};
ghost use Rattle.scene_writing.specs.Writing.{scene_text, SceneWritten, length_for};

use scene_forms::Tables;
use scene_text::{Break, Needed, Reading};
use scene_writing::Written;
use tables::{Header, Lent};

// Reads a scene from a text into four tables, each filled from its start. Answers 13, 1, 10 or 0.
#[unsafe(no_mangle)]
pub extern "C" fn mesh3d_read_scene(
    text: &[u8],
    words: &mut [u32],
    floats: &mut [f32],
    node_weights: &mut [f32],
    mesh_weights: &mut [f32],
) -> Reading
    ensures { SceneRead text.now (slices words floats node_weights mesh_weights) result }
{
    let mut tables = Tables {
        words,
        floats,
        node_weights,
        mesh_weights,
    };
    Reading::from(scene_text::read_scene(text, &mut tables))
}

// How long the tables must be that a text is read into. Answers 13, 1 or 0.
#[unsafe(no_mangle)]
pub extern "C" fn mesh3d_text_room(text: &[u8]) -> Needed
    ensures { result ≡ room_of text.now }
{
    Needed::from(scene_text::text_room(text))
}

// Where a text breaks. Answers 13 or 0, and the place.
#[unsafe(no_mangle)]
pub extern "C" fn mesh3d_find_break(text: &[u8]) -> Break
    ensures { result ≡ break_for text.now }
{
    Break::from(scene_text::find_break(text))
}

// Writes a lent scene as text, with the node and the time that are asked for, to the start of `out`. Answers 1, 2, 10
// or 0.
#[unsafe(no_mangle)]
pub extern "C" fn mesh3d_write_scene(
    words: &[u32],
    floats: &[f32],
    node_weights: &[f32],
    mesh_weights: &[f32],
    header: Header,
    node: u32,
    time: f32,
    out: &mut [u8],
) -> Written
    ensures { let l = scene_lent words floats node_weights mesh_weights header in
        SceneWritten l (scene_text l node time) out result }
{
    let lent = Lent {
        words,
        floats,
        node_weights,
        mesh_weights,
        header,
    };
    Written::from(scene_writing::write_scene(lent, node, time, out))
}

// How long that text is. Answers 1, 2 or 0.
#[unsafe(no_mangle)]
pub extern "C" fn mesh3d_text_length(
    words: &[u32],
    floats: &[f32],
    node_weights: &[f32],
    mesh_weights: &[f32],
    header: Header,
    node: u32,
    time: f32,
) -> Written
    ensures { result ≡ (let l = scene_lent words floats node_weights mesh_weights header in
        length_for l (scene_text l node time)) }
{
    let lent = Lent {
        words,
        floats,
        node_weights,
        mesh_weights,
        header,
    };
    Written::from(scene_writing::text_length(lent, node, time))
}
