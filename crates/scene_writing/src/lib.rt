// A lent scene written as bracketed text (docs/TEXT.md), with the node and the time that are asked for.
#![tactic(auto)]

ghost use Rattle.std.specs.Prelude.{◌≡◌, suc, ◌<◌};
ghost use Rattle.grammar.specs.Forms.{form_text};
ghost use Rattle.spelling.specs.Pushed.{Puts};
ghost use Rattle.tables.specs.Decoded.{lent_of};
ghost use Rattle.scene_schema.specs.Schema.{kind_at};
ghost use Rattle.scene_writing.specs.Forms.{table_for, form_for, table_text, tables_text};
ghost use Rattle.scene_writing.specs.Writing.{scene_text, told_by, SceneWritten, length_for};

use refusals::Refusal;
use tables::{Header, Lent};
use tracks::Part;

// A refusal number, or 0, and how many bytes the text has: what a C function answers.
#[repr(C)]
#[derive(Clone, Copy)]
pub struct Written {
    pub number: u32,
    pub length: usize,
}

impl From<Result<usize, Refusal>> for Written {
    ghost from_gives = { λ r a. a ≡ told_by r };

    fn from(r: Result<usize, Refusal>) -> Written {
        match r {
            Ok(length) => Written { number: 0, length },
            Err(e) => Written {
                number: u32::from(e),
                length: 0,
            },
        }
    }
}

// The table of kind k + 1.
fn table_for(h: Header, k: usize) -> Part
    requires { k < 8 }
    ensures { result ≡ table_for h k }
{
    let graph = h.graph;
    let meshes = h.meshes;
    let skins = h.skins;
    match k {
        0 => graph.nodes,
        1 => h.channels,
        2 => meshes.meshes,
        3 => meshes.primitives,
        4 => meshes.targets,
        5 => meshes.in_betweens,
        6 => skins.skins,
        _ => skins.skeletons,
    }
}

// Puts record i of a table of kind k + 1.
fn put_record(out: &mut [u8], at: usize, lent: Lent<'_>, t: Part, k: usize, i: usize) -> usize
    requires { k < 8 }
    ensures { Puts (form_text (kind_at (suc k)) (form_for (lent_of lent.entry) t k i)) out at result }
{
    let words = lent.words;
    let floats = lent.floats;
    match k {
        0 => scene_spelling::put_node(out, at, lent, t, i),
        1 => scene_spelling::put_channel(out, at, words, floats, t, i),
        2 => scene_spelling::put_mesh(out, at, words, lent.mesh_weights, t, i),
        3 => scene_spelling::put_primitive(out, at, words, floats, t, i),
        4 => scene_spelling::put_target(out, at, words, floats, t, i),
        5 => scene_spelling::put_in_between(out, at, words, floats, t, i),
        6 => scene_spelling::put_skin(out, at, words, t, i),
        _ => scene_spelling::put_skeleton(out, at, words, floats, t, i),
    }
}

// Puts all records of the table of kind k + 1.
fn put_table(out: &mut [u8], at: usize, lent: Lent<'_>, k: usize) -> usize
    requires { k < 8 }
    ensures { Puts (table_text (lent_of lent.entry) k) out at result }
{
    let t = table_for(lent.header, k);
    let mut next = at;
    for i in 0..t.count {
        next = put_record(out, next, lent, t, k, i);
    }
    next
}

// Puts the whole text.
fn put_text(out: &mut [u8], lent: Lent<'_>, node: u32, time: f32) -> usize
    ensures { Puts (scene_text (lent_of lent.entry) node time) out 0 result }
{
    let graph = lent.header.graph;
    let mut next = scene_spelling::put_scene(out, 0, lent.words, graph.roots, node, time);
    for k in 0..8 {
        next = put_table(out, next, lent, k);
    }
    next
}

// How long the text of a lent scene is: 1 or 2 where its tables draw it.
pub fn text_length(lent: Lent<'_>, node: u32, time: f32) -> Result<usize, Refusal>
    ensures { let l = lent_of lent.entry in told_by result ≡ length_for l (scene_text l node time) }
{
    checks::check_tables(lent)?;
    let mut none = [0u8; 1];
    Ok(put_text(&mut none, lent, node, time))
}

// Writes a lent scene as text: 1 or 2 where its tables draw it, 10 where the output is too short. Refused, nothing is
// changed.
pub fn write_scene(lent: Lent<'_>, node: u32, time: f32, out: &mut [u8]) -> Result<usize, Refusal>
    ensures { let l = lent_of lent.entry in
        SceneWritten l (scene_text l node time) out (told_by result) }
{
    let needed = text_length(lent, node, time)?;
    if out.len() < needed {
        return Err(Refusal::ShortOutput);
    }
    Ok(put_text(out, lent, node, time))
}
