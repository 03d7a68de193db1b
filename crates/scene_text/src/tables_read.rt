// A text is read twice: once to compare, judge and measure it, and once, where nothing is refused, into the tables.
ghost use Rattle.std.specs.Prelude.{◌≡◌, ◌+◌, ◌*◌, ◌≤◌, min, ltb, get_or};
ghost use Rattle.refusals.specs.Drawn.{number_drawn};
ghost use Rattle.spelling.specs.Pushed.{farthest};
ghost use Rattle.scene_forms.specs.Read.{SameSlices, changed};
ghost use Rattle.scene_forms.specs.Said.{header_from, table_at};
ghost use Rattle.scene_text.specs.Scanned.{Scanned, is_reading, leaves_table, words_of_counts, words_for, room_in};
ghost use Rattle.scene_text.specs.Scanned.{lengths_from, is_short, unread_for, number_for, accepted_from};
ghost use Rattle.scene_text.specs.Reading.{SceneRead, answer_of, told_by, no_header, room_of};

use crate::{Contents, Lengths};
use brackets::Met;
use refusals::Refusal;
use scene_forms::{Found, Tables};
use tables::{Graph, Header, Meshes, Skins};
use tracks::Part;

// All that one pass over a text tells; nothing is kept.
pub(crate) fn scan(text: &[u8]) -> Found
    ensures { Scanned text.now result }
{
    let mut words = [0u32; 1];
    let mut floats = [0f32; 1];
    let mut node_weights = [0f32; 1];
    let mut mesh_weights = [0f32; 1];
    let mut tables = Tables {
        words: &mut words,
        floats: &mut floats,
        node_weights: &mut node_weights,
        mesh_weights: &mut mesh_weights,
    };
    let met = Met { at: 0, ok: true };
    scene_forms::document(text, 0, met, &mut tables)
}

// Whether a text of so many bytes is that of what was made of it, and that has its shape.
pub(crate) fn is_reading(len: usize, f: Found) -> bool
    ensures { result ≡ is_reading len f }
{
    let met = f.place.met;
    let shape = f.place.shape;
    met.ok && met.at == len && shape.ok && f.counts[0] == 1
}

// Whether a list of records leaves its table.
fn leaves_table(f: Found) -> bool
    ensures { result ≡ leaves_table f }
{
    let counts = f.counts;
    let reaches = f.reaches;
    counts[4] < reaches[3] || counts[5] < reaches[4] || counts[6] < reaches[5]
}

// So many records of so many words more, or a number that no slice has room for.
fn more_words(sum: usize, count: usize, stride: usize) -> usize
    requires { sum ≤ farthest }
    ensures { (result ≡ min (sum + count * stride) farthest) × (result ≤ farthest) }
{
    if stride == 0 {
        return sum;
    }
    if count <= (0x8000_0000_0000_0000 - sum) / stride {
        return sum + count * stride;
    }
    0x8000_0000_0000_0000
}

// How many words the ids and all records take.
fn words_for(ids: usize, counts: [usize; 9]) -> usize
    requires { ids ≤ farthest }
    ensures { (result ≡ words_for ids counts) × (result ≤ farthest) }
{
    let mut sum = ids;
    for k in 0..9 {
        sum = more_words(sum, counts[k], scene_schema::stride(k));
    }
    sum
}

// Whether a slice of so many entries has no room for so many; a place is a word of 32 bits.
fn is_short(len: usize, needed: usize) -> bool
    ensures { result ≡ ltb (room_in len) needed }
{
    if 0xffff_ffff < needed {
        return true;
    }
    len < needed
}

// Whether slices of such lengths have no room for tables of such lengths.
fn are_short(lent: Lengths, needed: Lengths) -> bool
    ensures { result ≡ is_short lent needed }
{
    is_short(lent.words, needed.words)
        || is_short(lent.floats, needed.floats)
        || is_short(lent.node_weights, needed.node_weights)
        || is_short(lent.mesh_weights, needed.mesh_weights)
}

// How long the tables are that are made of a text.
fn lengths_from(f: Found) -> Lengths
    requires { f.place.counts.ids ≤ farthest }
    ensures { result ≡ lengths_from f }
{
    let n = f.place.counts;
    Lengths {
        words: words_for(n.ids, f.counts),
        floats: n.floats,
        node_weights: n.node_weights,
        mesh_weights: n.mesh_weights,
    }
}

// What a text of so many bytes draws, whatever it is read into.
fn check_reading(len: usize, f: Found) -> Result<(), Refusal>
    ensures { number_drawn result ≡ unread_for len f }
{
    if !is_reading(len, f) {
        return Err(Refusal::BadForm);
    }
    if leaves_table(f) {
        return Err(Refusal::OutOfTable);
    }
    Ok(())
}

// What it draws, read into slices of such lengths.
fn check(len: usize, f: Found, lent: Lengths) -> Result<(), Refusal>
    requires { f.place.counts.ids ≤ farthest }
    ensures { number_drawn result ≡ number_for len f lent }
{
    check_reading(len, f)?;
    if are_short(lent, lengths_from(f)) {
        return Err(Refusal::ShortOutput);
    }
    Ok(())
}

// Where the tables lie, each behind the one before, the first of them at a word.
fn header_from(at: usize, roots: usize, n: [usize; 9]) -> Header
    requires { at + words_of_counts 0 n ≤ 0xffff_ffff }
    ensures { result ≡ header_from at (table_at 0 roots) (λ k. get_or n k 0) }
{
    let channels = at + n[1] * 16;
    let meshes = channels + n[2] * 8;
    let primitives = meshes + n[3] * 4;
    let targets = primitives + n[4] * 16;
    let in_betweens = targets + n[5] * 12;
    let skins = in_betweens + n[6] * 8;
    let skeletons = skins + n[7] * 4;
    Header {
        graph: Graph {
            nodes: part(at, n[1]),
            roots: part(0, roots),
        },
        channels: part(channels, n[2]),
        meshes: Meshes {
            meshes: part(meshes, n[3]),
            primitives: part(primitives, n[4]),
            targets: part(targets, n[5]),
            in_betweens: part(in_betweens, n[6]),
        },
        skins: Skins {
            skins: part(skins, n[7]),
            skeletons: part(skeletons, n[8]),
        },
    }
}

fn part(at: usize, count: usize) -> Part
    ensures { result ≡ table_at at count }
{
    Part { at, count }
}

// The header of no tables at all.
pub(crate) fn no_header() -> Header
    ensures { result ≡ no_header }
{
    header_from(0, 0, [0usize; 9])
}

// What a text that was read says besides its tables.
fn contents(f: Found) -> Contents
    requires { f.place.counts.ids + words_of_counts 0 f.counts ≤ 0xffff_ffff }
    ensures { result ≡ accepted_from f }
{
    let n = f.place.counts;
    let request = f.place.request;
    Contents {
        header: header_from(n.ids, request.roots, f.counts),
        node: (request.node % 0x1_0000_0000) as u32,
        time: float::from_bits((request.time % 0x1_0000_0000) as u32),
    }
}

// Reads a scene from a text into four tables, each filled from its start: 13 where the text has no reading, 1 where a
// list of records leaves its table, 10 where a table is too short. Refused, nothing is changed.
pub fn read_scene(text: &[u8], tables: &mut Tables<'_>) -> Result<Contents, Refusal>
    ensures same { SameSlices tables.old tables.new }
    ensures read { SceneRead text.now (changed tables.old tables.new) (answer_of result) }
{
    let f = scan(text);
    let lent = Lengths {
        words: tables.words.len(),
        floats: tables.floats.len(),
        node_weights: tables.node_weights.len(),
        mesh_weights: tables.mesh_weights.len(),
    };
    check(text.len(), f, lent)?;
    let n = f.place.counts;
    let unseen = Met { at: 0, ok: false };
    scene_forms::document(text, n.ids, unseen, tables);
    Ok(contents(f))
}

// Tells how long the tables must be to read a text: 13 or 1 where it is refused whatever they are.
pub fn text_room(text: &[u8]) -> Result<Lengths, Refusal>
    ensures { told_by result ≡ room_of text.now }
{
    let f = scan(text);
    check_reading(text.len(), f)?;
    Ok(lengths_from(f))
}
