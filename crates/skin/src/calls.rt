ghost use Rattle.borrowed.specs.Slices.{change};
ghost use Rattle.tables.specs.Decoded.{lent_of};
ghost use Rattle.skin.specs.Calls.{NodeCounted, answer_of, Judged, Answered};

use crate::palette::{palette_count, write_palette};
use refusals::Refusal;
use tables::Lent;

// How many joint matrices the palette of a node has.
fn node_count(lent: Lent, node: u32, places: &[u32]) -> Option<usize>
    ensures { NodeCounted lent.entry.words.now lent.entry.floats.now lent.entry.header node places.now result }
{
    let i = node as usize;
    let nodes = lent.header.graph.nodes;
    if nodes.count <= i {
        return None;
    }
    let row = tables::node_row(lent.words, nodes, i);
    if row.skin.mark == 0 {
        return None;
    }
    palette_count(lent, row.skin.id, places)
}

// How many floats the palette of a node has, with so many world slots, and room for so many floats.
fn check_palette(
    lent: Lent,
    node: u32,
    places: &[u32],
    slots: usize,
    room: usize,
) -> Result<usize, Refusal>
    ensures { Judged (lent_of lent.entry) node places.now slots room (answer_of result) }
{
    let h = lent.header;
    checks::check_tables(lent)?;
    let n = h.graph.nodes.count;
    if slots < n {
        return Err(Refusal::ShortScratch);
    }
    if n <= node as usize {
        return Err(Refusal::NoSuchNode);
    }
    let Some(k) = node_count(lent, node, places) else {
        return Err(Refusal::NoPalette);
    };
    if room / 16 < k {
        return Err(Refusal::ShortOutput);
    }
    Ok(k * 16)
}

// Writes the palette of a node, from worlds that are given, to the start of `out`. Refused, nothing is changed.
pub fn joint_matrices_with(
    lent: Lent,
    node: u32,
    places: &[u32],
    worlds: &[f32],
    out: &mut [f32],
) -> Result<usize, Refusal>
    ensures { Answered (lent_of lent.entry) node places.now worlds.now (change out) (answer_of result) }
{
    let slots = places.len().min(worlds.len() / 16);
    let length = check_palette(lent, node, places, slots, out.len())?;
    let row = tables::node_row(lent.words, lent.header.graph.nodes, node as usize);
    write_palette(lent, row.skin.id, places, worlds, out);
    Ok(length)
}
