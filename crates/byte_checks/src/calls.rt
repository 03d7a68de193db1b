// What calls on scenes in bytes draw: what scene and time draw, then the rooms, then a node without a mesh.
ghost use Rattle.std.specs.Prelude.{◌≡◌};
ghost use Rattle.refusals.specs.Drawn.{number_drawn};
ghost use Rattle.wire.specs.Bytes.{words_in};
ghost use Rattle.checks.specs.declared.Table.TheVariants as table;
ghost use Rattle.skin.specs.Weights.{Meshed};
ghost use Rattle.lent_bytes.specs.Bytes.{lent_of_bytes};
ghost use Rattle.worlds.specs.Rooms.{scratch_in};
ghost use Rattle.byte_checks.specs.Bytes.{TableThere};
ghost use Rattle.byte_checks.specs.Numbers.{room_in, place_in, early_in, mesh_number};
ghost use Rattle.byte_checks.specs.Judged.{Judged};

use crate::lines::check_scene;
use crate::numbers::check_tables;
use crate::records::{Bytes, node_row};
use lent_bytes::LentBytes;
use refusals::Refusal;
use tables::{Graph, Header};
use worlds::Space;

// What room for so many entries, poses and worlds draws.
fn check_room(words: &[u8], graph: Graph, space: Space) -> Result<(), Refusal>
    requires { TableThere words.now graph.nodes table.Nodes }
    ensures { number_drawn result ≡ room_in 0 (words_in words.now) graph space.walk space.poses space.worlds }
{
    let children = checks::listed_entries(Bytes { words }, graph.nodes);
    if worlds::is_short_for(children, graph, space) {
        return Err(Refusal::ShortScratch);
    }
    Ok(())
}

// What a placing of a scene in bytes draws, with room for so many entries, poses and worlds; `drawn` is what the
// decoding room draws, in the caller's own type for refusals.
pub fn check_place<E: From<Refusal> + Drop>(
    lent: LentBytes,
    space: Space,
    drawn: Result<(), E>,
) -> Result<(), E>
    ensures { Judged E.from_gives (place_in 0 (lent_of_bytes lent.entry) (scratch_in space)) drawn 0 result }
{
    check_tables(lent)?;
    check_room(lent.words, lent.header.graph, space)?;
    drawn
}

// What a bake of a scene in bytes draws as far as 6.
fn check_early<E: From<Refusal> + Drop>(
    lent: LentBytes,
    time: f32,
    space: Space,
    drawn: Result<(), E>,
) -> Result<(), E>
    ensures { Judged E.from_gives (early_in 0 (lent_of_bytes lent.entry) time (scratch_in space)) drawn 0 result }
{
    check_scene(lent, time)?;
    check_room(lent.words, lent.header.graph, space)?;
    drawn
}

// Whether a node has a mesh.
fn has_mesh(words: &[u8], h: Header, node: u32) -> bool
    requires { TableThere words.now h.graph.nodes table.Nodes }
    ensures { Meshed (words_in words.now) h node result }
{
    let i = node as usize;
    let nodes = h.graph.nodes;
    if nodes.count <= i {
        return false;
    }
    skin::row_has_mesh(node_row(words, nodes, i), h)
}

// What a bake of a scene in bytes draws as far as 7.
pub fn check_first<E: From<Refusal> + Drop>(
    lent: LentBytes,
    node: u32,
    time: f32,
    space: Space,
    drawn: Result<(), E>,
) -> Result<(), E>
    ensures { Judged E.from_gives (early_in 0 (lent_of_bytes lent.entry) time (scratch_in space)) drawn
        (mesh_number (lent_of_bytes lent.entry) node) result }
{
    check_early(lent, time, space, drawn)?;
    if has_mesh(lent.words, lent.header, node) {
        return Ok(());
    }
    Err(E::from(Refusal::NoSuchNode))
}
