ghost use Rattle.std.specs.Prelude.{◌≡◌, ◌+◌, ltb};
ghost use Rattle.refusals.specs.Drawn.{number_drawn};
ghost use Rattle.tables.specs.Decoded.{lent_of};
ghost use Rattle.worlds.specs.Rooms.{short_for, short_in, scratch_in};
ghost use Rattle.worlds.specs.Placed.{place_number_for};

use crate::Space;
use refusals::Refusal;
use tables::{Graph, Lent};

// Whether there is room for fewer entries than roots and children.
fn walk_is_short(roots: usize, children: usize, walk: usize) -> bool
    ensures { result ≡ ltb walk (roots + children) }
{
    if walk < roots {
        return true;
    }
    walk - roots < children
}

// Whether the walk room or the slots are too few for a listing with so many child entries.
pub fn is_short_for(children: usize, graph: Graph, space: Space) -> bool
    ensures { result ≡ short_for children graph space.walk space.poses space.worlds }
{
    let n = graph.nodes.count;
    if walk_is_short(graph.roots.count, children, space.walk) {
        return true;
    }
    if space.poses < n {
        return true;
    }
    space.worlds < n
}

// Whether they are too few for the listing of the tables.
pub fn is_short(words: &[u32], graph: Graph, space: Space) -> bool
    ensures { result ≡ short_in words.now graph space.walk space.poses space.worlds }
{
    is_short_for(checks::child_entries(words, graph.nodes), graph, space)
}

// What a placing draws, from a given pose, with so much room.
pub(crate) fn check_place(lent: Lent, space: Space) -> Result<(), Refusal>
    ensures { number_drawn result ≡ place_number_for (lent_of lent.entry) (scratch_in space) }
{
    checks::check_tables(lent)?;
    if is_short(lent.words, lent.header.graph, space) {
        return Err(Refusal::ShortScratch);
    }
    Ok(())
}
