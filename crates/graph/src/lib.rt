// The parent of every node, by the rule of graph.rs (`parents`).
#![tactic(auto)]

use refusals::Refusal;

mod walk;

ghost use Rattle.borrowed.specs.Slices.{change};
ghost use Rattle.refusals.specs.Drawn.{number_drawn};
ghost use Rattle.tables.specs.Decoded.{lent_of};
ghost use Rattle.graph.specs.Marks.{Parents};

use tables::Lent;

// Writes the mark of each node to the start of `out`: 0 where no way leads to it, 1 for a root, p + 3 where node p
// listed it first. Refused, nothing is changed.
pub fn parents(lent: Lent, out: &mut [u32]) -> Result<(), Refusal>
    ensures { Parents (lent_of lent.entry) (change out) (number_drawn result) }
{
    checks::check_tables(lent)?;
    let graph = lent.header.graph;
    let n = graph.nodes.count;
    if out.len() < n {
        return Err(Refusal::ShortOutput);
    }
    walk::mark(lent.words, graph, &mut out[..n]);
    Ok(())
}
