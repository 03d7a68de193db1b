ghost use Rattle.std.specs.Prelude.{◌≡◌, List, Float};
ghost use Rattle.tables.specs.Decoded.{lent_of};
ghost use Rattle.refusals.specs.Drawn.{number_drawn};
ghost use Rattle.checks.specs.Drawn.{lent_as};
ghost use Rattle.worlds.specs.Rooms.{scratch_in};
ghost use Rattle.bake_stages.specs.Numbers.{early_for, first_for, late_for};

use crate::palettes::can_have_palette;
use refusals::Refusal;
use tables::Lent;
use worlds::Space;

// What a bake draws as far as 6, with so much room.
fn check_early(lent: Lent, time: f32, space: Space) -> Result<(), Refusal>
    ensures { number_drawn result ≡ early_for (lent_of lent.entry) time (scratch_in space) }
{
    checks::check_tables(lent)?;
    if float::is_nan(time) {
        return Err(Refusal::NoTime);
    }
    if pose::keys_out_of_line(lent) {
        return Err(Refusal::KeysOutOfLine);
    }
    if worlds::is_short(lent.words, lent.header.graph, space) {
        return Err(Refusal::ShortScratch);
    }
    Ok(())
}

// What a bake draws as far as 7.
pub fn check_first(lent: Lent, node: u32, time: f32, space: Space) -> Result<(), Refusal>
    ensures { number_drawn result ≡ first_for (lent_of lent.entry) node time (scratch_in space) }
{
    check_early(lent, time, space)?;
    if skin::has_mesh(lent.words, lent.header, node) {
        return Ok(());
    }
    Err(Refusal::NoSuchNode)
}

// What a bake draws past 7: 8, 9, 10, or nothing.
pub fn check_late(lent: Lent, node: u32, places: &[u32], fit: bool) -> Result<(), Refusal>
    ensures { (own mesh slots : List Float) → number_drawn result
        ≡ late_for (lent_as lent.entry.words.now lent.entry.floats.now own mesh lent.entry.header) node
        places.now slots fit }
{
    let nodes = lent.header.graph.nodes;
    if skin::is_placed(node, nodes.count, places) {
        let row = tables::node_row(lent.words, nodes, node as usize);
        if can_have_palette(lent, row.skin, places) {
            if fit {
                return Ok(());
            }
            return Err(Refusal::ShortOutput);
        }
        return Err(Refusal::NoPalette);
    }
    Err(Refusal::UnplacedNode)
}
