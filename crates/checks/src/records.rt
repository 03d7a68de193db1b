// What a record draws, and what all records of a table draw.
ghost use Rattle.std.specs.Prelude.{◌≡◌, ◌<◌, List, ℕ, length, true, refl};
ghost use Rattle.row_checks.specs.Places.{fits_in};
ghost use Rattle.checks.specs.declared.Table.TheVariants as table;
ghost use Rattle.checks.specs.Drawn.{child_count, record_words};
ghost use Rattle.tracks.specs.declared.Part.{Part};
ghost use Rattle.checks.specs.declared.Table.{Table};
ghost use Rattle.refusals.specs.Drawn.{number_drawn};
ghost use Rattle.checks.specs.Drawn.{ByCount, drawn, lower_of, lowest_below, table_of, node_number, channel_number};
ghost use Rattle.checks.specs.Drawn.{mesh_number, primitive_number, target_number, in_between_number, skin_number};
ghost use Rattle.checks.specs.Drawn.{skeleton_number, row_number};

use crate::Table;
use refusals::Refusal;
use row_checks::{
    Sizes, in_between_fits, in_between_within, mesh_fits, mesh_within, node_fits, node_within,
    primitive_fits, primitive_within, skeleton_fits, skeleton_within, skin_within, tags_known,
    target_fits, target_within,
};
use tables::Header;
use tracks::Part;

// What is asked of a part draws: that it lies in its table, and then that it is within its limits.
pub(crate) fn check(fits: bool, within: bool) -> Result<(), Refusal>
    ensures { number_drawn result ≡ drawn fits within }
{
    if fits {
        if within {
            return Ok(());
        }
        return Err(Refusal::OverLimit);
    }
    Err(Refusal::OutOfTable)
}

// The lower of two answers: the lower refusal, or the one that there is. The numbers are compared: the derived order
// is proved over the variants' tags, and contracts speak of numbers.
pub fn lower(a: Result<(), Refusal>, b: Result<(), Refusal>) -> Result<(), Refusal>
    ensures { number_drawn result ≡ lower_of (number_drawn a) (number_drawn b) }
{
    let Err(x) = a else {
        return b;
    };
    let Err(y) = b else {
        return a;
    };
    if u32::from(x) < u32::from(y) { a } else { b }
}

// Where a table lies.
pub fn table_of(h: Header, k: Table) -> Part
    ensures { result ≡ table_of h k }
{
    match k {
        Table::Nodes => h.graph.nodes,
        Table::Channels => h.channels,
        Table::Meshes => h.meshes.meshes,
        Table::Primitives => h.meshes.primitives,
        Table::Targets => h.meshes.targets,
        Table::InBetweens => h.meshes.in_betweens,
        Table::Skins => h.skins.skins,
        Table::Skeletons => h.skins.skeletons,
    }
}

fn check_node(words: &[u32], s: Sizes, t: Part, i: usize) -> Result<(), Refusal>
    ensures { number_drawn result ≡ node_number words.now s t i }
{
    let row = tables::node_row(words, t, i);
    check(node_fits(s, row), node_within(row))
}

fn check_channel(words: &[u32], s: Sizes, t: Part, i: usize) -> Result<(), Refusal>
    ensures { ByCount s (number_drawn result) (λ floats. channel_number words.now floats t i) }
{
    let row = tables::channel_row(words, t, i);
    lower(
        tracks::check_in(s.floats, tables::track_of(row)),
        check(true, tags_known(row)),
    )
}

fn check_mesh(words: &[u32], s: Sizes, t: Part, i: usize) -> Result<(), Refusal>
    ensures { number_drawn result ≡ mesh_number words.now s t i }
{
    let row = tables::mesh_row(words, t, i);
    check(mesh_fits(s, row), mesh_within(row))
}

fn check_primitive(words: &[u32], s: Sizes, t: Part, i: usize) -> Result<(), Refusal>
    ensures { number_drawn result ≡ primitive_number words.now s t i }
{
    let row = tables::primitive_row(words, t, i);
    check(primitive_fits(s, row), primitive_within(row))
}

fn check_target(words: &[u32], s: Sizes, t: Part, i: usize) -> Result<(), Refusal>
    ensures { number_drawn result ≡ target_number words.now s t i }
{
    let row = tables::target_row(words, t, i);
    check(target_fits(s, row), target_within(row))
}

fn check_in_between(words: &[u32], s: Sizes, t: Part, i: usize) -> Result<(), Refusal>
    ensures { number_drawn result ≡ in_between_number words.now s t i }
{
    let row = tables::in_between_row(words, t, i);
    check(in_between_fits(s, row), in_between_within(row))
}

fn check_skin(words: &[u32], t: Part, i: usize) -> Result<(), Refusal>
    ensures { number_drawn result ≡ skin_number words.now t i }
{
    check(true, skin_within(tables::skin_row(words, t, i)))
}

fn check_skeleton(words: &[u32], s: Sizes, t: Part, i: usize) -> Result<(), Refusal>
    ensures { number_drawn result ≡ skeleton_number words.now s t i }
{
    let row = tables::skeleton_row(words, t, i);
    check(skeleton_fits(s, row), skeleton_within(row))
}

// What record i of a table draws.
pub fn check_row(words: &[u32], s: Sizes, t: Part, k: Table, i: usize) -> Result<(), Refusal>
    ensures { ByCount s (number_drawn result) (λ floats. row_number words.now floats s t k i) }
{
    match k {
        Table::Nodes => check_node(words, s, t, i),
        Table::Channels => check_channel(words, s, t, i),
        Table::Meshes => check_mesh(words, s, t, i),
        Table::Primitives => check_primitive(words, s, t, i),
        Table::Targets => check_target(words, s, t, i),
        Table::InBetweens => check_in_between(words, s, t, i),
        Table::Skins => check_skin(words, t, i),
        Table::Skeletons => check_skeleton(words, s, t, i),
    }
}

// The words of a scene's records, as they are lent: as words, or as the bytes of words.
pub trait Words: Copy {
    // The words, and what is asked of a table whose records are read.
    ghost said: { Self → List ℕ };

    ghost there: { Self → Part → Table → Type 0 };

    fn count(self) -> usize
        ensures { result ≡ length (said self) };

    // The child entries of node i.
    fn child_count(self, nodes: Part, i: usize) -> usize
        requires { there self nodes table.Nodes × (i < nodes.count) }
        ensures { result ≡ child_count (said self) nodes i };

    // What record i of a table draws.
    fn check_row(self, s: Sizes, t: Part, k: Table, i: usize) -> Result<(), Refusal>
        requires { there self t k × (i < t.count) }
        ensures { ByCount s (number_drawn result) (λ floats. row_number (said self) floats s t k i) };

    // A table that lies in the words meets what is asked.
    ghost lies: { (w : Self) (t : Part) (k : Table)
        → fits_in t (record_words k) (length (said w)) ≡ true → there w t k };
}

impl<'a> Words for &'a [u32] {
    ghost said = { λ w. w.now };

    ghost there = { λ w t k. k ≡ k };

    ghost lies = { λ w t k e. refl };

    fn count(self) -> usize {
        self.len()
    }

    fn child_count(self, nodes: Part, i: usize) -> usize {
        let row = tables::node_row(self, nodes, i);
        let children = row.children;
        children.count
    }

    fn check_row(self, s: Sizes, t: Part, k: Table, i: usize) -> Result<(), Refusal> {
        check_row(self, s, t, k, i)
    }
}

// The lowest number that a record of a table draws.
pub(crate) fn check_rows<W: Words>(words: W, s: Sizes, t: Part, k: Table) -> Result<(), Refusal>
    requires { W.there words t k }
    ensures { ByCount s (number_drawn result)
        (λ floats. lowest_below t.count (row_number (W.said words) floats s t k)) }
{
    let count = t.count;
    let mut lowest = Ok(());
    for i in 0..count {
        lowest = lower(lowest, words.check_row(s, t, k, i));
    }
    lowest
}
