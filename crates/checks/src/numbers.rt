ghost use Rattle.std.specs.Prelude.{◌≡◌, ◌+◌, min, length};
ghost use Rattle.refusals.specs.Drawn.{number_drawn};
ghost use Rattle.checks.specs.Drawn.{ByCount, record_words, count_within, table_number, whole_number, entries_number};
ghost use Rattle.checks.specs.Drawn.{children_number, roots_number, listed_number, sizes_for, tables_number};
ghost use Rattle.checks.specs.Drawn.{sizes_of, entry_cap, capped_entries};
ghost use Rattle.checks.specs.declared.Table.TheVariants as table;
ghost use Rattle.tables.specs.Decoded as decoded;
ghost use Rattle.tables.specs.Decoded.{lent_of};

use crate::Table;
use crate::records::{Words, check, check_rows, lower, table_of};
use refusals::{CHANNEL_LIMIT, CHILD_ENTRY_LIMIT, NODE_LIMIT, ROOT_LIMIT, Refusal};
use row_checks::Sizes;
use tables::{Header, Lent};
use tracks::Part;

// The words of a record.
pub fn record_words(k: Table) -> usize
    ensures { result ≡ record_words k }
{
    match k {
        Table::Nodes => 16,
        Table::Channels => 8,
        Table::Meshes => 4,
        Table::Primitives => 16,
        Table::Targets => 12,
        Table::InBetweens => 8,
        Table::Skins => 4,
        Table::Skeletons => 4,
    }
}

fn count_within(k: Table, count: usize) -> bool
    ensures { result ≡ count_within k count }
{
    match k {
        Table::Nodes => count <= NODE_LIMIT,
        Table::Channels => count <= CHANNEL_LIMIT,
        _ => true,
    }
}

// What a table draws by its place and its count alone.
pub fn check_table(len: usize, t: Part, k: Table) -> Result<(), Refusal>
    ensures { number_drawn result ≡ table_number len t k }
{
    check(
        tracks::fits(t, record_words(k), len),
        count_within(k, t.count),
    )
}

// What a table with its records draws. Records are looked at only where the table has them.
fn check_whole<W: Words>(words: W, s: Sizes, h: Header, k: Table) -> Result<(), Refusal>
    ensures { ByCount s (number_drawn result) (λ floats. whole_number (W.said words) floats s h k) }
{
    let t = table_of(h, k);
    let drawn = check_table(words.count(), t, k);
    if drawn == Err(Refusal::OutOfTable) {
        return drawn;
    }
    lower(drawn, check_rows(words, s, t, k))
}

// One above the limit of child entries, which tells that it is passed.
const ENTRY_CAP: usize = CHILD_ENTRY_LIMIT + 1;

// A sum with a count more, as far as the cap.
pub fn capped(sum: usize, count: usize) -> usize
    ensures { result ≡ min (sum + count) entry_cap }
{
    sum.saturating_add(count).min(ENTRY_CAP)
}

// The child entries of all nodes, an entry counted as often as it is listed, as far as one above their limit: in words
// or in bytes.
pub fn listed_entries<W: Words>(words: W, nodes: Part) -> usize
    requires { W.there words nodes table.Nodes }
    ensures { result ≡ capped_entries (W.said words) nodes }
{
    let count = nodes.count;
    let mut sum: usize = 0;
    for i in 0..count {
        sum = capped(sum, words.child_count(nodes, i));
    }
    sum
}

// The same of words, whatever stands in them.
pub fn child_entries(words: &[u32], nodes: Part) -> usize
    ensures { result ≡ capped_entries words.now nodes }
{
    listed_entries(words, nodes)
}

// What so many child entries draw.
pub fn check_entries(entries: usize) -> Result<(), Refusal>
    ensures { number_drawn result ≡ entries_number entries }
{
    check(true, entries <= CHILD_ENTRY_LIMIT)
}

// What the child entries of all nodes draw.
fn check_children<W: Words>(words: W, nodes: Part) -> Result<(), Refusal>
    requires { W.there words nodes table.Nodes }
    ensures { number_drawn result ≡ children_number (W.said words) nodes }
{
    check_entries(listed_entries(words, nodes))
}

// What the roots draw by their place and their count.
pub fn check_roots(len: usize, roots: Part) -> Result<(), Refusal>
    ensures { number_drawn result ≡ roots_number len roots }
{
    check(tracks::fits(roots, 1, len), roots.count <= ROOT_LIMIT)
}

// What all tables but the nodes draw.
fn check_listed<W: Words>(words: W, s: Sizes, h: Header) -> Result<(), Refusal>
    ensures { ByCount s (number_drawn result) (λ floats. listed_number (W.said words) floats s h) }
{
    let skeletons = check_whole(words, s, h, Table::Skeletons);
    let skins = lower(check_whole(words, s, h, Table::Skins), skeletons);
    let between = lower(check_whole(words, s, h, Table::InBetweens), skins);
    let targets = lower(check_whole(words, s, h, Table::Targets), between);
    let shapes = lower(check_whole(words, s, h, Table::Primitives), targets);
    let meshes = lower(check_whole(words, s, h, Table::Meshes), shapes);
    lower(check_whole(words, s, h, Table::Channels), meshes)
}

// The lengths of all slices, and of the tables whose records are listed.
pub fn sizes_for(
    words: usize,
    floats: usize,
    node_weights: usize,
    mesh_weights: usize,
    h: Header,
) -> Sizes
    ensures { result ≡ sizes_for words floats node_weights mesh_weights h }
{
    let meshes = h.meshes;
    Sizes {
        words,
        floats,
        node_weights,
        mesh_weights,
        primitives: meshes.primitives.count,
        targets: meshes.targets.count,
        in_betweens: meshes.in_betweens.count,
    }
}

// The same of a lent scene.
pub fn sizes_of(lent: Lent) -> Sizes
    ensures { result ≡ sizes_of (lent_of lent.entry) }
{
    sizes_for(
        lent.words.len(),
        lent.floats.len(),
        lent.node_weights.len(),
        lent.mesh_weights.len(),
        lent.header,
    )
}

// The number of the tables: the lowest that applies to anything that is lent, in words or in bytes.
pub fn check_all<W: Words>(words: W, s: Sizes, h: Header) -> Result<(), Refusal>
    ensures { (l : decoded.Lent) → l.words ≡ W.said words → l.header ≡ h → s ≡ sizes_of l
        → number_drawn result ≡ tables_number l }
{
    let graph = h.graph;
    let nodes = check_whole(words, s, h, Table::Nodes);
    if nodes == Err(Refusal::OutOfTable) {
        return nodes;
    }
    let children = check_children(words, graph.nodes);
    let roots = check_roots(words.count(), graph.roots);
    let listed = check_listed(words, s, h);
    lower(nodes, lower(children, lower(roots, listed)))
}

// The same of a lent scene.
pub fn check_tables(lent: Lent) -> Result<(), Refusal>
    ensures { number_drawn result ≡ tables_number (lent_of lent.entry) }
{
    check_all(lent.words, sizes_of(lent), lent.header)
}
