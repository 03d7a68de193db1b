// The first spot at fault among the records of a table.
ghost use Rattle.std.specs.Prelude.{◌≡◌};
ghost use Rattle.refusals.specs.Drawn.{number_of};
ghost use Rattle.faults.specs.Faults.{table_index, entry_count, row_spots, rows_spots, first_with, spot_told};

use crate::Spot;
use checks::Table;
use refusals::Refusal;
use row_checks::Sizes;
use tracks::Part;

// Which of the header's tables it is.
pub(crate) fn table_index(k: Table) -> u32
    ensures { result ≡ table_index k }
{
    match k {
        Table::Nodes => 0,
        Table::Channels => 2,
        Table::Meshes => 3,
        Table::Primitives => 4,
        Table::Targets => 5,
        Table::InBetweens => 6,
        Table::Skins => 7,
        Table::Skeletons => 8,
    }
}

// The child entries that record i of a table lists.
fn entry_count(words: &[u32], t: Part, k: Table, i: usize) -> usize
    ensures { result ≡ entry_count words.now t k i }
{
    match k {
        Table::Nodes => tables::node_row(words, t, i).children.count,
        _ => 0,
    }
}

// The first spot that draws n in record i, of a node by the child entries up to it.
fn row_spot(
    words: &[u32],
    s: Sizes,
    t: Part,
    k: Table,
    n: Refusal,
    i: usize,
    entries: usize,
) -> Option<Spot>
    ensures { spot_told result ≡ first_with (number_of n) (row_spots words.now s t k entries i) }
{
    let word = word_checks::row_word(words, s, t, k, n, i, entries)?;
    Some(Spot {
        refusal: n,
        table: table_index(k),
        record: i,
        word,
    })
}

// The first spot that draws n among the records of a table.
pub(crate) fn rows_spot(words: &[u32], s: Sizes, t: Part, k: Table, n: Refusal) -> Option<Spot>
    ensures { spot_told result ≡ first_with (number_of n) (rows_spots words.now s t k) }
{
    let count = t.count;
    let mut found = None;
    let mut entries: usize = 0;
    for i in 0..count {
        entries = checks::capped(entries, entry_count(words, t, k, i));
        found = found.or(row_spot(words, s, t, k, n, i, entries));
    }
    found
}
