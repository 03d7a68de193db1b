// The first spot at fault of a table, and of a lent scene.
ghost use Rattle.std.specs.Prelude.{◌≡◌};
ghost use Rattle.refusals.specs.Drawn.{number_of};
ghost use Rattle.tables.specs.Decoded.{lent_of};
ghost use Rattle.faults.specs.Faults.{table_spots, roots_spots, mesh_spots, skin_spots, spots_for, fault_of};
ghost use Rattle.faults.specs.Faults.{first_with, spot_told};

use crate::rows::{rows_spot, table_index};
use crate::{Fault, Spot};
use checks::Table;
use refusals::Refusal;
use row_checks::Sizes;
use tables::{Header, Lent};
use tracks::Part;

// The first spot that draws n in a table: the table itself, or else a record. Where a table leaves `words` no record
// is looked at, since then the number is 1 and the table draws it.
fn table_spot(words: &[u32], s: Sizes, h: Header, n: Refusal, k: Table) -> Option<Spot>
    ensures { spot_told result ≡ first_with (number_of n) (table_spots words.now s h k) }
{
    let t = checks::table_of(h, k);
    if checks::check_table(words.len(), t, k) == Err(n) {
        return Some(Spot {
            refusal: n,
            table: table_index(k),
            record: 0,
            word: 16,
        });
    }
    rows_spot(words, s, t, k, n)
}

// The roots are ids, of which nothing is asked.
fn roots_spot(len: usize, roots: Part, n: Refusal) -> Option<Spot>
    ensures { spot_told result ≡ first_with (number_of n) (roots_spots len roots) }
{
    if checks::check_roots(len, roots) == Err(n) {
        return Some(Spot {
            refusal: n,
            table: 1,
            record: 0,
            word: 16,
        });
    }
    None
}

fn mesh_spot(words: &[u32], s: Sizes, h: Header, n: Refusal) -> Option<Spot>
    ensures { spot_told result ≡ first_with (number_of n) (mesh_spots words.now s h) }
{
    table_spot(words, s, h, n, Table::Meshes)
        .or(table_spot(words, s, h, n, Table::Primitives))
        .or(table_spot(words, s, h, n, Table::Targets))
        .or(table_spot(words, s, h, n, Table::InBetweens))
}

fn skin_spot(words: &[u32], s: Sizes, h: Header, n: Refusal) -> Option<Spot>
    ensures { spot_told result ≡ first_with (number_of n) (skin_spots words.now s h) }
{
    table_spot(words, s, h, n, Table::Skins).or(table_spot(words, s, h, n, Table::Skeletons))
}

// The first spot that draws n in all tables.
fn first_spot(words: &[u32], s: Sizes, h: Header, n: Refusal) -> Option<Spot>
    ensures { spot_told result ≡ first_with (number_of n) (spots_for words.now s h) }
{
    let graph = h.graph;
    table_spot(words, s, h, n, Table::Nodes)
        .or(roots_spot(words.len(), graph.roots, n))
        .or(table_spot(words, s, h, n, Table::Channels))
        .or(mesh_spot(words, s, h, n))
        .or(skin_spot(words, s, h, n))
}

// The number that the tables of a lent scene draw, and the first spot that draws it; zeros where there is none.
pub fn scene_fault(lent: Lent) -> Fault
    ensures { result ≡ fault_of (lent_of lent.entry) }
{
    match checks::check_tables(lent) {
        Ok(()) => Fault::from(None),
        Err(n) => Fault::from(first_spot(lent.words, checks::sizes_of(lent), lent.header, n)),
    }
}
