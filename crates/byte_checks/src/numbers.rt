// What the tables draw: 1, 2 or 0, as `checks` says it of a scene in words.
ghost use Rattle.std.specs.Prelude.{◌≡◌};
ghost use Rattle.refusals.specs.Drawn.{number_drawn};
ghost use Rattle.checks.specs.Drawn.{tables_number};
ghost use Rattle.lent_bytes.specs.Bytes.{lent_of_bytes};

use crate::records::Bytes;
use lent_bytes::LentBytes;
use refusals::Refusal;

// The number of the tables: the lowest that applies to anything that is lent.
pub fn check_tables(lent: LentBytes) -> Result<(), Refusal>
    ensures { number_drawn result ≡ tables_number (lent_of_bytes lent.entry) }
{
    let s = checks::sizes_for(
        lent.words.len() / 4,
        lent.floats.len() / 4,
        lent.node_weights.len() / 4,
        lent.mesh_weights.len() / 4,
        lent.header,
    );
    checks::check_all(Bytes { words: lent.words }, s, lent.header)
}
