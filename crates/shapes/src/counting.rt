ghost use Rattle.std.specs.Prelude.{◌≡◌, true, ◌+◌, ◌≤◌, ◌<◌};
ghost use Rattle.row_checks.specs.Bounds.{primitive_within};
ghost use Rattle.shapes.specs.Rest.{slot_count, row_lengths, plus_lengths, AtMost, row_at, lengths_below, Counted};

use crate::Lengths;
use tables::{PrimitiveRow, Slot};
use tracks::Part;

fn slot_count(s: Slot) -> usize
    ensures { result ≡ slot_count s }
{
    if tables::is_marked(s.mark) {
        let part = s.part;
        return part.count;
    }
    0
}

// How many floats a primitive puts out.
pub(crate) fn row_lengths(row: PrimitiveRow) -> Lengths
    requires { primitive_within row ≡ true }
    ensures { result ≡ row_lengths row }
{
    let positions = row.positions;
    let normals = slot_count(row.normals);
    let tangents = slot_count(row.tangents);
    Lengths {
        positions: positions.count * 3,
        normals: normals * 3,
        tangents: tangents * 4,
    }
}

pub(crate) fn none() -> Lengths
    ensures { result ≡ record { positions = 0; normals = 0; tangents = 0 } }
{
    Lengths {
        positions: 0,
        normals: 0,
        tangents: 0,
    }
}

pub(crate) fn plus(a: Lengths, b: Lengths) -> Lengths
    requires { AtMost a 4294967296 4294967296 4294967296 × AtMost b 4294967296 4294967296 4294967296 }
    ensures { result ≡ plus_lengths a b }
{
    Lengths {
        positions: a.positions + b.positions,
        normals: a.normals + b.normals,
        tangents: a.tangents + b.tangents,
    }
}

// Primitive k of a mesh.
pub(crate) fn primitive_at(words: &[u32], table: Part, part: Part, k: usize) -> PrimitiveRow
    requires { (part.at + part.count ≤ table.count) × (k < part.count) }
    ensures { result ≡ row_at words.now table part k }
{
    tables::primitive_row(words, table, part.at + k)
}

// How many floats the primitives of a mesh, a part of their table, put out: a stage, for tables that draw no number.
pub fn mesh_lengths(words: &[u32], table: Part, part: Part) -> Lengths
    requires { Counted words.now table part }
    ensures { result ≡ lengths_below words.now table part part.count }
{
    let mut total = none();
    for k in 0..part.count {
        let n = row_lengths(primitive_at(words, table, part, k));
        total = plus(total, n);
    }
    total
}
