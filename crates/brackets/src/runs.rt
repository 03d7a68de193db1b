// Floats one after the other that stand as they are written. A run ends before the first that does not, and before a
// NaN.
ghost use Rattle.std.specs.Prelude.{◌≡◌, false, IfSome};
ghost use Rattle.std.specs.Float.{binary32};
ghost use Rattle.std.specs.Float.Ieee.{of_bits};
ghost use Rattle.grammar.specs.Digits.{floats};
ghost use Rattle.brackets.specs.Runs.{PlainAt, RunStands, Runs};

use crate::{Run, cells, reading};
use digits::Standing;

// The float at a place that is no NaN, with a byte behind it that ends a word.
fn plain_at(text: &[u8], from: usize) -> Option<Standing>
    ensures { IfSome result (PlainAt text.now from) }
{
    let d = digits::float_at(text, from)?;
    if d.value % 0x8000_0000 <= 0x7f80_0000 {
        Some(d)
    } else {
        None
    }
}

// The run from a place on, to the cells from n on as far as there is room.
fn store_floats(text: &[u8], at: usize, cells: &mut [f32], n: usize) -> Run
    ensures { Runs (of_bits binary32) floats text.now at n cells result }
{
    let mut next = at;
    let mut cell = n;
    let mut count = 0;
    // A `while`, since it goes on from what was read, by its length.
    while reading::byte_at(text, next) == 32 {
        let Some(d) = plain_at(text, next + 1) else {
            break;
        };
        cell = cells::store(cells, cell, d.value);
        next = d.next;
        count += 1;
    }
    Run { count, next, cell }
}

// The run from a place on, or none, to the cells from n on as far as there is room.
pub(crate) fn run_floats(text: &[u8], at: usize, any: bool, cells: &mut [f32], n: usize) -> Run
    ensures { Runs (of_bits binary32) floats text.now at n cells result × (any ≡ false → result.count ≡ 0) }
{
    if !any {
        return Run {
            count: 0,
            next: at,
            cell: n,
        };
    }
    store_floats(text, at, cells, n)
}
