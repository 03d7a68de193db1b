// Lists of items. Of floats those that stand as they are written are taken first, and then the others, item by item.
ghost use Rattle.std.specs.Prelude.{◌≡◌, ◌||◌, not, ◌-◌, ◌≤◌, eqb, length};
ghost use Rattle.std.specs.Float.{binary32};
ghost use Rattle.std.specs.Float.Ieee.{of_bits};
ghost use Rattle.grammar.specs.Digits.{numbers, floats};
ghost use Rattle.brackets.specs.Read.{ReadsItems, listed_as};
ghost use Rattle.brackets.specs.Runs.{front, behind_run, told_run, ReadsRest};

use crate::cells::Cell;
use crate::{Listed, Met, Told, cells, reading, runs};

// Whether a text that is compared is compared from a place on.
fn is_here(met: Met, at: usize) -> bool
    ensures { result ≡ (not met.ok || eqb met.at at) }
{
    !met.ok || met.at == at
}

// How the text compares behind a run from a place to the next.
fn met_behind(met: Met, at: usize, next: usize) -> Met
    ensures { result ≡ behind_run met at next }
{
    if met.ok {
        if met.at == at {
            return Met { at: next, ok: true };
        }
    }
    met
}

// What is told of a run of floats.
fn told_run(text: &[u8], at: usize, count: usize) -> Told
    requires { length (front floats text.now at count) ≡ count }
    ensures { result ≡ told_run count (front floats text.now at count) }
{
    let unseen = Met { at: 0, ok: false };
    let mut told = Told {
        count,
        first: 0,
        second: 0,
        sorted: true,
    };
    if 0 < count {
        let a = reading::take::<f32>(text, at, unseen);
        told.first = a.value;
        if 1 < count {
            let b = reading::take::<f32>(text, a.next, unseen);
            told.second = b.value;
        }
    }
    told
}

fn answer(t: Told, next: usize, met: Met) -> Listed
    ensures { result ≡ listed_as t next met }
{
    Listed {
        count: t.count,
        first: t.first,
        second: t.second,
        sorted: t.sorted,
        next,
        met,
    }
}

// The items from a place on behind those that are told, to the cells from n on as far as there is room.
fn other_items<C: Cell>(
    text: &[u8],
    at: usize,
    cells: &mut [C],
    n: usize,
    met: Met,
    told: Told,
) -> Listed
    requires { (told.count ≤ at) × (told.count ≤ length text.now) }
    ensures { ReadsRest C.of C.sort text.now at n met told cells result }
{
    let float = C::is_float();
    let mut i = at;
    let mut m = met;
    let mut k = n;
    let mut t = told;
    // A `while`, since it goes on from what was read, by its length.
    while reading::byte_at(text, i) == 32 {
        let x = reading::take::<C>(text, i, m);
        k = cells::store(cells, k, x.value);
        t = reading::one_more(t, float, x.value);
        i = x.next;
        m = x.met;
    }
    answer(t, reading::behind(text, i), m)
}

// The numbers from a place on, to the cells from n on as far as there is room.
pub fn read_numbers(text: &[u8], at: usize, cells: &mut [u32], n: usize, met: Met) -> Listed
    ensures { ReadsItems (λ x. x) numbers text.now at n met cells result }
{
    let told = Told {
        count: 0,
        first: 0,
        second: 0,
        sorted: true,
    };
    other_items(text, at, cells, n, met, told)
}

// The floats from a place on, to the cells from n on as far as there is room.
pub fn read_floats(text: &[u8], at: usize, cells: &mut [f32], n: usize, met: Met) -> Listed
    ensures { ReadsItems (of_bits binary32) floats text.now at n met cells result }
{
    let r = runs::run_floats(text, at, is_here(met, at), cells, n);
    let t = told_run(text, at, r.count);
    let m = met_behind(met, at, r.next);
    other_items(text, r.next, cells, r.cell, m, t)
}
