ghost use Rattle.std.specs.Prelude.{◌≡◌, ◌&&◌, [], ◌∷◌, ◌≤◌, ◌<◌, get_or, drop};
ghost use Rattle.grammar.specs.Digits.{base_of, sort_for};
ghost use Rattle.grammar.specs.Shape.{is_float, sorted};
ghost use Rattle.grammar.specs.Parsed.{digit_of, word_in, name_in};
ghost use Rattle.brackets.specs.Read.{Passed, WordRead, ItemRead, one_more};

use crate::cells::Cell;
use crate::{Item, Met, Spelling, Told};

fn digit(b: u8) -> u64
    ensures { (result ≡ digit_of b) × (result < 16) }
{
    ((b % 16 + 9 * (b / 64)) % 16) as u64
}

// Byte i, 0 past the end.
pub(crate) fn byte_at(text: &[u8], i: usize) -> u8
    ensures { result ≡ get_or text.now i 0 }
{
    if i < text.len() { text[i] } else { 0 }
}

// The place behind byte i.
pub fn behind(text: &[u8], i: usize) -> usize
    ensures { Passed text.now i result (drop 1 (drop i text.now)) }
{
    if i < text.len() { i + 1 } else { i }
}

fn base_of(float: bool) -> u64
    ensures { (result ≡ base_of (sort_for float)) × (result ≤ 16) }
{
    if float { 16 } else { 10 }
}

// The word from a place on, in decimal or hexadecimal digits.
fn word(text: &[u8], at: usize, float: bool) -> Spelling
    ensures { WordRead text.now at
        (word_in (base_of (sort_for float)) 0 (drop at text.now)) result }
{
    let base = base_of(float);
    let mut value: u64 = 0;
    let mut next = at;
    // A `while`, since the place at which it ends is answered, also where it begins behind the text.
    while next < text.len() {
        let b = text[next];
        if b < 48 {
            return Spelling { value, next };
        }
        value = value % 0x1_0000_0000 * base + digit(b);
        next += 1;
    }
    Spelling { value, next }
}

// The name behind a bracket at a place, told by its code, 0 where there is none.
pub fn name(text: &[u8], at: usize) -> Spelling
    ensures { WordRead text.now at (name_in (drop at text.now)) result }
{
    if byte_at(text, at) == 40 {
        return word(text, behind(text, at), true);
    }
    Spelling { value: 0, next: at }
}

// Whether these are the bits of a float, of a NaN only 7fc00000.
fn is_float(w: u32) -> bool
    ensures { result ≡ is_float w }
{
    if w % 0x8000_0000 <= 0x7f80_0000 {
        return true;
    }
    w == 0x7fc0_0000
}

// An item behind a space.
fn take_item(text: &[u8], at: usize, float: bool, met: Met) -> Item
    ensures { ItemRead (sort_for float) text.now at met result }
{
    let w = word(text, behind(text, at), float);
    let value = (w.value % 0x1_0000_0000) as u32;
    Item {
        value,
        next: w.next,
        met: crate::meet_item(text, met, float, value),
    }
}

// An item behind a space: at once where it stands as it is written.
pub(crate) fn take<C: Cell>(text: &[u8], at: usize, met: Met) -> Item
    requires { get_or text.now at 0 ≡ 32 }
    ensures { ItemRead C.sort text.now at met result }
{
    let float = C::is_float();
    if let Some(d) = C::item_at(text, at + 1) {
        return Item {
            value: d.value,
            next: d.next,
            met: crate::meeting::meet_there(text, met, at, d.next, float, d.value),
        };
    }
    take_item(text, at, float, met)
}

// Whether all are of their sort, with one item more.
fn sorted_on(so_far: bool, float: bool, x: u32) -> bool
    ensures { result ≡ (so_far && sorted (sort_for float) (x ∷ [])) }
{
    if !float {
        return so_far;
    }
    if is_float(x) {
        return so_far;
    }
    false
}

// One item more. By branches, as above: as one expression, floats and joints took a fifth longer to read.
pub(crate) fn one_more(t: Told, float: bool, x: u32) -> Told
    requires { t.count < 0xffff_ffff_ffff_ffff }
    ensures { result ≡ one_more (sort_for float) t x }
{
    let sorted = sorted_on(t.sorted, float, x);
    if 1 < t.count {
        return Told {
            count: t.count + 1,
            first: t.first,
            second: t.second,
            sorted,
        };
    }
    if t.count == 1 {
        return Told {
            count: 2,
            first: t.first,
            second: x,
            sorted,
        };
    }
    Told {
        count: 1,
        first: x,
        second: t.second,
        sorted,
    }
}
