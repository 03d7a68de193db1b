// Text put into an output from a place on, as far as there is room. Each function answers the place behind what it put,
// also past the end, so that the same function tells how much room is needed.
#![tactic(auto)]

ghost use Rattle.std.specs.Prelude.{◌≡◌, refl, true, List, [], ◌∷◌, map, ℕ, ◌+◌, ◌≤◌, ◌<◌, min, ltb, length, set};
ghost use Rattle.std.specs.Float.{binary32};
ghost use Rattle.std.specs.Float.Ieee.{to_bits};
ghost use Rattle.std.proofs.Math.Seq.{paste};
ghost use Rattle.std.proofs.lemmas.List.Edits.{sets};
ghost use Rattle.grammar.specs.Digits.{Sort, numbers, floats, hex_digit, last_digits, places, digits_of, sort_for};
ghost use Rattle.grammar.specs.Digits.{items_text};
ghost use Rattle.model.specs.Lists.{pick};
ghost use Rattle.spelling.specs.Pushed.{farthest, Puts, behind};

// The place so many bytes on.
fn advanced(at: usize, count: usize) -> usize
    requires { count ≤ 16 }
    ensures { result ≡ min (at + count) farthest }
{
    if at < 0x8000_0000_0000_0000 - count {
        return at + count;
    }
    0x8000_0000_0000_0000
}

fn store_byte(out: &mut [u8], k: usize, b: u8)
    ensures { out.new ≡ set out.old k b }
{
    if k < out.len() {
        out[k] = b;
    }
}

// Puts one byte.
pub fn put(out: &mut [u8], at: usize, b: u8) -> usize
    ensures { Puts (b ∷ []) out at result }
{
    let next = advanced(at, 1);
    store_byte(out, at, b);
    next
}

// Stores bytes for which there is room.
fn store_bytes(out: &mut [u8], at: usize, bytes: &[u8])
    requires { at + length bytes.now ≤ length out.old }
    ensures { out.new ≡ paste out.old at bytes.now (length bytes.now) }
{
    for i in 0..bytes.len() {
        out[at + i] = bytes[i];
    }
}

// The place behind bytes for which there is no room.
fn behind_bytes(at: usize, bytes: &[u8]) -> usize
    ensures { result ≡ behind at bytes.now }
{
    if bytes.is_empty() {
        return at;
    }
    at.saturating_add(bytes.len()).min(0x8000_0000_0000_0000)
}

// Puts bytes as they are: at once where there is room for all of them, or for none.
pub fn put_bytes(out: &mut [u8], at: usize, bytes: &[u8]) -> usize
    ensures { Puts bytes.now out at result }
{
    if out.len() <= at {
        return behind_bytes(at, bytes);
    }
    let n = bytes.len();
    if n <= out.len() - at {
        store_bytes(out, at, bytes);
        return at + n;
    }
    let mut k = at;
    for b in bytes {
        k = put(out, k, *b);
    }
    k
}

fn letter(d: u32) -> u8
    requires { d < 16 }
    ensures { result ≡ hex_digit d }
{
    if d < 10 {
        (48 + d) as u8
    } else {
        (87 + d) as u8
    }
}

// How many decimal digits n has, by branches: one function for both was tried, and joints miss the bar of speed by it.
fn places(n: u32) -> usize
    ensures { (result ≡ places 9 n) × (result ≤ 10) }
{
    if n < 100_000 {
        return few_places(n);
    }
    if n < 1_000_000 {
        return 6;
    }
    if n < 10_000_000 {
        return 7;
    }
    if n < 100_000_000 {
        return 8;
    }
    if n < 1_000_000_000 {
        return 9;
    }
    10
}

// The same of a number of at most five digits.
fn few_places(n: u32) -> usize
    requires { n < 0x1_86a0 }
    ensures { (result ≡ places 9 n) × (result ≤ 5) }
{
    if n < 10 {
        return 1;
    }
    if n < 100 {
        return 2;
    }
    if n < 1_000 {
        return 3;
    }
    if n < 10_000 {
        return 4;
    }
    5
}

// 1 where n is above a limit, otherwise 0.
fn above(limit: u32, n: u32) -> usize
    ensures { (result ≡ pick (ltb limit n) 1 0) × (result ≤ 1) }
{
    (limit < n) as usize
}

// The same without a branch, for lists that are measured.
fn places_at_once(n: u32) -> usize
    ensures { (result ≡ places 9 n) × (result ≤ 10) }
{
    let low = above(9, n) + above(99, n) + above(999, n) + above(9_999, n) + above(99_999, n);
    let high = above(999_999, n)
        + above(9_999_999, n)
        + above(99_999_999, n)
        + above(999_999_999, n);
    1 + low + high
}

// The last `count` digits of n, from the last one back. Inside, there is room for all of them.
fn digits<const INSIDE: bool>(out: &mut [u8], at: usize, base: u32, count: usize, n: u32)
    requires { (at < 0x8000_0000_0000_0001) × (INSIDE ≡ true → at + count ≤ length out.old)
        × (count ≤ 10) × (0 < base) × (base ≤ 16) }
    ensures { out.new ≡ sets out.old at (last_digits base count n) }
{
    let mut m = n;
    for k in (0..count).rev() {
        if INSIDE {
            out[at + k] = letter(m % base);
        } else {
            store_byte(out, at + k, letter(m % base));
        }
        m /= base;
    }
}

// A space and the last `count` digits of n, as far as there is room.
fn spaced_digits(out: &mut [u8], at: usize, base: u32, count: usize, n: u32)
    requires { (count ≤ 10) × (0 < base) × (base ≤ 16) }
    ensures { out.new ≡ sets out.old at (32 ∷ last_digits base count n) }
{
    if out.len() <= at {
        return;
    }
    out[at] = 32;
    if count < out.len() - at {
        digits::<true>(out, at + 1, base, count, n);
    } else {
        digits::<false>(out, at + 1, base, count, n);
    }
}

// Puts a space and the last `count` digits of n.
fn put_digits(out: &mut [u8], at: usize, base: u32, count: usize, n: u32) -> usize
    requires { (count ≤ 10) × (0 < base) × (base ≤ 16) }
    ensures { Puts (32 ∷ last_digits base count n) out at result }
{
    let next = advanced(at, count + 1);
    spaced_digits(out, at, base, count, n);
    next
}

// Puts a space and an item: a number in decimal, or the eight digits of a float's bits.
pub fn put_item(out: &mut [u8], at: usize, float: bool, n: u32) -> usize
    ensures { Puts (32 ∷ digits_of (sort_for float) n) out at result }
{
    if float {
        return put_digits(out, at, 16, 8, n);
    }
    put_digits(out, at, 10, places(n), n)
}

// What stands in a list: a number, or a float by its bits.
pub trait Item: Copy {
    ghost sort: { Sort };

    ghost word_of: { Self → ℕ };

    // What is written of a list.
    ghost words: { List Self → List ℕ };

    // Whether it is a float.
    fn is_float() -> bool
        ensures { sort_for result ≡ sort };

    fn word(self) -> u32
        ensures { result ≡ word_of self };

    // The place behind a list.
    fn behind(at: usize, items: &[Self]) -> usize
        ensures { result ≡ behind at (items_text sort (words items.now)) };

    ghost none: { words [] ≡ [] };

    ghost more: { (x : Self) (l : List Self) → words (x ∷ l) ≡ word_of x ∷ words l };
}

impl Item for u32 {
    ghost sort = { numbers };

    ghost word_of = { λ n. n };

    ghost words = { λ l. l };

    ghost none = { refl };

    ghost more = { λ x l. refl };

    fn is_float() -> bool {
        false
    }

    fn word(self) -> u32 {
        self
    }

    fn behind(at: usize, items: &[u32]) -> usize {
        let mut k = at;
        for n in items {
            k = advanced(k, places_at_once(*n) + 1);
        }
        k
    }
}

impl Item for f32 {
    ghost sort = { floats };

    ghost word_of = { to_bits binary32 };

    ghost words = { map (to_bits binary32) };

    ghost none = { refl };

    ghost more = { λ x l. refl };

    fn is_float() -> bool {
        true
    }

    fn word(self) -> u32 {
        float::to_bits(self)
    }

    fn behind(at: usize, items: &[f32]) -> usize {
        let count = items.len();
        if count == 0 {
            return at;
        }
        at.saturating_add(count.saturating_mul(9))
            .min(0x8000_0000_0000_0000)
    }
}

// Puts a list, each item behind a space.
pub fn put_items<I: Item>(out: &mut [u8], at: usize, items: &[I]) -> usize
    ensures { Puts (items_text I.sort (I.words items.now)) out at result }
{
    if out.len() <= at {
        return I::behind(at, items);
    }
    let float = I::is_float();
    let mut k = at;
    for x in items {
        k = put_item(out, k, float, x.word());
    }
    k
}
