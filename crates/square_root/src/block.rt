// The square roots of sixteen numbers at once. Each loop over the sixteen runs in vector lanes.
ghost use Rattle.std.specs.Prelude.{◌≡◌, ℕ, ◌^◌, ◌<◌, ◌≤◌, true, not, T, map, ◌==◌, is_nan, slice_index, slice_index_or, to_bits};
ghost use Rattle.std.specs.Float.{binary32, nan};
ghost use Rattle.float.specs.Sqrt.{sqrt_of};
ghost use Rattle.float.specs.Patterns.{Near};
ghost use Rattle.square_root.specs.Normal.{is_normal, all_normal, one_unless};

use crate::root::{number, sqrt};

// A number for each of sixteen rows.
#[derive(Clone, Copy)]
pub struct Block {
    pub of: [f32; 16],
}

// The roots of a block, and whether all its numbers are normal.
#[derive(Clone, Copy)]
pub struct Roots {
    pub normal: bool,
    pub of: [f32; 16],
}

// x where it is below 10^37, and 10^37 otherwise: never a NaN.
fn below(x: f32) -> f32
    ensures { T (not (is_nan result)) }
{
    if x < 1.0e37 {
        return x;
    }
    1.0e37
}

// Near 1 divided by the root of y.
fn inverse(y: f32) -> f32
    requires { is_normal y ≡ true }
{
    let b: u32 = f32::to_bits(y);
    f32::from_bits(0x5f5e_0000 - b / 2)
}

// The first 12 digits of s's significand.
fn high(s: f32) -> f32
    requires { T (not (is_nan s)) }
{
    let b: u32 = f32::to_bits(s);
    f32::from_bits(b & 0x7fff_f000)
}

// y less the square of s. h and l have 12 digits each, so the three products are exact: next to a power of 4, where the
// root is close to the middle of two floats, less would not do.
fn rest(y: f32, s: f32) -> f32
    requires { T (not (is_nan s)) }
{
    let h = high(s);
    let l = s - h;
    ((y - h * h) - (h + h) * l) - l * l
}

// The significand of a guess at the root of y: a polynomial, then a step of Newton's. Nothing is promised of it but
// that it is small.
fn guess(y: f32) -> u32
    requires { is_normal y ≡ true }
    ensures { result < 2 ^ 24 }
{
    let v = inverse(y);
    let g = y * v;
    let h = g * v;
    let t = (1.7523283 - h * 1.123993) + (h * h) * (0.43232886 - 0.06595016 * h);
    let s = below(g * t);
    let z = below(s + rest(y, s) * ((0.5 * v) * t));
    let b: u32 = f32::to_bits(z);
    (b & 0x7f_ffff) + 0x80_0000
}

fn guesses(a: [f32; 16]) -> [u32; 16]
    requires { all_normal a ≡ true }
    ensures { (i : ℕ) → i < 16 → slice_index result i < 2 ^ 24 }
{
    let mut q = [0u32; 16];
    for i in 0..16 {
        q[i] = guess(a[i]);
    }
    q
}

// From 2^63 up only where q is within a half of the root of x's significand. e is p * p - n, wrapped: with p less it is
// below 0 where p * p < n + p, and with p more it is not where n <= p * p + p.
fn near_root(x: f32, q: u32) -> u64
    requires { (is_normal x ≡ true) × (q < 2 ^ 24) }
    ensures { 2 ^ 63 ≤ result → Near (to_bits binary32 x) q }
{
    let a: u32 = f32::to_bits(x);
    let n = number(a);
    let p = q as u64;
    let e = std::num::wrapping_sub_u64(p * p, n);
    std::num::wrapping_sub_u64(e, p) & (u64::MAX - std::num::wrapping_add_u64(e, p))
}

// From 2^63 up only where that holds of every guess.
fn near_roots(a: [f32; 16], q: [u32; 16]) -> u64
    requires { (all_normal a ≡ true) × ((i : ℕ) → i < 16 → slice_index q i < 2 ^ 24) }
    ensures { 2 ^ 63 ≤ result → (i : ℕ) → i < 16 → Near (to_bits binary32 (slice_index_or a i nan)) (slice_index q i) }
{
    let mut d: u64 = u64::MAX;
    for i in 0..16 {
        d = d & near_root(a[i], q[i]);
    }
    d
}

// 0 for a normal x, and 1 for any other.
fn outside(x: f32) -> u32
    ensures { result ≡ one_unless (is_normal x) }
{
    if 1.17549435e-38 <= x {
        if x < 1.0e37 {
            return 0;
        }
    }
    1
}

// How many of the numbers are not normal.
fn count_outside(a: [f32; 16]) -> u32
    ensures { (result == 0) ≡ all_normal a }
{
    let mut n: u32 = 0;
    for i in 0..16 {
        n += outside(a[i]);
    }
    n
}

// The root of x, whose significand is q.
fn root_by(x: f32, q: u32) -> f32
    requires { (is_normal x ≡ true) × Near (to_bits binary32 x) q }
    ensures { result ≡ sqrt_of binary32 x }
{
    let a: u32 = f32::to_bits(x);
    f32::from_bits(((a + 0x3e80_0000) >> 24) * 0x80_0000 + q)
}

fn roots_by(a: [f32; 16], q: [u32; 16]) -> [f32; 16]
    requires { (all_normal a ≡ true) × ((i : ℕ) → i < 16 → Near (to_bits binary32 (slice_index_or a i nan)) (slice_index q i)) }
    ensures { result ≡ map (sqrt_of binary32) a }
{
    let mut out = [0.0f32; 16];
    for i in 0..16 {
        out[i] = root_by(a[i], q[i]);
    }
    out
}

fn one_by_one(a: [f32; 16]) -> [f32; 16]
    ensures { result ≡ map (sqrt_of binary32) a }
{
    let mut out = [0.0f32; 16];
    for i in 0..16 {
        out[i] = sqrt(a[i]);
    }
    out
}

// The root of each number of b, to nearest even, and whether all of them are normal. Where they are and every guess is
// within a half of its root, the guesses are the roots.
pub fn sqrt_block(b: Block) -> Roots
    ensures { (result.of ≡ map (sqrt_of binary32) b.of) × (result.normal ≡ all_normal b.of) }
{
    let a = b.of;
    let n = count_outside(a);
    if n == 0 {
        let q = guesses(a);
        let d = near_roots(a, q);
        if d >= 0x8000_0000_0000_0000 {
            let s = roots_by(a, q);
            return Roots {
                normal: true,
                of: s,
            };
        }
    }
    let s = one_by_one(a);
    Roots {
        normal: n == 0,
        of: s,
    }
}
