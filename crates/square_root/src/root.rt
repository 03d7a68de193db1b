ghost use Rattle.std.specs.Prelude.{◌≡◌, ◌*◌, ◌^◌, ◌<◌, ◌≤◌};
ghost use Rattle.std.specs.Float.{binary32};
ghost use Rattle.float.specs.Sqrt.{isqrt, sqrt_of};
ghost use Rattle.float.specs.Patterns.{root_pattern, Rooted, number_of};

// The last 25 digits of z's significand, and 0 for a NaN.
fn last_digits(z: f64) -> u64
    ensures { result < 2 ^ 25 }
{
    if z != z {
        return 0;
    }
    f64::to_bits(z) & 0x1ff_ffff
}

// A guess at the root of n. Nothing is promised of it but that it is small: whoever calls it tests it. It is meant for
// an n from 2^46 up: a quadratic that is near the root there, then two steps of Heron's rule, rounded down by adding a
// number whose last place is 1.
fn guess(n: u64) -> u64
    requires { n < 2 ^ 48 }
    ensures { result < 2 ^ 25 }
{
    let x: f64 = n as f64;
    let y0 = 4349951.5 + x * (6.2705e-8 - x * 6.698e-23);
    let y1 = 0.5 * (y0 + x / y0);
    let y2 = 0.5 * (y1 + x / y1);
    last_digits(y2 + 4503599627370495.5)
}

// The largest q with q * q <= n, a digit at a time.
fn slow_root(n: u64) -> u64
    requires { n < 2 ^ 48 }
    ensures { result ≡ isqrt n }
{
    let mut q: u64 = 0;
    let mut d: u64 = 0x100_0000;
    while 1 < d {
        d = d / 2;
        let t = q + d;
        if t * t <= n {
            q = t;
        }
    }
    q
}

// The same: the guess, or the number before it, where that is the root, and digit by digit otherwise.
fn root48(n: u64) -> u64
    requires { n < 2 ^ 48 }
    ensures { result ≡ isqrt n }
{
    let g = guess(n);
    let s = g * g;
    if s <= n {
        if n - s <= 2 * g {
            return g;
        }
        return slow_root(n);
    }
    if s - n < 2 * g {
        return g - 1;
    }
    slow_root(n)
}

// The bits of the root of m * 2 ^ (f - 275), for an m of 24 digits.
fn finish(m: u64, f: u64) -> u64
    requires { (2 ^ 23 ≤ m) × (m < 2 ^ 24) × (f < 400) }
    ensures { result ≡ root_pattern m f }
{
    let n = m << (23 + (f & 1));
    let q = root48(n);
    let p = (f >> 1) * 0x80_0000 + q;
    if q * q + q < n {
        return p + 1;
    }
    p
}

// The root's bits from those of an f32 above 0 and below the infinity.
fn sqrt_bits(a: u64) -> u64
    requires { (0 < a) × (a < 255 * 2 ^ 23) }
    ensures { Rooted a result }
{
    let x = a >> 23;
    let t = a & 0x7f_ffff;
    if x == 0 {
        let z = (u32::leading_zeros(t as u32) as u64) - 8;
        return finish(t << z, 126 - z);
    }
    finish(t + 0x80_0000, x + 125)
}

// The root of any x, a case at a time.
fn any_root(x: f32) -> f32
    ensures { result ≡ sqrt_of binary32 x }
{
    if x != x {
        return x;
    }
    let b: u32 = f32::to_bits(x);
    if b < 0x7f80_0000 {
        if b == 0 {
            return x;
        }
        let n = sqrt_bits(b as u64);
        return f32::from_bits(n as u32);
    }
    // the infinity and -0, then what is below zero
    if b <= 0x8000_0000 {
        return x;
    }
    0.0 / 0.0
}

// A guess at the root of the significand of a, from the table: a quadratic in its last 16 digits. Nothing is promised
// of it but that it is small.
fn near(a: u64) -> u64
    requires { a < 2 ^ 32 }
    ensures { result < 2 ^ 25 }
{
    let i = ((a >> 16) & 0xff) + 256;
    let d = a & 0xffff;
    let p = root_table::piece(i);
    let b = p.0;
    let s = p.1;
    let c = p.2;
    (b + d * s - (d * d) * c) >> 38
}

// The significand of a normal f32, moved up so that its root's whole part has 24 digits.
pub(crate) fn number(a: u32) -> u64
    ensures { (result ≡ number_of a) × (result ≤ 2 ^ 48) }
{
    let m = (a & 0x7f_ffff) + 0x80_0000;
    let f = 0x100_0000 - ((a >> 23) & 1) * 0x80_0000;
    (m as u64) * (f as u64)
}

// The f32 nearest to the square root of x, ties to even: Rust's `x.sqrt()`. For a normal x above 0 the guess is it,
// where it is within a half of the root.
pub fn sqrt(x: f32) -> f32
    ensures { result ≡ sqrt_of binary32 x }
{
    if x != x {
        return x;
    }
    let b: u32 = f32::to_bits(x);
    if b >= 0x80_0000 {
        if b < 0x7f80_0000 {
            let a = b as u64;
            let q = near(a);
            let n = number(b);
            let s = q * q;
            if s < n + q {
                if n <= s + q {
                    return f32::from_bits((((a + 0x3e80_0000) >> 24) * 0x80_0000 + q) as u32);
                }
            }
        }
    }
    any_root(x)
}
