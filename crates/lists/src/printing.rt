// Floats and verdicts in print.
ghost use Rattle.std.specs.Prelude.{◌<◌};

use std::{fmt, io};

// The last line of a program that compares: whether all was read, and all of it agrees.
pub fn print_verdict(out: &impl Print, good: bool) -> io::Result<()> {
    let verdict = if good { "OK" } else { "FAILED" };
    println!(out; "{verdict}")
}

// The significand of an f32 as a whole number, and the power of two, plus 150, that it is taken times.
fn significand(bits: u32) -> u64
    ensures { result < 16777216 }
{
    if bits < 0x80_0000 {
        return u64::from(bits);
    }
    u64::from(bits % 0x80_0000 + 0x80_0000)
}

fn exponent(bits: u32) -> u32 {
    (bits / 0x80_0000).max(1)
}

// Billionths of an f32 from 0 to below 2^24, by its bit pattern, cut off. Of one that is larger there are none.
fn billionths(bits: u32) -> u64 {
    match exponent(bits) {
        e @ 87..=150 => (significand(bits) * 1_000_000_000) >> (150 - e),
        _ => 0,
    }
}

// A float in print: the bit pattern, and behind it the decimal value to nine places.
#[derive(Clone, Copy)]
pub struct Decimal(pub f32);

impl fmt::Display for Decimal {
    fn fmt<W: fmt::Write>(&self, f: &mut fmt::Formatter<W>) -> fmt::Result {
        let bits = float::to_bits(self.0);
        write!(f, "{bits:08x} ")?;
        if float::is_nan(self.0) {
            write!(f, "NaN")
        } else if bits == 0x7f80_0000 {
            write!(f, "infinity")
        } else if 0x4b80_0000 <= bits && bits < 0x8000_0000 {
            write!(f, "2^24 or more")
        } else {
            let sign = if bits < 0x8000_0000 { "" } else { "-" };
            let n = billionths(bits % 0x8000_0000);
            let whole = n / 1_000_000_000;
            let places = n % 1_000_000_000;
            write!(f, "{sign}{whole}.{places:09}")
        }
    }
}
