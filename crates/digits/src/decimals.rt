// Up to eight decimal digits read at once, in a number of 64 bits that has a byte for each, the first one lowest.
ghost use Rattle.std.specs.Prelude.{◌≡◌, ◌-◌, ◌*◌, ◌/◌, ◌%◌, ◌^◌, ◌≤◌, length, IfSome};
ghost use Rattle.digits.specs.Packed.{Packs, Turns, mirrored, Pads, Tens, DecimalRead};

use crate::Decimal;

// Eight bytes as one number.
fn lowest_first(bytes: &[u8]) -> u64
    requires { length bytes.now ≡ 8 }
    ensures { Packs 256 result (mirrored bytes.now) }
{
    let high = crate::eights::two(bytes[7], bytes[6]) * 0x1_0000
        + crate::eights::two(bytes[5], bytes[4]);
    let low = crate::eights::two(bytes[3], bytes[2]) * 0x1_0000
        + crate::eights::two(bytes[1], bytes[0]);
    high * 0x1_0000_0000 + low
}

// A guess at how many digits there are: the first byte, and those up to one that lacks a bit which every digit has.
fn digits_before(w: u64) -> u32
    ensures { result ≤ 8 }
{
    u64::trailing_zeros(0xffff_ffff_ffff_ffff - w & 0x1010_1010_1010_1000) / 8
}

// The first so many of eight bytes, behind digits 0.
fn padded(w: u64, count: u32) -> u64
    requires { (1 ≤ count) × (count ≤ 8) }
    ensures { Pads w count result }
{
    let by = 64 - 8 * count;
    let zeros: u64 = 0x3030_3030_3030_3030;
    (w << by) + (zeros - (zeros << by))
}

// The low half of each byte.
fn low_halves(w: u64) -> u64
    ensures { Turns (λ b. b % 16) 256 16 w result × (result ≤ 0x0f0f_0f0f_0f0f_0f0f) }
{
    w & 0x0f0f_0f0f_0f0f_0f0f
}

// The first of so many digits behind digits 0.
fn first_digit(d: u64, count: u32) -> u64
    requires { (1 ≤ count) × (count ≤ 8) }
    ensures { result ≡ d / 2 ^ (64 - 8 * count) % 256 }
{
    (d >> (64 - 8 * count)) % 256
}

// The number with these digits.
fn number_of(d: u64) -> u32
    requires { d ≤ 0x0f0f_0f0f_0f0f_0f0f }
    ensures { Tens d result }
{
    let pairs = d * 10 + d / 256 & 0x00ff_00ff_00ff_00ff;
    let fours = pairs * 100 + pairs / 0x1_0000 & 0x0000_ffff_0000_ffff;
    (fours % 0x1_0000 * 10000 + fours / 0x1_0000_0000) as u32
}

// The number that the first of eight bytes spell, where they are as it is written, and how many these are.
pub(crate) fn up_to_eight(bytes: &[u8]) -> Option<Decimal>
    requires { length bytes.now ≡ 8 }
    ensures { IfSome result (DecimalRead bytes.now) }
{
    let w = lowest_first(bytes);
    let count = digits_before(w);
    if count == 0 {
        return None;
    }
    let p = padded(w, count);
    let d = low_halves(p);
    if crate::eights::letters_for(d) == p && (first_digit(d, count) != 0 || count == 1) {
        let value = number_of(d);
        return Some(Decimal { value, count });
    }
    None
}
