// Eight hexadecimal digits read at once, in a number of 64 bits that has a byte for each, the first one highest.
ghost use Rattle.std.specs.Prelude.{◌≡◌, ◌+◌, ◌*◌, ◌≤◌, ◌<◌, length, IfSome};
ghost use Rattle.grammar.specs.Digits.{hex_digit};
ghost use Rattle.grammar.specs.Parsed.{digit_of};
ghost use Rattle.digits.specs.Packed.{Packs, Turns, Spelt, EightRead};

pub(crate) fn two(a: u8, b: u8) -> u64
    ensures { (result ≡ a * 256 + b) × (result < 0x1_0000) }
{
    a as u64 * 256 + b as u64
}

// Eight bytes as one number.
fn one_number(bytes: &[u8]) -> u64
    requires { length bytes.now ≡ 8 }
    ensures { Packs 256 result bytes.now }
{
    let high = two(bytes[0], bytes[1]) * 0x1_0000 + two(bytes[2], bytes[3]);
    let low = two(bytes[4], bytes[5]) * 0x1_0000 + two(bytes[6], bytes[7]);
    high * 0x1_0000_0000 + low
}

// What each byte is read as.
fn digits_in(w: u64) -> u64
    ensures { Turns digit_of 256 16 w result × (result ≤ 0x0f0f_0f0f_0f0f_0f0f) }
{
    let letters = w / 64 & 0x0303_0303_0303_0303;
    (w & 0x0f0f_0f0f_0f0f_0f0f) + 9 * letters & 0x0f0f_0f0f_0f0f_0f0f
}

// How each digit is written.
pub(crate) fn letters_for(d: u64) -> u64
    requires { d ≤ 0x0f0f_0f0f_0f0f_0f0f }
    ensures { Turns hex_digit 16 256 d result }
{
    let above = (d + 0x0606_0606_0606_0606) / 16 & 0x0101_0101_0101_0101;
    d + 0x3030_3030_3030_3030 + 39 * above
}

// The number with these digits.
fn number_of(d: u64) -> u32
    requires { d ≤ 0x0f0f_0f0f_0f0f_0f0f }
    ensures { Spelt d result }
{
    let pairs = d + d / 16 & 0x00ff_00ff_00ff_00ff;
    let fours = pairs + pairs / 256 & 0x0000_ffff_0000_ffff;
    (fours % 0x1_0000 + fours / 0x1_0000) as u32
}

// The number that eight bytes spell, where they are as it is written.
pub(crate) fn eight_digits(bytes: &[u8]) -> Option<u32>
    requires { length bytes.now ≡ 8 }
    ensures { IfSome result (EightRead bytes.now) }
{
    let w = one_number(bytes);
    let d = digits_in(w);
    if letters_for(d) == w {
        Some(number_of(d))
    } else {
        None
    }
}
