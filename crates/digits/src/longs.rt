// A number in decimal, digit by digit.
ghost use Rattle.std.specs.Prelude.{IfSome};
ghost use Rattle.grammar.specs.Digits.{numbers};
ghost use Rattle.digits.specs.Standing.{StandsAt, Begins};

use crate::Standing;

// The number that begins with a digit at one place and goes on at the next, with a byte behind it that ends a word.
fn long_from(text: &[u8], from: usize, at: usize, first: u32) -> Option<Standing>
    requires { Begins text.now from at first }
    ensures { IfSome result (StandsAt numbers text.now from) }
{
    let mut value = first;
    for next in at..text.len() {
        let b = text[next];
        if b < 48 {
            return Some(Standing { value, next });
        }
        if 57 < b {
            return None;
        }
        value = value.checked_mul(10)?.checked_add((b - 48) as u32)?;
    }
    None
}

// The same for a number that is told by its place alone, other than 0.
pub(crate) fn long_at(text: &[u8], from: usize) -> Option<Standing>
    ensures { IfSome result (StandsAt numbers text.now from) }
{
    if text.len() <= from {
        return None;
    }
    match text[from] {
        b @ b'1'..=b'9' => long_from(text, from, from + 1, (b - b'0') as u32),
        _ => None,
    }
}
