ghost use Rattle.std.specs.Prelude.{IfSome};
ghost use Rattle.grammar.specs.Digits.{numbers, floats};
ghost use Rattle.digits.specs.Standing.{StandsAt};

use crate::Standing;

// The float at a place, with a byte behind it that ends a word.
pub fn float_at(text: &[u8], from: usize) -> Option<Standing>
    ensures { IfSome result (StandsAt floats text.now from) }
{
    if from < text.len().saturating_sub(8) {
        let next = from + 8;
        if text[next] < 48 {
            let value = crate::eights::eight_digits(&text[from..next])?;
            return Some(Standing { value, next });
        }
    }
    None
}

// The same for a number of up to eight digits.
fn decimal_at(text: &[u8], from: usize) -> Option<Standing>
    ensures { IfSome result (StandsAt numbers text.now from) }
{
    if from < text.len().saturating_sub(8) {
        let d = crate::decimals::up_to_eight(&text[from..from + 8])?;
        let next = from + d.count as usize;
        if text[next] < 48 {
            let value = d.value;
            return Some(Standing { value, next });
        }
    }
    None
}

// The same for any number.
pub fn number_at(text: &[u8], from: usize) -> Option<Standing>
    ensures { IfSome result (StandsAt numbers text.now from) }
{
    decimal_at(text, from).or_else(|| crate::longs::long_at(text, from))
}
