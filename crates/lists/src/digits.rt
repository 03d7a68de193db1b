// Numbers in hexadecimal digits.
ghost use Rattle.std.specs.Prelude.{◌≡◌, ◌+◌, ◌%◌, ◌<◌, get_or};
ghost use Rattle.lists.specs.Digits.{digit_of, is_digit, is_behind, spelled, are_digits, is_field};
ghost use Rattle.lists.specs.Digits.{number_of, word_of, field_in};

fn digit(b: u8) -> u64
    ensures value { result ≡ digit_of b }
    ensures bound { result < 16 }
{
    u64::from((b % 16 + 9 * (b / 64)) % 16)
}

fn is_digit(b: u8) -> bool
    ensures { result ≡ is_digit b }
{
    matches!(b, b'0'..=b'9' | b'a'..=b'f')
}

// A blank or a line's end.
fn is_behind(b: u8) -> bool
    ensures { result ≡ is_behind b }
{
    b == b' ' || b == b'\n'
}

// Byte k behind `from`, 0 past the text.
fn byte_behind(text: &[u8], from: usize, k: usize) -> u8
    ensures { result ≡ get_or text.now (from + k) 0 }
{
    text.get(from.saturating_add(k)).copied().unwrap_or(0)
}

// The number that so many digits spell, of more than sixteen the last sixteen.
pub fn hexadecimal(text: &[u8], from: usize, count: usize) -> u64
    ensures { result ≡ spelled text.now from count }
{
    let mut n: u64 = 0;
    for k in 0..count {
        n = n % 0x1000_0000_0000_0000 * 16 + digit(byte_behind(text, from, k));
    }
    n
}

// The number that eight digits spell.
pub fn word(text: &[u8], from: usize) -> u32
    ensures { result ≡ spelled text.now from 8 % 0x1_0000_0000 }
{
    (hexadecimal(text, from, 8) % 0x1_0000_0000) as u32
}

// Whether so many bytes are digits.
pub fn are_digits(text: &[u8], from: usize, count: usize) -> bool
    ensures { result ≡ are_digits text.now from count }
{
    let mut all = true;
    for k in 0..count {
        all = all & is_digit(byte_behind(text, from, k));
    }
    all
}

// Whether eight digits stand there, with a blank or a line's end behind them.
pub fn is_field(text: &[u8], from: usize) -> bool
    ensures { result ≡ is_field text.now from }
{
    are_digits(text, from, 8) && is_behind(byte_behind(text, from, 8))
}

// The number that bytes spell. There is none where one of them is no digit.
pub fn number_in(digits: &[u8]) -> Option<u64>
    ensures { result ≡ number_of digits.now }
{
    if are_digits(digits, 0, digits.len()) {
        Some(hexadecimal(digits, 0, digits.len()))
    } else {
        None
    }
}

// The same, of more than eight digits the last eight.
pub fn word_in(digits: &[u8]) -> Option<u32>
    ensures { result ≡ word_of digits.now }
{
    let n = number_in(digits)?;
    Some((n % 0x1_0000_0000) as u32)
}

// The word of bytes that are a field.
pub(crate) fn field_in(text: &[u8]) -> Option<u32>
    ensures { result ≡ field_in text.now }
{
    if text.len() == 9 && is_field(text, 0) {
        Some(word(text, 0))
    } else {
        None
    }
}
