// Little-endian words and floats in byte slices. Every NaN pattern is read as the one NaN, which is written 7fc00000.
#![tactic(auto)]

ghost use Rattle.std.specs.Prelude.{◌≡◌, ℕ, ◌++◌, ◌+◌, ◌≤◌, length, get_or, take, drop, from_bits, to_bits};
ghost use Rattle.std.specs.Float.{binary32, nan};
ghost use Rattle.borrowed.specs.Written.{Writes};
ghost use Rattle.wire.specs.Bytes.{word_at, read_as, floats_in, word_bytes};
ghost use Rattle.wire.specs.Bytes.{WroteAs};

// Copies to the start of `out` as much as there is room for, and answers how much.
pub fn copy_floats(part: &[f32], out: &mut [f32]) -> usize
    ensures { Writes part.now out result }
{
    let n = part.len().min(out.len());
    for i in 0..n {
        out[i] = part[i];
    }
    n
}

// The word whose first byte is byte i.
fn word_at(bytes: &[u8], i: usize) -> u32
    requires { i + 4 ≤ length bytes.now }
    ensures { result ≡ word_at bytes.now i }
{
    u32::from_le_bytes([bytes[i], bytes[i + 1], bytes[i + 2], bytes[i + 3]])
}

// Float i, and NaN where there is none.
pub fn float_at(bytes: &[u8], i: usize) -> f32
    ensures { result ≡ get_or (floats_in bytes.now) i nan }
{
    if i < bytes.len() / 4 {
        return float::from_bits(word_at(bytes, i * 4));
    }
    0.0 / 0.0
}

// Writes the bytes of a word from byte i on.
fn put_word(bytes: &mut [u8], i: usize, w: u32)
    requires { i + 4 ≤ length bytes.old }
    ensures { bytes.new ≡ take i bytes.old ++ word_bytes w
        ++ drop (i + 4) bytes.old }
{
    bytes[i..i + 4].copy_from_slice(&w.to_le_bytes());
}

// What is stored as a word of four bytes: a word as it is, a float by its bits.
pub trait Entry: Copy {
    ghost of_word: { ℕ → Self };

    ghost word_of: { Self → ℕ };

    fn from_word(w: u32) -> Self
        ensures { result ≡ of_word w };

    fn to_word(self) -> u32
        ensures { result ≡ word_of self };
}

impl Entry for u32 {
    ghost of_word = { λ w. w };

    ghost word_of = { λ w. w };

    fn from_word(w: u32) -> u32 {
        w
    }

    fn to_word(self) -> u32 {
        self
    }
}

impl Entry for f32 {
    ghost of_word = { from_bits binary32 };

    ghost word_of = { to_bits binary32 };

    fn from_word(w: u32) -> f32 {
        float::from_bits(w)
    }

    fn to_word(self) -> u32 {
        float::to_bits(self)
    }
}

// Reads as many entries as there are and fit, and answers how many. Past these `out` stays as lent.
pub fn read<T: Entry>(bytes: &[u8], out: &mut [T]) -> usize
    ensures { Writes (read_as T.of_word bytes.now) out result }
{
    let n = (bytes.len() / 4).min(out.len());
    for i in 0..n {
        out[i] = T::from_word(word_at(bytes, i * 4));
    }
    n
}

// Writes as many entries as there are and fit, and answers how many. Past these `bytes` stays as lent.
pub fn write<T: Entry>(entries: &[T], bytes: &mut [u8]) -> usize
    ensures { WroteAs T.word_of entries.now bytes.old bytes.new result }
{
    let n = entries.len().min(bytes.len() / 4);
    for i in 0..n {
        put_word(bytes, i * 4, entries[i].to_word());
    }
    n
}
