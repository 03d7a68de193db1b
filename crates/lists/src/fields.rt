// Fields that were read, one after the other. A list is its count and then its entries, a field each. Reading that
// lacks a field goes past all fields and stays there, so what was read is whole where it ends just behind the last
// field. A damaged list is replayed as far as it goes, so a field that lacks is 0, and no error.
ghost use Rattle.std.specs.Prelude.{◌≡◌, ◌<◌, ◌↔◌, IsTrue, length, get_or, take, eqb};
ghost use Rattle.float.specs.F32.{f32};
ghost use Rattle.comparing.specs.Compared.{same_words, same_floats};
ghost use Rattle.lists.specs.Fields.{past_of, ahead_of, behind_list, list_at, floats_of, floats_at, Copies};
ghost use Rattle.lists.specs.Moves.{MovesTo};

use comparing::{floats_agree, words_agree};

fn copy_words(words: &[u32], out: &mut [u32]) -> usize
    ensures { Copies words.now out result }
{
    let n = words.len().min(out.len());
    out[..n].copy_from_slice(&words[..n]);
    n
}

fn copy_floats(bits: &[u32], out: &mut [f32]) -> usize
    ensures { Copies (floats_of bits.now) out result }
{
    let n = bits.len().min(out.len());
    for i in 0..n {
        out[i] = float::from_bits(bits[i]);
    }
    n
}

// The fields, and the place of the next one.
#[derive(Clone, Copy)]
pub struct Fields<'a> {
    pub all: &'a [u32],
    pub at: usize,
}

impl<'a> Fields<'a> {
    pub fn new(all: &'a [u32]) -> Self
        ensures all { result.all.now ≡ all.now }
        ensures at { result.at ≡ 0 }
    {
        Fields { all, at: 0 }
    }

    // Whether a field was lacking.
    pub fn is_past(&self) -> bool
        ensures { IsTrue result ↔ (length self.now.all.now < self.now.at) }
    {
        self.all.len() < self.at
    }

    // Whether the last field was read, and none was lacking.
    pub fn is_end(&self) -> bool
        ensures { IsTrue result ↔ (self.now.at ≡ length self.now.all.now) }
    {
        self.at == self.all.len()
    }

    // Past all fields, as where one was lacking.
    pub fn go_past(&mut self)
        ensures { MovesTo self.old self.new (past_of self.old.all.now) }
    {
        self.at = self.all.len() + 1;
    }

    // The place so many fields on.
    fn ahead(&self, count: usize) -> usize
        ensures { result ≡ ahead_of self.now.all.now self.now.at count }
    {
        self.at.saturating_add(count).min(self.all.len() + 1)
    }

    // The next field, 0 past the last.
    pub fn word(&mut self) -> u32
        ensures value { result ≡ get_or self.old.all.now self.old.at 0 }
        ensures moves { MovesTo self.old self.new (ahead_of self.old.all.now self.old.at 1) }
    {
        let word = self.all.get(self.at).copied().unwrap_or(0);
        self.at = self.ahead(1);
        word
    }

    // The same as a count, and as the bits of a float.
    pub fn number(&mut self) -> usize
        ensures value { result ≡ get_or self.old.all.now self.old.at 0 }
        ensures moves { MovesTo self.old self.new (ahead_of self.old.all.now self.old.at 1) }
    {
        self.word() as usize
    }

    pub fn float(&mut self) -> f32
        ensures value { result ≡ f32 (get_or self.old.all.now self.old.at 0) }
        ensures moves { MovesTo self.old self.new (ahead_of self.old.all.now self.old.at 1) }
    {
        float::from_bits(self.word())
    }

    // The entries of the next list as far as there are fields. One of more entries than there is room for is behind all
    // fields.
    pub fn list(&mut self, room: usize) -> &'a [u32]
        ensures value { result.now ≡ list_at self.old.all.now self.old.at }
        ensures moves { MovesTo self.old self.new (behind_list self.old.all.now self.old.at room) }
    {
        let count = self.number();
        let rest = self.all.get(self.at..).unwrap_or(&[]);
        if count <= room {
            self.at = self.ahead(count);
        } else {
            self.go_past();
        }
        &rest[..count.min(rest.len())]
    }

    // Copies these to the start of `out` as far as there is room, as words and as the bits of floats, and answers how
    // many.
    pub fn words(&mut self, out: &mut [u32]) -> usize
        ensures value { Copies (list_at self.old.all.now self.old.at) out result }
        ensures first { take result out.new ≡ take (length out.old) (list_at self.old.all.now self.old.at) }
        ensures moves { MovesTo self.old self.new (behind_list self.old.all.now self.old.at (length out.old)) }
    {
        copy_words(self.list(out.len()), out)
    }

    pub fn floats(&mut self, out: &mut [f32]) -> usize
        ensures value { Copies (floats_at self.old.all.now self.old.at) out result }
        ensures first { take result out.new ≡ take (length out.old) (floats_at self.old.all.now self.old.at) }
        ensures moves { MovesTo self.old self.new (behind_list self.old.all.now self.old.at (length out.old)) }
    {
        copy_floats(self.list(out.len()), out)
    }

    // Whether a number that was found is the next field.
    pub fn has_number(&mut self, found: usize) -> bool
        ensures same { result ≡ eqb found (get_or self.old.all.now self.old.at 0) }
        ensures moves { MovesTo self.old self.new (ahead_of self.old.all.now self.old.at 1) }
    {
        found == self.number()
    }

    // Whether words that were found are the next list, and the same of floats.
    pub fn has_words(&mut self, found: &[u32], room: usize) -> bool
        ensures same { result ≡ same_words found.now (list_at self.old.all.now self.old.at) }
        ensures moves { MovesTo self.old self.new (behind_list self.old.all.now self.old.at room) }
    {
        words_agree(found, self.list(room))
    }

    pub fn has_floats(&mut self, found: &[f32], room: usize) -> bool
        ensures same { result ≡ same_floats found.now (list_at self.old.all.now self.old.at) }
        ensures moves { MovesTo self.old self.new (behind_list self.old.all.now self.old.at room) }
    {
        floats_agree(found, self.list(room))
    }
}
