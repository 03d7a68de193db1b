ghost use Rattle.std.specs.Prelude.{◌≡◌, ◌+◌, ◌*◌, ◌<◌, length, take, drop};
ghost use Rattle.tables.specs.Records.{word_of, part_of, slot_of, reference_of};

use crate::{Reference, Slot};
use tracks::Part;

// The words of record i, where it lies whole in `words`; otherwise none.
pub(crate) fn whole(words: &[u32], t: Part, stride: usize, i: usize) -> &[u32]
    requires { 0 < stride }
    ensures { length result.now ≡ stride → result.now
        ≡ take stride (drop (t.at + i * stride) words.now) }
{
    let at = t.at;
    let len = words.len();
    if at <= len {
        if i < (len - at) / stride {
            let start = at + i * stride;
            let end = start + stride;
            return &words[start..end];
        }
    }
    &words[..0]
}

// Record i of a table of records of so many words.
#[derive(Clone, Copy)]
pub(crate) struct Place<'a> {
    pub words: &'a [u32],
    pub t: Part,
    pub stride: usize,
    pub i: usize,
}

impl Place<'_> {
    // Word k of the record; 0 where `words` has none.
    pub(crate) fn word(self, k: usize) -> u32
        requires { 0 < self.stride }
        ensures { result ≡ word_of self.entry.words.now self.entry.t self.entry.stride self.entry.i k }
    {
        let at = self.t.at;
        let len = self.words.len();
        let stride = self.stride;
        let i = self.i;
        if at <= len {
            if i <= (len - at) / stride {
                let start = at + i * stride;
                if k < len - start {
                    return self.words[start + k];
                }
            }
        }
        0
    }

    pub(crate) fn part(self, k: usize) -> Part
        requires { (0 < self.stride) × (k < 16) }
        ensures { result ≡ part_of self.entry.words.now self.entry.t self.entry.stride self.entry.i k }
    {
        Part {
            at: self.word(k) as usize,
            count: self.word(k + 1) as usize,
        }
    }

    pub(crate) fn slot(self, k: usize) -> Slot
        requires { (0 < self.stride) × (k < 15) }
        ensures { result ≡ slot_of self.entry.words.now self.entry.t self.entry.stride self.entry.i k }
    {
        Slot {
            mark: self.word(k),
            part: self.part(k + 1),
        }
    }

    pub(crate) fn reference(self, k: usize) -> Reference
        requires { (0 < self.stride) × (k < 16) }
        ensures { result ≡ reference_of self.entry.words.now self.entry.t self.entry.stride self.entry.i k }
    {
        Reference {
            mark: self.word(k),
            id: self.word(k + 1),
        }
    }
}
