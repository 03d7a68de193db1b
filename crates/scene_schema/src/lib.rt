// The forms of a scene's text (docs/TEXT.md): their names, what is asked of their fields, and the records that are made
// of them.
#![tactic(auto)]
// Kinds and slots are numbers: all that reads or writes goes over them in their order, slot j of kind k by 16 k + j.

mod names;
mod rows;
mod rules;

pub use names::{slot_name, slots, title};
pub use rows::{stride, word_source};
pub use rules::{group, slot_rule};

// A title or a name: what it is told by, and its letters.
#[derive(Clone, Copy)]
pub struct Name {
    pub code: u64,
    pub letters: &'static [u8],
}

// Where the items of a field go: a number or the bits of a float to no table, ids to `words`, others to one of the
// three slices of floats.
#[derive(Clone, Copy)]
pub enum Pool {
    Number,
    Bits,
    Ids,
    Floats,
    NodeWeights,
    MeshWeights,
}

// What is asked of a field: just so many items, or entries of so many; of how many slots from it on one is there, or 0;
// and where the items go.
#[derive(Clone, Copy)]
pub struct Rule {
    pub fixed: bool,
    pub width: u8,
    pub one_of: u8,
    pub pool: Pool,
}

// Where a word of a record is taken from. Of a slot and so many more behind it one is there: its number among them,
// where its items start, how many entries they are. Of one slot, its mark, its first or its second item.
#[derive(Clone, Copy)]
pub enum Source {
    Tag(u8, u8),
    Mark(u8),
    Start(u8, u8),
    Entries(u8, u8),
    First(u8),
    Second(u8),
}
