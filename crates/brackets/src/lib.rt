// Nested brackets in a text: words, names, lists of items. What is read is made of any text; beside it the text is
// compared with the text of what was read.
#![tactic(auto)]

mod cells;
mod lists;
mod meeting;
mod reading;
mod runs;

pub use lists::{read_floats, read_numbers};
pub use meeting::{judge, meet, meet_bytes, meet_item};
pub use reading::{behind, name};

// How far a text is the one that is expected, and whether nothing has departed yet: the place is told in both cases, so
// that a `Result` would only say twice what it holds.
#[derive(Clone, Copy)]
pub struct Met {
    pub at: usize,
    pub ok: bool,
}

// A word's value, and where the text goes on.
#[derive(Clone, Copy)]
pub struct Spelling {
    pub value: u64,
    pub next: usize,
}

// A list of items: how many, the first two, whether all are of their sort, where the text goes on, and how it compares.
#[derive(Clone, Copy)]
pub struct Listed {
    pub count: usize,
    pub first: u32,
    pub second: u32,
    pub sorted: bool,
    pub next: usize,
    pub met: Met,
}

// An item behind a space, where the text goes on, and how it compares.
#[derive(Clone, Copy)]
struct Item {
    value: u32,
    next: usize,
    met: Met,
}

// What has been told of the items read so far.
#[derive(Clone, Copy)]
struct Told {
    count: usize,
    first: u32,
    second: u32,
    sorted: bool,
}

// Items one after the other: how many, where the text goes on, and the cell behind them.
#[derive(Clone, Copy)]
struct Run {
    count: usize,
    next: usize,
    cell: usize,
}
