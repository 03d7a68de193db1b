// Items of a text read as a whole where they stand as they are written: floats as eight hexadecimal digits, numbers in
// decimal with no leading zero.
#![tactic(auto)]

mod decimals;
mod eights;
mod items;
mod longs;

pub use items::{float_at, number_at};

// An item, and where the text goes on behind it.
#[derive(Clone, Copy)]
pub struct Standing {
    pub value: u32,
    pub next: usize,
}

// The number that the first of eight bytes spell in decimal, and how many these are.
#[derive(Clone, Copy)]
struct Decimal {
    value: u32,
    count: u32,
}
