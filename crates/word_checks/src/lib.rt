// What is asked of each word of a record of a lent scene, and the first word that draws a number. docs/TABLES.md has
// the layout and the limits.
#![tactic(auto)]

mod records;
mod steps;

pub use records::row_word;
