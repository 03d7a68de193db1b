// What the tables of a lent scene draw: 1 where a part leaves its table, 2 where a limit is passed, over all that is
// lent, used or not. docs/TABLES.md has the layout and the limits.
#![tactic(auto)]

mod numbers;
mod records;

pub use numbers::{
    capped, check_all, check_entries, check_roots, check_table, check_tables, child_entries,
    listed_entries, record_words, sizes_for, sizes_of,
};
pub use records::{Words, check_row, lower, table_of};

// The tables of records.
#[derive(Clone, Copy)]
pub enum Table {
    Nodes,
    Channels,
    Meshes,
    Primitives,
    Targets,
    InBetweens,
    Skins,
    Skeletons,
}
