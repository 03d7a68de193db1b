// What a scene in bytes draws, read from the bytes record by record, with no room to decode the scene into.
#![tactic(auto)]

mod calls;
mod lines;
mod numbers;
mod records;

pub use calls::{check_first, check_place};
pub use lines::check_scene;
pub use numbers::check_tables;
