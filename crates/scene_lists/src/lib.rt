// Scenes and bakes in lists, for the programs that replay the Rust's answers on a scene. They stand in fields, as
// harness/compare/src/list/fields.rs says it.
#![tactic(auto)]

mod bakes;
mod headers;
mod scenes;

pub use bakes::{Outcome, is_told};
pub use headers::header;
pub use scenes::Scene;
