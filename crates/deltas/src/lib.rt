// What morph targets add: their deltas, read from lent slices and added to others, and their in-betweens, read one by
// one.
#![tactic(auto)]

use tables::Slot;

mod adding;
mod betweens;
mod records;

pub use adding::{add_between, add_scaled, add_tangents, deltas_in};
pub use betweens::{has_valid, is_kept, station_at};
pub use records::target_at;

// An in-between that stands among 0 and 1, with its deltas.
#[derive(Clone, Copy)]
pub struct Station {
    pub weight: f32,
    pub positions: Slot,
    pub normals: Slot,
}
