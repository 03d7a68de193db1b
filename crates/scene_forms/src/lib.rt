// The forms of a scene's text, read into the tables of a lent scene: all items of a table one behind the other, and the
// record of each form. A function puts what it reads from a place on, as far as there is room, and answers the place
// behind it, so that the same measures and fills. What is made of a text that has no reading does not matter.
#![tactic(auto)]

use brackets::Met;
use scene_marks::Mark;

mod fields;
mod forms;

pub use forms::document;

// The four tables that a text is read into.
#[derive(Drop)]
pub struct Tables<'a> {
    pub words: &'a mut [u32],
    pub floats: &'a mut [f32],
    pub node_weights: &'a mut [f32],
    pub mesh_weights: &'a mut [f32],
}

// How many items stand in each table.
#[derive(Clone, Copy)]
pub struct Counts {
    pub ids: usize,
    pub floats: usize,
    pub node_weights: usize,
    pub mesh_weights: usize,
}

// What the scene form asks for: a node, the bits of a time; and where the roots are among the ids.
#[derive(Clone, Copy)]
pub struct Request {
    pub node: usize,
    pub time: usize,
    pub roots_at: usize,
    pub roots: usize,
}

// Inside a form: where the text goes on, how many items there are, how the text compares, and the first field or form
// that does not have its shape.
#[derive(Clone, Copy)]
struct Spot {
    next: usize,
    counts: Counts,
    met: Met,
    shape: Met,
}

// A field, and where the text goes on behind it.
#[derive(Clone, Copy)]
struct Entry {
    spot: Spot,
    mark: Mark,
}

// The fields of a form, a mark for each slot, and where the text goes on behind them.
#[derive(Clone, Copy)]
struct Row {
    spot: Spot,
    marks: [Mark; 16],
}

// Between forms: the same, the place of the next record, how far the lists of records reach, and what is asked for.
#[derive(Clone, Copy)]
pub struct Place {
    pub next: usize,
    pub counts: Counts,
    pub met: Met,
    pub shape: Met,
    pub rows: usize,
    pub reach: usize,
    pub request: Request,
}

// The place behind the forms of a kind, and how many they are.
#[derive(Clone, Copy)]
struct Block {
    place: Place,
    count: usize,
}

// What was made of a text: the place behind it, how many forms there are of each kind, and how far their lists reach.
#[derive(Clone, Copy)]
pub struct Found {
    pub place: Place,
    pub counts: [usize; 9],
    pub reaches: [usize; 9],
}
