// The world matrix of every placed node: `posed_node_transforms` of pose.rs, from a pose that is given in lent slots.
#![tactic(auto)]

ghost use Rattle.std.specs.Prelude.{◌≡◌};
ghost use Rattle.tables.specs.Decoded.{lent_of};
ghost use Rattle.placing.specs.Walk.{listing_in};
ghost use Rattle.worlds.specs.Posed.{local_of};
ghost use Rattle.worlds.specs.Placed.{scratch_of, Run, answer_of, NodesPlaced};
ghost use Rattle.worlds.specs.Rooms.{RoomFor, scratch_in, SameRoom, walk_of, places_of, worlds_of};

use refusals::{NODE_LIMIT, Refusal};
use tables::Lent;

mod numbers;
mod posing;
mod slots;

pub use numbers::{is_short, is_short_for};

// A refusal number, or 0, and how many entries were taken: what a C function answers.
#[repr(C)]
#[derive(Clone, Copy)]
pub struct Answer {
    pub number: u32,
    pub taken: usize,
}

impl From<Result<usize, Refusal>> for Answer {
    ghost from_gives = { λ r a. a ≡ answer_of r };

    fn from(r: Result<usize, Refusal>) -> Answer {
        match r {
            Ok(taken) => Answer { number: 0, taken },
            Err(e) => Answer {
                number: u32::from(e),
                taken: 0,
            },
        }
    }
}

// The room that a placing is lent: what waits, the code of each node's place, and its world. The pose slots stand
// beside it, since C lends them to a placing to be read only.
#[derive(Drop)]
pub struct Room<'a> {
    pub walk: &'a mut [u32],
    pub places: &'a mut [u32],
    pub worlds: &'a mut [f32],
}

// How much room there is: for so many entries, poses and worlds.
#[derive(Clone, Copy)]
pub struct Space {
    pub walk: usize,
    pub poses: usize,
    pub worlds: usize,
}

// How much room is lent: two words an entry, four words and ten floats a pose, a word and sixteen floats a world.
pub fn space_in(marks: &[u32], slots: &[f32], room: &Room<'_>) -> Space
    ensures { scratch_in result ≡ scratch_of room.now.walk.now marks.now slots.now room.now.places.now
        room.now.worlds.now }
{
    Space {
        walk: room.walk.len() / 2,
        poses: (marks.len() / 4).min(slots.len() / 10),
        worlds: room.places.len().min(room.worlds.len() / 16),
    }
}

// Places the nodes, and writes the world of each: a stage, for tables and room that have been checked.
pub fn place_all(lent: Lent, marks: &[u32], slots: &[f32], room: &mut Room<'_>) -> usize
    requires { RoomFor lent.words.now lent.header.graph room.old }
    ensures same_room { SameRoom room.old room.new }
    ensures run { Run (listing_in lent.entry.words.now lent.entry.header.graph)
        (local_of (lent_of lent.entry) marks.now slots.now)
        (walk_of room.old room.new) (places_of room.old room.new) (worlds_of room.old room.new) result }
{
    let mut order = [0u32; NODE_LIMIT];
    let run = placing::place(
        lent.words,
        lent.header.graph,
        room.walk,
        room.places,
        &mut order,
    );
    let n = run.placed;
    posing::write_worlds(lent, marks, slots, &order[..n], room);
    run.taken
}

// Where every node stands, in the given pose: the code of its place in `places`, and its world in `worlds`. Answers how
// many entries were taken.
pub fn posed_node_transforms(
    lent: Lent,
    marks: &[u32],
    slots: &[f32],
    room: &mut Room<'_>,
) -> Result<usize, Refusal>
    ensures same_room { SameRoom room.old room.new }
    ensures placed { NodesPlaced (lent_of lent.entry) marks.now slots.now (walk_of room.old room.new)
        (places_of room.old room.new) (worlds_of room.old room.new) (answer_of result) }
{
    numbers::check_place(lent, space_in(marks, slots, room))?;
    let taken = place_all(lent, marks, slots, room);
    Ok(taken)
}
