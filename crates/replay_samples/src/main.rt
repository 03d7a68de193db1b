// Replays a fixed list of the Rust's samples (made by `harness/run list samples > crates/replay_samples/stdin`, the
// format is said in harness/compare/src/sampling/list.rs) through `animation::sample`, and counts the answers that
// differ: in a bit or, of a Linear turn, by more than 2^-19. A line has 41 fields. The last line of the output is OK
// where the input is so many lines, every kind of answer was seen and nothing differs, and FAILED otherwise.
#![tactic(auto)]

mod answer;
mod line;

use line::Line;
use lists::{Fields, Tally};
use std::io;

// How many fields a line has, how many the list has, 576 lines, and for how many there is room.
const LINE_FIELDS: usize = 41;

const FIELDS: usize = 23_616;

const ROOM: usize = 32_768;

// What was seen so far: by kind, and where the Rust has None.
#[derive(Clone, Copy)]
struct Report {
    vectors: Tally,
    turns: Tally,
    weights: Tally,
    none: Tally,
}

impl Report {
    fn new() -> Self {
        let none = Tally::new();
        Report {
            vectors: none,
            turns: none,
            weights: none,
            none,
        }
    }

    fn add(&mut self, line: &Line) {
        let same = line.is_answered();
        if line.expected.number != 0 {
            self.none = self.none.with(same);
        } else {
            match line.kind {
                0 => self.vectors = self.vectors.with(same),
                1 => self.turns = self.turns.with(same),
                _ => self.weights = self.weights.with(same),
            }
        }
    }

    fn print(&self, out: &impl Print) -> io::Result<()> {
        println!(out; "Vec3 samples: {}", self.vectors)?;
        println!(out; "Quat samples: {}", self.turns)?;
        println!(out; "weights: {}", self.weights)?;
        println!(out; "uneven tracks: {}", self.none)
    }

    // Whether every kind was seen, and no answer differs.
    fn is_good(&self) -> bool {
        self.vectors.all_same()
            && self.turns.all_same()
            && self.weights.all_same()
            && self.none.all_same()
    }
}

fn main(rt: HostRuntime) -> io::Result<()> {
    let out = rt.stdout();
    let mut room = [0u32; ROOM];
    let input = lists::read_fields(&mut rt.stdin(), &mut room)?;
    let mut fields = Fields::new(&room[..input.count]);
    let mut report = Report::new();
    for _ in 0..input.count.div_ceil(LINE_FIELDS) {
        report.add(&Line::read(&mut fields));
    }
    report.print(&out)?;
    lists::print_verdict(&out, input.whole && report.is_good() && fields.at == FIELDS)
}
