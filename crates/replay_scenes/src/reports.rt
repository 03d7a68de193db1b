// What was seen of each call.
use crate::calls::{CALLS, Call};
use lists::Tally;
use std::io;

// The tallies of the calls in their order, and that of calls that are not known.
#[derive(Clone, Copy)]
pub struct Report {
    tallies: [Tally; 10],
    unknown: Tally,
}

impl Report {
    pub fn new() -> Self {
        let none = Tally::new();
        Report {
            tallies: [none; 10],
            unknown: none,
        }
    }

    pub fn add(&mut self, call: Option<Call>, same: bool) {
        match call {
            Some(call) => {
                let tally = &mut self.tallies[call as usize];
                *tally = tally.with(same);
            }
            None => self.unknown = self.unknown.with(same),
        }
    }

    pub fn print(&self, out: &impl Print) -> io::Result<()> {
        for (call, tally) in CALLS.iter().zip(&self.tallies) {
            println!(out; "{call}: {tally}")?;
        }
        println!(out; "unknown calls: {}", self.unknown)
    }

    // Whether every call was seen, and no answer differs.
    pub fn is_good(&self) -> bool {
        self.tallies.iter().all(|tally| tally.all_same())
    }
}
