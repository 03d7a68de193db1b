// Replays a fixed list of the Rust's answers (made by `compare list` of harness/) and counts the answers that differ.
// A line has 28 bytes: a letter, a blank, 16 hexadecimal digits of input, a blank, 8 of the answer, a line end. s: a
// root, n: a narrowing, w: a turn weight (8 digits v, 8 digits c), within 2^-19 of the weight that slerp used. The
// last line of the output is OK where the input is so many lines, every kind was seen and nothing differs, and FAILED
// otherwise.
#![tactic(auto)]

mod line;

use line::{Line, Question};
use lists::Tally;
use std::io;
use std::io::Read;

// How many lines the list has, and the bytes of one.
const LINES: usize = 5000;

const LINE_LENGTH: usize = 28;

// What was seen so far, by kind of line.
#[derive(Clone, Copy)]
struct Report {
    roots: Tally,
    narrowed: Tally,
    weights: Tally,
    unknown: Tally,
}

impl Report {
    fn new() -> Self {
        let none = Tally::new();
        Report {
            roots: none,
            narrowed: none,
            weights: none,
            unknown: none,
        }
    }

    fn add(&mut self, text: &[u8; LINE_LENGTH]) {
        let Some(line) = Line::parse(text) else {
            self.unknown = self.unknown.with(false);
            return;
        };
        let same = line.is_right();
        match line.question {
            Question::Root(_) => self.roots = self.roots.with(same),
            Question::Narrowing(_) => self.narrowed = self.narrowed.with(same),
            Question::Weight(_, _) => self.weights = self.weights.with(same),
        }
    }

    fn print(&self, out: &impl Print) -> io::Result<()> {
        println!(out; "square roots: {}", self.roots)?;
        println!(out; "narrowings: {}", self.narrowed)?;
        println!(out; "turn weights: {}", self.weights)?;
        println!(out; "unknown lines: {}", self.unknown)
    }

    // Whether every kind was seen, no answer differs and no line is unknown.
    fn is_good(&self) -> bool {
        self.roots.all_same()
            && self.narrowed.all_same()
            && self.weights.all_same()
            && self.unknown.seen == 0
    }
}

// Reports the lines, and answers whether the input is so many and nothing else.
fn replay<R: Read>(input: &mut R, report: &mut Report) -> io::Result<bool> {
    let mut line = [0u8; LINE_LENGTH];
    for _ in 0..LINES {
        if lists::read_full(input, &mut line)? != LINE_LENGTH {
            return Ok(false);
        }
        report.add(&line);
    }
    Ok(lists::read_full(input, &mut line)? == 0)
}

fn main(rt: HostRuntime) -> io::Result<()> {
    let out = rt.stdout();
    let mut report = Report::new();
    let whole = replay(&mut rt.stdin(), &mut report)?;
    report.print(&out)?;
    lists::print_verdict(&out, whole && report.is_good())
}
