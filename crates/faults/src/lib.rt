// Where a lent scene breaks the rules of its tables: the first spot that draws the number of its tables.
// docs/TABLES.md has the layout and the limits.
#![tactic(auto)]

ghost use Rattle.std.specs.Prelude.{◌≡◌};
ghost use Rattle.faults.specs.Faults.{spot_told};

use refusals::Refusal;

mod rows;
mod spots;

pub use spots::scene_fault;

// A number that a lent scene draws, and where: the table in the header's order, the record, and the word of the
// record. Word 16 is the table itself, its place and count in the header, and then the record is 0. Where there is no
// fault all are 0.
#[repr(C)]
#[derive(Clone, Copy)]
pub struct Fault {
    pub number: u32,
    pub table: u32,
    pub record: usize,
    pub word: u32,
}

// Where a refusal is drawn: the table, the record and the word.
#[derive(Clone, Copy)]
struct Spot {
    refusal: Refusal,
    table: u32,
    record: usize,
    word: u32,
}

// What C is told of a spot, or of none.
impl From<Option<Spot>> for Fault {
    ghost from_gives = { λ s f. f ≡ spot_told s };

    fn from(spot: Option<Spot>) -> Fault {
        match spot {
            Some(s) => Fault {
                number: u32::from(s.refusal),
                table: s.table,
                record: s.record,
                word: s.word,
            },
            None => Fault {
                number: 0,
                table: 0,
                record: 0,
                word: 0,
            },
        }
    }
}
