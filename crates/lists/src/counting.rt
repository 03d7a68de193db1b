ghost use Rattle.std.specs.Prelude.{◌≡◌};

use std::fmt;

// How many answers were seen, and how many of them differ.
#[derive(Clone, Copy, Debug, PartialEq, Eq)]
pub struct Tally {
    pub seen: u32,
    pub differ: u32,
}

// A count starts anew here, far above the length of any list.
const COUNTS: u32 = 0x8000_0000;

impl Tally {
    ghost use Rattle.lists.specs.Tallies.{counted, all_same};

    pub fn new() -> Self
        ensures { result ≡ record { seen = 0; differ = 0 } }
    {
        Tally { seen: 0, differ: 0 }
    }

    // One answer more.
    pub fn with(self, same: bool) -> Self
        ensures { result ≡ counted self same }
    {
        let differs = if same { 0 } else { 1 };
        Tally {
            seen: self.seen % COUNTS + 1,
            differ: self.differ % COUNTS + differs,
        }
    }

    // Whether answers were seen and none of them differs.
    pub fn all_same(self) -> bool
        ensures { result ≡ all_same self }
    {
        0 < self.seen && self.differ == 0
    }
}

impl fmt::Display for Tally {
    fn fmt<W: fmt::Write>(&self, f: &mut fmt::Formatter<W>) -> fmt::Result {
        let seen = self.seen;
        let differ = self.differ;
        write!(f, "{seen} answers, {differ} differ")
    }
}
