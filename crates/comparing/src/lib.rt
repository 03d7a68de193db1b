// What was found beside what is right, which is handed in as bits: for the programs that replay lists of the Rust's
// answers.
#![tactic(auto)]

ghost use Rattle.std.specs.Prelude.{◌≡◌};
ghost use Rattle.comparing.specs.Near.{same_bits, near_by};
ghost use Rattle.comparing.specs.Compared.{one_more, one_differs, agreeing, of_lengths, compared};
ghost use Rattle.comparing.specs.Compared.{same_words, same_floats};

// How many floats have equal bits, how many lie within what is allowed, and how many differ.
#[derive(Clone, Copy, Debug, PartialEq, Eq)]
pub struct Agreement {
    pub equal: u32,
    pub near: u32,
    pub differ: u32,
}

// Whether two floats have equal bits.
fn is_equal(x: f32, y: f32) -> bool
    ensures { result ≡ same_bits x y }
{
    float::to_bits(x) == float::to_bits(y)
}

// Whether two floats have equal bits, or are less than `most` apart.
pub fn is_near(x: f32, y: f32, most: f64) -> bool
    ensures { result ≡ near_by x y most }
{
    let gap = float::widen(x) - float::widen(y);
    is_equal(x, y) || (gap < most && -most < gap)
}

// One more. The counts stay below 2^31, far above the length of any list.
fn one_more(n: u32) -> u32
    ensures { result ≡ one_more n }
{
    n % 0x8000_0000 + 1
}

impl Agreement {
    pub fn new() -> Self
        ensures { result ≡ record { equal = 0; near = 0; differ = 0 } }
    {
        Agreement {
            equal: 0,
            near: 0,
            differ: 0,
        }
    }

    pub fn with(self, found: f32, expected: f32, most: f64) -> Self
        ensures { result ≡ agreeing self found expected most }
    {
        if is_equal(found, expected) {
            Agreement {
                equal: one_more(self.equal),
                ..self
            }
        } else if is_near(found, expected, most) {
            Agreement {
                near: one_more(self.near),
                ..self
            }
        } else {
            self.one_differs()
        }
    }

    fn one_differs(self) -> Self
        ensures { result ≡ one_differs self }
    {
        Agreement {
            differ: one_more(self.differ),
            ..self
        }
    }

    fn with_lengths(self, found: usize, expected: usize) -> Self
        ensures { result ≡ of_lengths self found expected }
    {
        if found == expected {
            self
        } else {
            self.one_differs()
        }
    }
}

// Counts how each float agrees with the one of which the bits are expected; a list of another length differs once
// more.
pub fn compare(so_far: Agreement, found: &[f32], expected: &[u32], most: f64) -> Agreement
    ensures { result ≡ compared so_far found.now expected.now most }
{
    let start = so_far.with_lengths(found.len(), expected.len());
    found.iter().zip(expected).fold(
        start,
        |agreement, (x, bits)| agreement.with(*x, float::from_bits(*bits), most),
    )
}

// Whether floats are as many as expected, and each has the bits that are.
pub fn floats_agree(found: &[f32], expected: &[u32]) -> bool
    ensures { result ≡ same_floats found.now expected.now }
{
    found.len() == expected.len()
        && found
            .iter()
            .zip(expected)
            .all(|(x, bits)| is_equal(*x, float::from_bits(*bits)))
}

// Whether words are as many as expected, and each is the expected one.
pub fn words_agree(found: &[u32], expected: &[u32]) -> bool
    ensures { result ≡ same_words found.now expected.now }
{
    found == expected
}
