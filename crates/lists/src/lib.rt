// What the programs share that replay lists of the Rust's answers: fields of hexadecimal digits from a reader,
// whether what was found is what they say, counts of answers, and floats in print. `read_full`, `read_fields` and
// `read_bytes` alone read, the first two into room that is lent and the last into memory of its own, and say which
// bytes and fields they give of a reader whose bytes are known; what was read is looked at by functions that give their
// results outright. No contract can say what standard input gives or what is printed: functions that read or print are
// safe and end, and give back the error of a read or a write that failed.
#![tactic(auto)]

mod counting;
mod digits;
mod fields;
mod printing;
mod reading;

pub use counting::Tally;
pub use digits::{are_digits, hexadecimal, is_field, number_in, word, word_in};
pub use fields::Fields;
pub use printing::{Decimal, print_verdict};
pub use reading::{Input, read_bytes, read_fields, read_full};

// How far a number that a Linear turn gives may lie from the Rust's: 2^-19.
pub const TURN_GAP: f64 = 0.0000019073486328125;
