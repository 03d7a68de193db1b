// The first word that draws a number, asked before the rest of a record whose first such word is known.
ghost use Rattle.std.specs.Prelude.{◌≡◌, [], ◌∷◌, ◌<◌};
ghost use Rattle.refusals.specs.Drawn.{number_of};
ghost use Rattle.word_checks.specs.Words.{leaves, over, asks, part_asked, slot_asked, first_asked, word_drawn};

use refusals::{Refusal, VERTEX_LIMIT};
use tables::Slot;
use tracks::Part;

// A word that draws 1 where something leaves its table.
pub(crate) fn leaves_word(n: Refusal, word: u32, fits: bool, rest: Option<u32>) -> Option<u32>
    ensures { word_drawn n result ≡ first_asked (number_of n) (asks word (leaves fits) ∷ []) (word_drawn n rest) }
{
    if !fits && n == Refusal::OutOfTable {
        return Some(word);
    }
    rest
}

// A word that draws 2 where something is not within its limit.
pub(crate) fn over_word(n: Refusal, word: u32, within: bool, rest: Option<u32>) -> Option<u32>
    ensures { word_drawn n result ≡ first_asked (number_of n) (asks word (over within) ∷ []) (word_drawn n rest) }
{
    if !within && n == Refusal::OverLimit {
        return Some(word);
    }
    rest
}

// The two words of a part: where it starts, and how many entries it has.
pub(crate) fn part_word(
    n: Refusal,
    word: u32,
    p: Part,
    width: usize,
    len: usize,
    limit: usize,
    rest: Option<u32>,
) -> Option<u32>
    requires { word < 16 }
    ensures { word_drawn n result ≡ first_asked (number_of n) (part_asked word p width len limit) (word_drawn n rest) }
{
    let from_count = over_word(n, word + 1, p.count <= limit, rest);
    leaves_word(n, word, tracks::fits(p, width, len), from_count)
}

// The three words of a part of vertices that may be absent.
pub(crate) fn slot_word(
    n: Refusal,
    word: u32,
    s: Slot,
    width: usize,
    len: usize,
    rest: Option<u32>,
) -> Option<u32>
    requires { word < 14 }
    ensures { word_drawn n result ≡ first_asked (number_of n) (slot_asked word s width len) (word_drawn n rest) }
{
    if s.mark == 0 {
        return rest;
    }
    let from_part = part_word(n, word + 1, s.part, width, len, VERTEX_LIMIT, rest);
    over_word(n, word, s.mark <= 1, from_part)
}
