// A line of the list: what the Rust was asked, and what it answered.
ghost use Rattle.std.specs.Prelude.{◌≡◌};
ghost use Rattle.replay.specs.Lines.{question_of, line_in, is_right};

use lists::{TURN_GAP, number_in, word_in};

#[derive(Clone, Copy)]
pub enum Question {
    Root(f32),
    Narrowing(f64),
    Weight(f32, f32),
}

#[derive(Clone, Copy)]
pub struct Line {
    pub question: Question,
    pub answer: u32,
}

// What a letter asks of sixteen digits, and of the first and the second eight of them.
fn question_of(letter: u8, double: u64, first: u32, second: u32) -> Option<Question>
    ensures { result ≡ question_of letter double first second }
{
    match letter {
        b's' => Some(Question::Root(float::from_bits(second))),
        b'n' => Some(Question::Narrowing(float::from_bits_f64(double))),
        b'w' => Some(Question::Weight(float::from_bits(first), float::from_bits(second))),
        _ => None,
    }
}

impl Line {
    // None where the text is no line.
    pub fn parse(text: &[u8; 28]) -> Option<Self>
        ensures { result ≡ line_in text.now }
    {
        let double = number_in(&text[2..18])?;
        let first = word_in(&text[2..10])?;
        let second = word_in(&text[10..18])?;
        let answer = word_in(&text[19..27])?;
        if text[1] != b' ' || text[18] != b' ' || text[27] != b'\n' {
            return None;
        }
        let question = question_of(text[0], double, first, second)?;
        Some(Line { question, answer })
    }

    // Whether the answer is right.
    pub fn is_right(self) -> bool
        ensures { result ≡ is_right self }
    {
        match self.question {
            Question::Root(x) => float::to_bits(square_root::sqrt(x)) == self.answer,
            Question::Narrowing(x) => float::to_bits(float::narrow(x)) == self.answer,
            Question::Weight(v, c) => {
                comparing::is_near(
                    turn::turn_weight(v, c),
                    float::from_bits(self.answer),
                    TURN_GAP,
                )
            }
        }
    }
}
