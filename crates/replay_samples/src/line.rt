// A line of the list: a track, a time, and the Rust's answer.
use crate::answer::Answer;
use lists::{Fields, TURN_GAP};
use tracks::{Interpolation, Kind, Part, Track};

// Kind and interpolation by their numbers, how many keys and values there are, and at the end keys and values.
#[derive(Clone, Copy)]
pub struct Line {
    pub kind: u32,
    interpolation: u32,
    keys: usize,
    values: usize,
    time: f32,
    pub expected: Answer,
    floats: [f32; 30],
}

fn kind_of(n: u32) -> Option<Kind> {
    match n {
        0 => Some(Kind::Vec3),
        1 => Some(Kind::Quat),
        2 => Some(Kind::Scalar),
        _ => None,
    }
}

fn interpolation_of(n: u32) -> Option<Interpolation> {
    match n {
        0 => Some(Interpolation::Step),
        1 => Some(Interpolation::Linear),
        2 => Some(Interpolation::CubicSpline),
        _ => None,
    }
}

fn read_floats<const N: usize>(fields: &mut Fields) -> [f32; N] {
    let mut floats = [0.0f32; N];
    for x in floats.iter_mut() {
        *x = fields.float();
    }
    floats
}

impl Line {
    pub fn read(fields: &mut Fields) -> Self {
        let kind = fields.word();
        let interpolation = fields.word();
        let keys = fields.number();
        let values = fields.number();
        let time = fields.float();
        let number = fields.word();
        let count = fields.number();
        let expected = Answer {
            number,
            count,
            values: read_floats(fields),
        };
        Line {
            kind,
            interpolation,
            keys,
            values,
            time,
            expected,
            floats: read_floats(fields),
        }
    }

    // None where the line names no kind or no interpolation.
    fn track(&self) -> Option<Track> {
        Some(Track {
            kind: kind_of(self.kind)?,
            interpolation: interpolation_of(self.interpolation)?,
            keys: Part {
                at: 0,
                count: self.keys,
            },
            values: Part {
                at: self.keys,
                count: self.values,
            },
        })
    }

    // How far the numbers of a Linear turn may lie apart; others have equal bits.
    fn allowed(&self) -> f64 {
        if self.kind == 1 && self.interpolation == 1 {
            TURN_GAP
        } else {
            0.0
        }
    }

    // Whether `animation::sample` gives the Rust's answer.
    pub fn is_answered(&self) -> bool {
        let Some(track) = self.track() else {
            return false;
        };
        let mut weights = [0.0f32; 4];
        let sampled = animation::sample(&self.floats, track, self.time, &mut weights);
        Answer::of(sampled, weights).is_same(&self.expected, self.allowed())
    }
}
