// Scenes as bracketed text (docs/TEXT.md), read into the tables of a lent scene.
#![tactic(auto)]

ghost use Rattle.std.specs.Prelude.{◌≡◌};
ghost use Rattle.scene_text.specs.Breaks.{break_told};
ghost use Rattle.scene_text.specs.Reading.{answer_of, told_by};

use refusals::Refusal;
use tables::Header;

mod breaks;
mod tables_read;

pub use breaks::find_break;
pub use tables_read::{read_scene, text_room};

// What a text says besides its tables: where these lie, and the node and the time asked for.
#[derive(Clone, Copy)]
pub struct Contents {
    pub header: Header,
    pub node: u32,
    pub time: f32,
}

// How long the tables of a scene are.
#[derive(Clone, Copy)]
pub struct Lengths {
    pub words: usize,
    pub floats: usize,
    pub node_weights: usize,
    pub mesh_weights: usize,
}

// A refusal number, or 0; and the scene that was read: what a C function answers.
#[repr(C)]
#[derive(Clone, Copy)]
pub struct Reading {
    pub number: u32,
    pub header: Header,
    pub node: u32,
    pub time: f32,
}

impl From<Result<Contents, Refusal>> for Reading {
    ghost from_gives = { λ r a. a ≡ answer_of r };

    fn from(r: Result<Contents, Refusal>) -> Reading {
        match r {
            Ok(scene) => Reading {
                number: 0,
                header: scene.header,
                node: scene.node,
                time: scene.time,
            },
            Err(e) => Reading {
                number: u32::from(e),
                header: tables_read::no_header(),
                node: 0,
                time: 0.0,
            },
        }
    }
}

// A refusal number, or 0; and how long the tables of the scene are: what a C function answers.
#[repr(C)]
#[derive(Clone, Copy)]
pub struct Needed {
    pub number: u32,
    pub words: usize,
    pub floats: usize,
    pub node_weights: usize,
    pub mesh_weights: usize,
}

impl From<Result<Lengths, Refusal>> for Needed {
    ghost from_gives = { λ r a. a ≡ told_by r };

    fn from(r: Result<Lengths, Refusal>) -> Needed {
        match r {
            Ok(n) => Needed {
                number: 0,
                words: n.words,
                floats: n.floats,
                node_weights: n.node_weights,
                mesh_weights: n.mesh_weights,
            },
            Err(e) => Needed {
                number: u32::from(e),
                words: 0,
                floats: 0,
                node_weights: 0,
                mesh_weights: 0,
            },
        }
    }
}

// A refusal number, or 0; and the place at which the text breaks: what a C function answers.
#[repr(C)]
#[derive(Clone, Copy)]
pub struct Break {
    pub number: u32,
    pub at: usize,
}

impl From<Option<usize>> for Break {
    ghost from_gives = { λ r a. a ≡ break_told r };

    fn from(r: Option<usize>) -> Break {
        match r {
            Some(at) => Break {
                number: u32::from(Refusal::BadForm),
                at,
            },
            None => Break { number: 0, at: 0 },
        }
    }
}
