// The first channel that a pose passes over, and why: such a channel changes nothing, and draws no number.
#![tactic(auto)]

ghost use Rattle.std.specs.Prelude.{◌≡◌};
ghost use Rattle.passed_over.specs.Told.{code_of, passed_told};

use refusals::Refusal;

mod calls;
mod reasons;

pub use calls::first_passed_over;

// Why a channel is passed over.
#[derive(Clone, Copy, PartialEq, Eq)]
pub enum Reason {
    // Its target is past the last node.
    NoNode = 1,
    // Its layout is not even.
    UnevenLayout,
    // The kind of its values does not fit its property.
    UnfitKind,
    // It gives a rotation whose length at this time is 0 or not finite.
    NoLength,
}

// The reason's number in the C interface.
impl From<Reason> for u32 {
    ghost from_gives = { λ r n. n ≡ code_of r };

    fn from(r: Reason) -> u32 {
        r as u32
    }
}

// The refusal number of the pose, or 0; the reason, or 0 where no channel is passed over; and the channel.
#[repr(C)]
#[derive(Clone, Copy)]
pub struct PassedOver {
    pub number: u32,
    pub reason: u32,
    pub channel: usize,
}

// A channel that is passed over, and why.
#[derive(Clone, Copy)]
struct Passed {
    reason: Reason,
    channel: usize,
}

// What C is told of a channel that is passed over, of none, or of a pose that is refused.
impl From<Result<Option<Passed>, Refusal>> for PassedOver {
    ghost from_gives = { λ r p. p ≡ passed_told r };

    fn from(r: Result<Option<Passed>, Refusal>) -> PassedOver {
        match r {
            Ok(Some(p)) => PassedOver {
                number: 0,
                reason: u32::from(p.reason),
                channel: p.channel,
            },
            Ok(None) => PassedOver {
                number: 0,
                reason: 0,
                channel: 0,
            },
            Err(e) => PassedOver {
                number: u32::from(e),
                reason: 0,
                channel: 0,
            },
        }
    }
}
