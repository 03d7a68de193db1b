// The refusals of the scope's table, their numbers, and its limits as constants. crates/model/specs/Refusals.antt and
// Limits.antt have the same for the contracts.
#![tactic(auto)]

ghost use Rattle.std.specs.Prelude.{◌≡◌};
ghost use Rattle.refusals.specs.Drawn.{number_of, number_drawn};

// Why a call is turned down. The lowest one that applies is answered.
#[derive(Clone, Copy, PartialEq, Eq, PartialOrd, Ord)]
pub enum Refusal {
    // Short stock: an offset or count leaves its table.
    OutOfTable = 1,
    // Over size: a limit is passed.
    OverLimit,
    // No time: the time is NaN.
    NoTime,
    // Uneven track.
    UnevenTrack,
    // Keys out of line.
    KeysOutOfLine,
    // Short bench: walk room, pose slots, world slots, or the room that bytes are decoded into.
    ShortScratch,
    // No such piece.
    NoSuchNode,
    // Unplaced.
    UnplacedNode,
    // No palette.
    NoPalette,
    // Short sheet.
    ShortOutput,
    // No common root.
    NoCommonRoot,
    // No such frame.
    NoSuchFrame,
    // Bad form: a text has no reading.
    BadForm,
}

// The refusal's number in the table.
impl From<Refusal> for u32 {
    ghost from_gives = { λ r n. n ≡ number_of r };

    fn from(r: Refusal) -> u32 {
        r as u32
    }
}

// The number of what a call draws: 0 where it is accepted.
pub fn number<T: Drop>(answer: Result<T, Refusal>) -> u32
    ensures { result ≡ number_drawn answer }
{
    match answer {
        Ok(_) => 0,
        Err(r) => u32::from(r),
    }
}

pub const NODE_LIMIT: usize = 1024;

pub const ROOT_LIMIT: usize = 1024;

pub const CHILD_ENTRY_LIMIT: usize = 8192;

pub const CHANNEL_LIMIT: usize = 1024;
// Of one track.
pub const KEY_LIMIT: usize = 65535;
// A frame of an even scalar track.
pub const WEIGHT_LIMIT: usize = 64;
// Of one skeleton.
pub const JOINT_LIMIT: usize = 256;
// Of one mesh.
pub const PRIMITIVE_LIMIT: usize = 64;
// In each attribute and delta slot of a primitive.
pub const VERTEX_LIMIT: usize = 65535;
// Of one primitive.
pub const TARGET_LIMIT: usize = 64;
// Of one target.
pub const IN_BETWEEN_LIMIT: usize = 16;
