ghost use Rattle.std.specs.Prelude.{◌≡◌, ◌+◌, min};
ghost use Rattle.tables.specs.Records.{in_between_row, target_row};

use tables::{Header, InBetweenRow, TargetRow};
use tracks::Part;

// Record number k of those that start at number `at`, cut off at `room`, past which no record has words.
fn number_of(at: usize, k: usize, room: usize) -> usize
    ensures { result ≡ min (at + k) room }
{
    if at < room {
        if k < room - at {
            return at + k;
        }
    }
    room
}

// The target number k of a part.
pub fn target_at(words: &[u32], h: Header, targets: Part, k: usize) -> TargetRow
    ensures { result ≡ target_row words.now h.meshes.targets (targets.at + k) }
{
    tables::target_row(
        words,
        h.meshes.targets,
        number_of(targets.at, k, words.len()),
    )
}

// The in-between number k of a part.
pub(crate) fn between_at(words: &[u32], h: Header, betweens: Part, k: usize) -> InBetweenRow
    ensures { result ≡ in_between_row words.now h.meshes.in_betweens (betweens.at + k) }
{
    tables::in_between_row(
        words,
        h.meshes.in_betweens,
        number_of(betweens.at, k, words.len()),
    )
}
