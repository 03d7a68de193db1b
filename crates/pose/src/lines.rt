ghost use Rattle.std.specs.Prelude.{◌≡◌, List, Float};
ghost use Rattle.model.specs.Refusals.{some_keys_out_of_line};
ghost use Rattle.tracks.specs.Tracks.{table_number};
ghost use Rattle.tables.specs.Tags.{track_for};
ghost use Rattle.tables.specs.Decoded.{scene_of};
ghost use Rattle.checks.specs.Drawn.{lent_as};
ghost use Rattle.pose_slots.specs.Channels.{channel_in};
ghost use Rattle.pose.specs.Lines.{out_of_line, NoneDrawn};

use refusals::{Refusal, WEIGHT_LIMIT};
use tables::{ChannelRow, Lent};

// Whether a channel is an even track that is aimed at one of n nodes and has keys that are not in line.
fn is_out_of_line(floats: &[f32], row: ChannelRow, n: usize) -> bool
    requires { table_number floats.now (track_for row) ≡ 0 }
    ensures { result ≡ out_of_line n (channel_in floats.now row) }
{
    if (row.target as usize) < n {
        return animation::check_sample(floats, tables::track_of(row), 0.0, WEIGHT_LIMIT)
            == Err(Refusal::KeysOutOfLine);
    }
    false
}

// Whether there is such a channel: a stage, for tables that draw no number.
pub fn keys_out_of_line(lent: Lent) -> bool
    requires { NoneDrawn lent.words.now lent.floats.now lent.header.channels }
    ensures { (own mesh : List Float) → result ≡ some_keys_out_of_line
        (scene_of (lent_as lent.entry.words.now lent.entry.floats.now own mesh lent.entry.header)) }
{
    let channels = lent.header.channels;
    let n = lent.header.graph.nodes.count;
    for k in 0..channels.count {
        if is_out_of_line(lent.floats, tables::channel_row(lent.words, channels, k), n) {
            return true;
        }
    }
    false
}
