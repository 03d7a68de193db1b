// Keys that are out of line, and what scene and time draw.
ghost use Rattle.std.specs.Prelude.{◌≡◌};
ghost use Rattle.refusals.specs.Drawn.{number_drawn};
ghost use Rattle.model.specs.Lists.{any_of};
ghost use Rattle.wire.specs.Bytes.{words_in, floats_in};
ghost use Rattle.tracks.specs.Tracks.{table_number};
ghost use Rattle.tables.specs.Tags.{track_for};
ghost use Rattle.checks.specs.declared.Table.TheVariants as table;
ghost use Rattle.pose_slots.specs.Channels.{channel_in, channels_in};
ghost use Rattle.pose.specs.Lines.{out_of_line, NoneDrawn};
ghost use Rattle.lent_bytes.specs.Bytes.{lent_of_bytes};
ghost use Rattle.byte_checks.specs.Bytes.{TableThere};
ghost use Rattle.byte_checks.specs.Scene.{scene_number};

use crate::numbers::check_tables;
use crate::records::channel_row;
use lent_bytes::LentBytes;
use refusals::Refusal;
use tables::ChannelRow;
use tracks::Part;

// Whether a channel is an even track that is aimed at one of n nodes and has keys that are not in line.
fn is_out_of_line(floats: &[u8], row: ChannelRow, n: usize) -> bool
    requires { table_number (floats_in floats.now) (track_for row) ≡ 0 }
    ensures { result ≡ out_of_line n (channel_in (floats_in floats.now) row) }
{
    if (row.target as usize) < n {
        return byte_tracks::check_sample(floats, tables::track_of(row), 0.0)
            == Err(Refusal::KeysOutOfLine);
    }
    false
}

// Whether there is such a channel.
fn some_out_of_line(words: &[u8], floats: &[u8], channels: Part, n: usize) -> bool
    requires { TableThere words.now channels table.Channels
        × NoneDrawn (words_in words.now) (floats_in floats.now) channels }
    ensures { result ≡ any_of (out_of_line n)
        (channels_in (words_in words.now) (floats_in floats.now) channels) }
{
    let count = channels.count;
    for k in 0..count {
        if is_out_of_line(floats, channel_row(words, channels, k), n) {
            return true;
        }
    }
    false
}

// What scene and time draw, whatever room is lent.
pub fn check_scene(lent: LentBytes, time: f32) -> Result<(), Refusal>
    ensures { number_drawn result ≡ scene_number (lent_of_bytes lent.entry) time }
{
    check_tables(lent)?;
    if float::is_nan(time) {
        return Err(Refusal::NoTime);
    }
    let graph = lent.header.graph;
    if some_out_of_line(
        lent.words,
        lent.floats,
        lent.header.channels,
        graph.nodes.count,
    ) {
        return Err(Refusal::KeysOutOfLine);
    }
    Ok(())
}
