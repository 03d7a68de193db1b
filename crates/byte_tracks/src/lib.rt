// What a call for the value of a track draws, of a table of floats in bytes, read from the bytes with no room to decode
// into.
#![tactic(auto)]

ghost use Rattle.std.specs.Prelude.{◌≡◌};
ghost use Rattle.model.specs.Limits.{weight_limit};
ghost use Rattle.model.specs.Sampling.{in_line};
ghost use Rattle.model.specs.Refusals.{sample_number};
ghost use Rattle.refusals.specs.Drawn.{number_drawn};
ghost use Rattle.wire.specs.Bytes.{floats_in};
ghost use Rattle.tracks.specs.Tracks.{track_in, table_number};

use refusals::Refusal;
use tracks::Track;

// Whether every key is finite and above the one before; bytes past the last whole float are not counted. Beside the one
// of `tracks`: a trait for where the next key is read would be longer than either.
pub fn keys_in_line(keys: &[u8]) -> bool
    ensures { result ≡ in_line (floats_in keys.now) }
{
    let count = keys.len() / 4;
    if count == 0 {
        return true;
    }
    let mut last = wire::float_at(keys, 0);
    let mut rising = float::is_finite(last);
    for i in 1..count {
        let key = wire::float_at(keys, i);
        rising = rising & (last < key);
        last = key;
    }
    rising & float::is_finite(last)
}

// The bytes of a track's keys.
fn keys_of(table: &[u8], t: Track) -> &[u8]
    requires { table_number (floats_in table.now) t ≡ 0 }
    ensures { floats_in result.now ≡ (track_in (floats_in table.now) t).keys }
{
    let keys = t.keys;
    let start = keys.at * 4;
    let end = start + keys.count * 4;
    &table[start..end]
}

// What a call for the value of a track draws, as far as 5: a scalar track that is not over size has room for its
// weights.
pub fn check_sample(table: &[u8], t: Track, time: f32) -> Result<(), Refusal>
    ensures { number_drawn result ≡ sample_number (table_number (floats_in table.now) t)
        (track_in (floats_in table.now) t) time weight_limit }
{
    tracks::check_in(table.len() / 4, t)?;
    if float::is_nan(time) {
        return Err(Refusal::NoTime);
    }
    if tracks::track_stride(t) == 0 {
        return Err(Refusal::UnevenTrack);
    }
    if !keys_in_line(keys_of(table, t)) {
        return Err(Refusal::KeysOutOfLine);
    }
    Ok(())
}
