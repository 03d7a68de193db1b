// A track sampled in a table of bytes: little-endian floats, and a track's numbers as for a table of floats. The table
// is decoded into lent room. Bytes past the last whole float are not counted, and a NaN is written 7fc00000.
ghost use Rattle.std.specs.Prelude.{◌≡◌, ◌/◌, ◌*◌, ◌≤◌, min, length};
ghost use Rattle.std.specs.Float.{binary32};
ghost use Rattle.std.specs.Float.Ieee.{of_bits};
ghost use Rattle.model.specs.Limits.{weight_limit};
ghost use Rattle.model.specs.Bake.{written};
ghost use Rattle.animation.specs.Values.{answer_of};
ghost use Rattle.refusals.specs.Drawn.{number_drawn};
ghost use Rattle.wire.specs.Bytes.{floats_in};
ghost use Rattle.track_entries.specs.Tracks.{row_for, sampled_in};
ghost use Rattle.track_entries.specs.Bytes.{first_in_bytes, sampled_in_bytes, sampled_for_bytes};
ghost use Rattle.track_entries.specs.Bytes.{DeliveredBytes, SampledBytes};

use crate::floats::{Told, is_unnamed, refused, row_for};
use animation::SampledValue;
use refusals::{Refusal, WEIGHT_LIMIT};
use tracks::Track;

// What the call draws as far as 6, with room to decode so many floats.
fn check_first(table: &[u8], t: Track, time: f32, room: usize) -> Result<(), Refusal>
    ensures { number_drawn result ≡ first_in_bytes table.now t time room }
{
    byte_tracks::check_sample(table, t, time)?;
    if room < table.len() / 4 {
        return Err(Refusal::ShortScratch);
    }
    Ok(())
}

// The value of a track in a table that there is room to decode.
fn sample_decoded(
    table: &[u8],
    t: Track,
    time: f32,
    room: &mut [f32],
    weights: &mut [f32],
) -> Result<SampledValue, Refusal>
    requires { length table.now / 4 ≤ length room.old }
    ensures { (answer_of result weights.new
        ≡ sampled_in (floats_in table.now) t time weights.old)
        × (room.new ≡ written (floats_in table.now) room.old) }
{
    let n = wire::read(table, room);
    animation::sample(&room[..n], t, time, weights)
}

// The value of a track in any table.
fn sample_in(
    table: &[u8],
    t: Track,
    time: f32,
    room: &mut [f32],
    weights: &mut [f32],
) -> Result<SampledValue, Refusal>
    ensures { record { answer = answer_of result weights.new; room = room.new }
        ≡ sampled_in_bytes table.now t time room.old weights.old }
{
    check_first(table, t, time, room.len())?;
    sample_decoded(table, t, time, room, weights)
}

// Writes a Vec3 or Quat to `value`, or so many of the weights to `out`, and tells number and count.
fn deliver(sampled: SampledValue, weights: &[f32], value: &mut [u8; 16], out: &mut [u8]) -> Told
    requires { ((answer_of (Ok sampled) weights.now).weights ≤ length weights.now)
        × (4 * (answer_of (Ok sampled) weights.now).weights ≤ length out.old) }
    ensures { DeliveredBytes (answer_of (Ok sampled) weights.now) value.old value.new
        out.old out.new result }
{
    match sampled {
        SampledValue::Vec3(v) => {
            let floats = [v.x, v.y, v.z];
            wire::write(&floats, value);
            Told {
                number: 0,
                count: 0,
            }
        }
        SampledValue::Quat(q) => {
            let floats = [q.x, q.y, q.z, q.w];
            wire::write(&floats, value);
            Told {
                number: 0,
                count: 0,
            }
        }
        SampledValue::Scalar(n) => {
            let count = wire::write(&weights[..n], out);
            Told { number: 0, count }
        }
    }
}

// Samples with `weights` for as many as `out` has room for and a frame can have, and delivers.
fn sample_over(
    table: &[u8],
    t: Track,
    time: f32,
    room: &mut [f32],
    weights: &mut [f32],
    value: &mut [u8; 16],
    out: &mut [u8],
) -> Told
    requires { length weights.old ≡ min (length out.old / 4) weight_limit }
    ensures { SampledBytes (sampled_in_bytes table.now t time) room value out result }
{
    match sample_in(table, t, time, room, weights) {
        Ok(sampled) => deliver(sampled, weights, value, out),
        Err(r) => refused(r),
    }
}

// The value of a track at the time with the given bit pattern. A Vec3 or Quat is written to the start of `value`, the
// weights of a scalar track to the start of `out`, and these are counted; otherwise both stay as lent. The table is
// decoded to the start of `room`, and 6 is answered where that has fewer floats; where 1 to 6 is answered it stays as
// lent.
#[unsafe(no_mangle)]
pub extern "C" fn mesh3d_sample(
    table: &[u8],
    kind: u32,
    interpolation: u32,
    keys_at: usize,
    keys_count: usize,
    values_at: usize,
    values_count: usize,
    time: u32,
    room: &mut [f32],
    value: &mut [u8; 16],
    out: &mut [u8],
) -> Told
    ensures { SampledBytes (sampled_for_bytes table.now
        (row_for kind interpolation keys_at keys_count values_at values_count) (of_bits binary32 time))
        room value out result }
{
    let row = row_for(
        kind,
        interpolation,
        keys_at,
        keys_count,
        values_at,
        values_count,
    );
    if is_unnamed(table.len() / 4, row) {
        return refused(Refusal::OverLimit);
    }
    let t = tables::track_of(row);
    let time = float::from_bits(time);
    let mut weights = [0.0f32; WEIGHT_LIMIT];
    let most = (out.len() / 4).min(WEIGHT_LIMIT);
    sample_over(table, t, time, room, &mut weights[..most], value, out)
}
