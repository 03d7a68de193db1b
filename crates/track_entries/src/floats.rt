// The calls of `animation` over a table of floats. A track is handed in by numbers: the kind is 0 for Vec3, 1 for Quat
// and 2 for scalar, the interpolation 0 for Step, 1 for Linear and 2 for CubicSpline; then where its keys start and
// how many there are, and the same of its values, which are counted by the kind's entries. A kind or interpolation
// that names nothing draws 2, or 1 where the track leaves the table; the values of such a kind are counted as weights.
ghost use Rattle.std.specs.Prelude.{◌≡◌, Bool, not, ◌&&◌, ◌++◌, drop};
ghost use Rattle.scene.specs.Values.{vec3, quat};
ghost use Rattle.model.specs.Sampling.{in_line};
ghost use Rattle.refusals.specs.Drawn.{number_of};
ghost use Rattle.tracks.specs.Tracks.{keys_fit, values_fit};
ghost use Rattle.animation.specs.Values.{answer_of};
ghost use Rattle.tables.specs.Tags.{is_marked, track_for};
ghost use Rattle.row_checks.specs.Bounds.{tags_known};
ghost use Rattle.track_entries.specs.Tracks.{row_for, sampled_for, frame_in, stride_for, mark_of};
ghost use Rattle.track_entries.specs.Tracks.{Samples, Frames};

use animation::SampledValue;
use refusals::Refusal;
use scene::{Quat, Vec3};
use tables::ChannelRow;
use tracks::{Part, Track};

// The numbers of a track, as a channel's.
pub(crate) fn row_for(
    kind: u32,
    interpolation: u32,
    keys_at: usize,
    keys_count: usize,
    values_at: usize,
    values_count: usize,
) -> ChannelRow
    ensures { result ≡ row_for kind interpolation keys_at keys_count values_at values_count }
{
    ChannelRow {
        target: 0,
        property: 0,
        kind,
        interpolation,
        keys: Part {
            at: keys_at,
            count: keys_count,
        },
        values: Part {
            at: values_at,
            count: values_count,
        },
    }
}

// Whether kind or interpolation of a track that lies in a table of so many floats names nothing.
pub(crate) fn is_unnamed(len: usize, row: ChannelRow) -> bool
    ensures { result ≡ (not (tags_known row) && (keys_fit len (track_for row) && values_fit len (track_for row))) }
{
    if row_checks::tags_known(row) {
        return false;
    }
    tracks::lies_in(len, tables::track_of(row))
}

// The lent array with v at its start.
fn vec3_over(v: Vec3, lent: [f32; 4]) -> [f32; 4]
    ensures { result ≡ vec3 v ++ drop 3 lent }
{
    let mut array = lent;
    array[0] = v.x;
    array[1] = v.y;
    array[2] = v.z;
    array
}

// The lent array with q in its place.
fn quat_over(q: Quat, lent: [f32; 4]) -> [f32; 4]
    ensures { result ≡ quat q ++ drop 4 lent }
{
    let mut array = lent;
    array[0] = q.x;
    array[1] = q.y;
    array[2] = q.z;
    array[3] = q.w;
    array
}

// A refusal number, or 0, and how many floats were written to the lent slice.
#[repr(C)]
#[derive(Clone, Copy)]
pub struct Told {
    pub number: u32,
    pub count: usize,
}

// A refusal's number, and no count.
pub(crate) fn refused(r: Refusal) -> Told
    ensures { result ≡ record { number = number_of r; count = 0 } }
{
    Told {
        number: u32::from(r),
        count: 0,
    }
}

// The value of a track at a time, by its numbers.
fn sample_row(
    floats: &[f32],
    row: ChannelRow,
    time: f32,
    out: &mut [f32],
) -> Result<SampledValue, Refusal>
    ensures { answer_of result out.new ≡ sampled_for floats.now row time out.old }
{
    if is_unnamed(floats.len(), row) {
        return Err(Refusal::OverLimit);
    }
    animation::sample(floats, tables::track_of(row), time, out)
}

// The value of a track at a time. A Vec3 or Quat is written to the start of `value`, the weights of a scalar track to
// the start of `out`, and these are counted; otherwise both stay as lent.
#[unsafe(no_mangle)]
pub extern "C" fn mesh3d_sample_floats(
    floats: &[f32],
    kind: u32,
    interpolation: u32,
    keys_at: usize,
    keys_count: usize,
    values_at: usize,
    values_count: usize,
    time: f32,
    value: &mut [f32; 4],
    out: &mut [f32],
) -> Told
    ensures { Samples floats.now
        (row_for kind interpolation keys_at keys_count values_at values_count) time value out result }
{
    let row = row_for(
        kind,
        interpolation,
        keys_at,
        keys_count,
        values_at,
        values_count,
    );
    match sample_row(floats, row, time, out) {
        Ok(SampledValue::Vec3(v)) => {
            let lent = *value;
            *value = vec3_over(v, lent);
            Told {
                number: 0,
                count: 0,
            }
        }
        Ok(SampledValue::Quat(q)) => {
            let lent = *value;
            *value = quat_over(q, lent);
            Told {
                number: 0,
                count: 0,
            }
        }
        Ok(SampledValue::Scalar(count)) => Told { number: 0, count },
        Err(r) => refused(r),
    }
}

// The part that is asked for: three rows of a cubic spline, or the weights alone.
fn frame_in<'a>(floats: &'a [f32], t: Track, rows: bool, k: usize) -> &'a [f32]
    ensures { result.now ≡ frame_in floats.now t rows k }
{
    if rows {
        return animation::morph_weight_cubic_frame(floats, t, k);
    }
    animation::morph_weight_frame(floats, t, k)
}

// Copies the weights of frame k or, where the mark is not 0, all three rows, to the start of `out`. Where a number is
// answered, nothing is changed.
#[unsafe(no_mangle)]
pub extern "C" fn mesh3d_frame_floats(
    floats: &[f32],
    kind: u32,
    interpolation: u32,
    keys_at: usize,
    keys_count: usize,
    values_at: usize,
    values_count: usize,
    rows: u32,
    k: usize,
    out: &mut [f32],
) -> Told
    ensures { Frames floats.now
        (row_for kind interpolation keys_at keys_count values_at values_count) (is_marked rows) k out result }
{
    let row = row_for(
        kind,
        interpolation,
        keys_at,
        keys_count,
        values_at,
        values_count,
    );
    if is_unnamed(floats.len(), row) {
        return refused(Refusal::OverLimit);
    }
    let t = tables::track_of(row);
    let rows = tables::is_marked(rows);
    let drawn = animation::check_frame(floats, t, rows, k);
    match outputs::copy_out(drawn, frame_in(floats, t, rows, k), out) {
        Ok(count) => Told { number: 0, count },
        Err(r) => refused(r),
    }
}

// The weights per frame of an even scalar track, and 0 of any other, or where the track draws 1 or 2.
#[unsafe(no_mangle)]
pub extern "C" fn mesh3d_stride_floats(
    floats: &[f32],
    kind: u32,
    interpolation: u32,
    keys_at: usize,
    keys_count: usize,
    values_at: usize,
    values_count: usize,
) -> usize
    ensures { result ≡ stride_for floats.now
        (row_for kind interpolation keys_at keys_count values_at values_count) }
{
    let row = row_for(
        kind,
        interpolation,
        keys_at,
        keys_count,
        values_at,
        values_count,
    );
    if is_unnamed(floats.len(), row) {
        return 0;
    }
    animation::morph_weight_stride(floats, tables::track_of(row))
}

// 1 where every key is finite and above the one before, and otherwise 0.
#[unsafe(no_mangle)]
pub extern "C" fn mesh3d_keys_in_line_floats(keys: &[f32]) -> u32
    ensures { result ≡ mark_of (in_line keys.now) }
{
    if tracks::keys_in_line(keys) {
        return 1;
    }
    0
}
