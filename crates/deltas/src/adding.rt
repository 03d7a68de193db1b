ghost use Rattle.std.specs.Prelude.{◌≡◌, ◌++◌, ◌≤◌, ltb, length, get_or, take, drop};
ghost use Rattle.std.specs.Float.{nan};
ghost use Rattle.float.specs.F32.{zero32};
ghost use Rattle.model.specs.Lists.{pick, tabulate, rows_in};
ghost use Rattle.model.specs.Vector.{◌⊙◌, ◌⊞◌};
ghost use Rattle.model.specs.Morph.{with_deltas};
ghost use Rattle.model.specs.Attributes.{over_rows};
ghost use Rattle.deltas.specs.Deltas.{deltas_in};
ghost use Rattle.deltas.specs.Mixed.{mixed_in};

use tables::Slot;

// The deltas of a slot; none where it is absent.
pub fn deltas_in(floats: &[f32], s: Slot) -> &[f32]
    ensures { result.now ≡ deltas_in floats.now s }
{
    if tables::is_marked(s.mark) {
        return tables::floats_in(floats, s.part, 3);
    }
    &floats[0..0]
}

// Adds w times each delta to the row of three that it belongs to. It counts floats, and not rows, for speed.
pub fn add_scaled(out: &mut [f32], w: f32, deltas: &[f32])
    ensures { out.new ≡ over_rows 3 (with_deltas (λ v d. v ⊞ w ⊙ d) (rows_in 3 out.old)
        (rows_in 3 deltas.now)) out.old }
{
    let n = (out.len() / 3).min(deltas.len() / 3) * 3;
    for k in 0..n {
        out[k] = out[k] + w * deltas[k];
    }
}

// The same for tangents, rows of four, of which the fourth number stays.
pub fn add_tangents(out: &mut [f32], w: f32, deltas: &[f32])
    ensures { out.new ≡ over_rows 4 (with_deltas (λ v d. (take 3 v ⊞ w ⊙ d) ++ drop 3 v)
        (rows_in 4 out.old) (rows_in 3 deltas.now)) out.old }
{
    let n = (out.len() / 4).min(deltas.len() / 3);
    for i in 0..n {
        let o = i * 4;
        let d = i * 3;
        let x = out[o] + w * deltas[d];
        let y = out[o + 1] + w * deltas[d + 1];
        let z = out[o + 2] + w * deltas[d + 2];
        out[o] = x;
        out[o + 1] = y;
        out[o + 2] = z;
    }
}

// Float k of the first n; zero past these.
fn float_or_zero(floats: &[f32], n: usize, k: usize) -> f32
    requires { n ≤ length floats.now }
    ensures { result ≡ pick (ltb k n) (get_or floats.now k nan) zero32 }
{
    if k < n {
        return floats[k];
    }
    0.0
}

// Adds to each of the first `count` rows what lies t of the way from its low delta to its high one.
pub fn add_between(out: &mut [f32], t: f32, low: &[f32], high: &[f32], count: usize)
    ensures { out.new ≡ over_rows 3 (with_deltas ◌⊞◌ (rows_in 3 out.old)
        (tabulate count (mixed_in t low.now high.now))) out.old }
{
    let n = (out.len() / 3).min(count) * 3;
    let lows = low.len() / 3 * 3;
    let highs = high.len() / 3 * 3;
    for k in 0..n {
        let a = float_or_zero(low, lows, k);
        let b = float_or_zero(high, highs, k);
        out[k] = out[k] + (a + t * (b - a));
    }
}
