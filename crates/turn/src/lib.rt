// The turn weight of a Linear rotation: the f64 series in forty fixed steps.
#![tactic(auto)]

ghost use Rattle.std.specs.Prelude.{◌≡◌, ◌≤◌};
ghost use Rattle.turn.specs.Weight.{step, series, weight};

// Step i of the series: 1 + ((i * i - v * v) * (1 - c) / (i * (2 * i + 1))) * g, with vv for v * v and d for 1 - c.
fn series_step(i: u32, vv: f64, d: f64, g: f64) -> f64
    requires { i ≤ 40 }
    ensures { result ≡ step i vv d g }
{
    let square = (i * i) as f64;
    let k = (i * (2 * i + 1)) as f64;
    1.0 + (square - vv) * d / k * g
}

// v times the series, from step 40 down to step 1.
fn series(v: f64, c: f64) -> f64
    ensures { result ≡ series v c }
{
    let vv = v * v;
    let d = 1.0 - c;
    let mut g = 1.0;
    for i in (1..=40).rev() {
        g = series_step(i, vv, d, g);
    }
    v * g
}

// The turn weight W(v, c).
pub fn turn_weight(v: f32, c: f32) -> f32
    ensures { result ≡ weight v c }
{
    float::narrow(series(float::widen(v), float::widen(c)))
}
