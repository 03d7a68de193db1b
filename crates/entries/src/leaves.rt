// The numeric leaves over whole slices. Each writes as many results as there are inputs and room for them, and answers
// how many; past these `out` stays as lent. Then the roots of a block of sixteen.
ghost use Rattle.std.specs.Prelude.{◌≡◌};
ghost use mathlib.Core.List.{map, zip_with};
ghost use Rattle.std.specs.Float.{binary32};
ghost use Rattle.float.specs.Narrow.{narrow_of};
ghost use Rattle.square_root.specs.Normal.{all_normal};
ghost use Rattle.float.specs.Sqrt.{sqrt_of};
ghost use Rattle.turn.specs.Weight.{weight};
ghost use Rattle.borrowed.specs.Written.{Writes};

// The root of each x.
#[unsafe(no_mangle)]
pub extern "C" fn mesh3d_sqrt_all(xs: &[f32], out: &mut [f32]) -> usize
    ensures { Writes (map (sqrt_of binary32) xs.now) out result }
{
    let n = xs.len().min(out.len());
    for i in 0..n {
        out[i] = square_root::sqrt(xs[i]);
    }
    n
}

// Each x narrowed.
#[unsafe(no_mangle)]
pub extern "C" fn mesh3d_narrow_all(xs: &[f64], out: &mut [f32]) -> usize
    ensures { Writes (map narrow_of xs.now) out result }
{
    let n = xs.len().min(out.len());
    for i in 0..n {
        out[i] = float::narrow(xs[i]);
    }
    n
}

// The turn weight at each v and c.
#[unsafe(no_mangle)]
pub extern "C" fn mesh3d_turn_weight_all(vs: &[f32], cs: &[f32], out: &mut [f32]) -> usize
    ensures { Writes (zip_with weight vs.now cs.now) out result }
{
    let n = vs.len().min(cs.len()).min(out.len());
    for i in 0..n {
        out[i] = turn::turn_weight(vs[i], cs[i]);
    }
    n
}

// The root of each x, and whether all are normal.
#[unsafe(no_mangle)]
pub extern "C" fn mesh3d_sqrt_block(xs: &[f32; 16], out: &mut [f32; 16]) -> bool
    ensures { (out.new ≡ map (sqrt_of binary32) xs.now) × (result ≡ all_normal xs.now) }
{
    let of = *xs;
    let r = square_root::sqrt_block(square_root::Block { of });
    let s = r.of;
    *out = s;
    r.normal
}
