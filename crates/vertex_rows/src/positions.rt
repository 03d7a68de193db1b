ghost use Rattle.std.specs.Prelude.{◌≡◌, map};
ghost use Rattle.model.specs.Lists.{rows_in};
ghost use Rattle.model.specs.Vertices.{affine_point, transformed_point};
ghost use Rattle.model.specs.Attributes.{over_rows};
ghost use Rattle.model.specs.Vector.{Vector};
ghost use Rattle.vertex_rows.specs.Rows.{row_changed, has_plain_bottom, Makes};

use crate::rows::{load3, store3};
use scene::{Mat4, Vec3};

// Moves position k, if there is one, with no perspective division.
pub fn move_position(m: Mat4, positions: &mut [f32], k: usize)
    ensures { positions.new ≡ row_changed 3 (affine_point m.m) k positions.old }
{
    if k < positions.len() / 3 {
        let p = load3(positions, k * 3);
        store3(positions, k * 3, scene::affine_point(m, p));
    }
}

// Replaces each position by what f makes of it.
fn move_each<F: Fn(Vec3) -> Vec3>(f: F, positions: &mut [f32])
    requires { F.IsAlwaysCallable f }
    ensures { (g : Vector → Vector) → Makes (F.post f) g → positions.new ≡ over_rows 3
        (map g (rows_in 3 positions.old)) positions.old }
{
    for k in 0..positions.len() / 3 {
        let p = load3(positions, k * 3);
        store3(positions, k * 3, f(p));
    }
}

// Whether the bottom row is (0, 0, 0, 1).
fn has_plain_bottom(m: Mat4) -> bool
    ensures { result ≡ has_plain_bottom m.m }
{
    (m.m[12] == 0.0) & (m.m[13] == 0.0) & (m.m[14] == 0.0) & (m.m[15] == 1.0)
}

// Moves all positions. A plain bottom row never divides: with it, w is 1, or NaN where a position is not finite.
pub fn transform_positions(m: Mat4, positions: &mut [f32])
    ensures { positions.new ≡ over_rows 3
        (map (transformed_point m.m) (rows_in 3 positions.old)) positions.old }
{
    if has_plain_bottom(m) {
        move_each(|p| scene::affine_point(m, p), positions);
        return;
    }
    move_each(|p| scene::transform_point(m, p), positions);
}
