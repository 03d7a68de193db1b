// Directions in rows of three or four floats, turned in blocks of sixteen: the roots of a block are taken together,
// which is faster than one after each row.
ghost use Rattle.std.specs.Prelude.{◌≡◌, map, ◌+◌, ◌-◌, ◌*◌, ◌/◌, ◌≤◌, ◌<◌, length};
ghost use Rattle.model.specs.Lists.{or_else, row, rows_in};
ghost use Rattle.model.specs.Vector.{norm, normalized};
ghost use Rattle.model.specs.Attributes.{over_rows};
ghost use Rattle.scene.specs.Values.{vec3, mat3};
ghost use Rattle.vertex_rows.specs.Rows.{row_changed, first_rows};
ghost use Rattle.transform.specs.Blocks.{xyz_turned, begun, unit_over, rows_from, lengths_of};

use crate::packed::{divided, gather, gather_turned, squares, turn, units};
use scene::{Mat3, Vec3};
use square_root::Roots;
use vertex_rows::{load3, store3};

// The direction d divided by its length, which is given; v where there is no length to divide by.
fn unit_or(d: Vec3, len: f32, v: Vec3) -> Vec3
    requires { len ≡ norm (vec3 d) }
    ensures { vec3 result ≡ or_else (normalized (vec3 d)) (vec3 v) }
{
    if float::is_finite(len) {
        if len > 0.0 {
            return divided(d, len);
        }
    }
    v
}

// Puts d, divided by its length, in row k; where it has none, the row stays.
fn put_unit(d: Vec3, len: f32, w: usize, s: &mut [f32], k: usize)
    requires { (3 ≤ w) × (k < length s.old / w) × (len ≡ norm (vec3 d)) }
    ensures { s.new ≡ row_changed w (unit_over (vec3 d)) k s.old }
{
    let v = load3(s, k * w);
    store3(s, k * w, unit_or(d, len, v));
}

// Puts each direction that has a length, divided by that, in rows k to k + 15.
fn put_each(d: &[f32; 48], r: Roots, w: usize, s: &mut [f32], k: usize)
    requires { (3 ≤ w) × ((k + 16) * w ≤ length s.old) × (r.of ≡ lengths_of d.now) }
    ensures { s.new ≡ rows_from w (λ i. unit_over (row 3 d.now i)) k s.old 16 }
{
    let n = r.of;
    for i in 0..16 {
        let v = load3(d, i * 3);
        put_unit(v, n[i], w, s, k + i);
    }
}

fn put_row(v: Vec3, w: usize, s: &mut [f32], k: usize)
    requires { (3 ≤ w) × (k < length s.old / w) }
    ensures { s.new ≡ row_changed w (begun (vec3 v)) k s.old }
{
    store3(s, k * w, v);
}

// Puts the directions in rows k to k + 15.
fn put(d: &[f32; 48], w: usize, s: &mut [f32], k: usize)
    requires { (3 ≤ w) × ((k + 16) * w ≤ length s.old) }
    ensures { s.new ≡ rows_from w (λ i. begun (row 3 d.now i)) k s.old 16 }
{
    for i in 0..16 {
        put_row(load3(d, i * 3), w, s, k + i);
    }
}

// Puts the directions, each divided by its length, in rows k to k + 15; where one has none, the row stays. They are
// divided in place.
pub fn put_units(d: &mut [f32; 48], w: usize, s: &mut [f32], k: usize)
    requires { (3 ≤ w) × ((k + 16) * w ≤ length s.old) }
    ensures { s.new ≡ rows_from w (λ i. unit_over (row 3 d.old i)) k s.old 16 }
{
    let r = square_root::sqrt_block(squares(d));
    if r.normal {
        units(d, r);
        put(d, w, s, k);
        return;
    }
    put_each(d, r, w, s, k);
}

// The two below have the width written out: loops over rows of a width that is not known until they run are not turned
// into vector lanes.

// Turns normals k to k + 15.
fn turn_normal_block(l: Mat3, normals: &mut [f32], k: usize)
    requires { (k + 16) * 3 ≤ length normals.old }
    ensures { normals.new ≡ rows_from 3 (λ _. xyz_turned (mat3 l)) k normals.old 16 }
{
    let mut d = [0.0f32; 48];
    let r = square_root::sqrt_block(gather_turned(l, 3, normals, k, &mut d));
    if r.normal {
        units(&mut d, r);
        put(&d, 3, normals, k);
        return;
    }
    put_each(&d, r, 3, normals, k);
}

// Turns tangents k to k + 15. d is only room for their directions. It is lent, since an array of its own would be seen
// to end here: the divisions would then be done row by row as they are stored, and not four at once.
fn turn_tangent_block(l: Mat3, tangents: &mut [f32], k: usize, d: &mut [f32; 48])
    requires { (k + 16) * 4 ≤ length tangents.old }
    ensures { tangents.new ≡ rows_from 4 (λ _. xyz_turned (mat3 l)) k tangents.old 16 }
{
    gather(4, tangents, k, d);
    let r = square_root::sqrt_block(turn(l, d));
    if r.normal {
        units(d, r);
        put(d, 4, tangents, k);
        return;
    }
    put_each(d, r, 4, tangents, k);
}

fn turn_block(l: Mat3, w: usize, s: &mut [f32], k: usize, d: &mut [f32; 48])
    requires { (3 ≤ w) × (w ≤ 4) × ((k + 16) * w ≤ length s.old) }
    ensures { s.new ≡ rows_from w (λ _. xyz_turned (mat3 l)) k s.old 16 }
{
    if w == 3 {
        turn_normal_block(l, s, k);
        return;
    }
    turn_tangent_block(l, s, k, d);
}

// Turns all whole blocks.
fn turn_blocks(l: Mat3, w: usize, s: &mut [f32])
    requires { (3 ≤ w) × (w ≤ 4) }
    ensures { s.new ≡ first_rows w (λ _. xyz_turned (mat3 l)) s.old
        (length s.old / w / 16 * 16) }
{
    let n = s.len() / w / 16;
    let mut d = [0.0f32; 48];
    for b in 0..n {
        turn_block(l, w, s, b * 16, &mut d);
    }
}

// Turns row k.
fn turn_row(l: Mat3, w: usize, s: &mut [f32], k: usize)
    requires { (3 ≤ w) × (k < length s.old / w) }
    ensures { s.new ≡ row_changed w (xyz_turned (mat3 l)) k s.old }
{
    let d = scene::mul3(l, load3(s, k * w));
    put_unit(d, scene::vec3_len(d), w, s, k);
}

// Turns the rows past the last whole block.
fn turn_rest(l: Mat3, w: usize, s: &mut [f32])
    requires { 3 ≤ w }
    ensures { s.new ≡ rows_from w (λ _. xyz_turned (mat3 l)) (length s.old / w / 16 * 16)
        s.old (length s.old / w - length s.old / w / 16 * 16) }
{
    let n = s.len() / w;
    let k = n / 16 * 16;
    for i in 0..n - k {
        turn_row(l, w, s, k + i);
    }
}

// Turns the directions that the rows of w floats begin with.
pub(crate) fn turn_rows(l: Mat3, w: usize, s: &mut [f32])
    requires { (3 ≤ w) × (w ≤ 4) }
    ensures { s.new ≡ over_rows w (map (xyz_turned (mat3 l)) (rows_in w s.old))
        s.old }
{
    turn_blocks(l, w, s);
    turn_rest(l, w, s);
}
