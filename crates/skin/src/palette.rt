ghost use Rattle.std.specs.Prelude.{◌≡◌, List, [], ◌++◌, ◌*◌, ◌≤◌, Float, length, drop};
ghost use Rattle.borrowed.specs.Slices.{change};
ghost use Rattle.model.specs.Lists.{every, joined, is_some, or_else};
ghost use Rattle.model.specs.Matrix.{mul};
ghost use Rattle.model.specs.Skin.{palette_of};
ghost use Rattle.scene.specs.Slots.{matrix_in};
ghost use Rattle.worlds.specs.Slots.{world_in};
ghost use Rattle.skin.specs.Palette.{has_world, skeleton_in, bind_in, palette_in, laid_out, Counted, Laid};

use crate::skeletons::skeleton_of;
use scene::Mat4;
use tables::Lent;

// Whether node j of n has a world.
pub fn is_placed(j: u32, n: usize, places: &[u32]) -> bool
    ensures { result ≡ has_world n places.now j }
{
    let i = j as usize;
    if i < n {
        if i < places.len() {
            return tables::is_marked(places[i]);
        }
    }
    false
}

// Whether every joint has a world.
fn all_placed(joints: &[u32], n: usize, places: &[u32]) -> bool
    ensures { result ≡ every (has_world n places.now) joints.now }
{
    for i in 0..joints.len() {
        if !is_placed(joints[i], n, places) {
            return false;
        }
    }
    true
}

// Whether joints and their inverse binds make a palette: some binds, but too few, do not.
fn is_whole(joints: &[u32], binds: &[f32], n: usize, places: &[u32]) -> bool
    ensures { (slots : List Float) → result ≡ is_some
        (palette_of (world_in n places.now slots) (skeleton_in joints.now binds.now)) }
{
    let given = binds.len() / 16;
    if given != 0 {
        if given < joints.len() {
            return false;
        }
    }
    all_placed(joints, n, places)
}

// How many joint matrices the palette of a skin has, with the codes of the nodes' places; it does not hang on the
// worlds.
pub fn palette_count(lent: Lent, skin: u32, places: &[u32]) -> Option<usize>
    ensures { Counted lent.entry.words.now lent.entry.floats.now lent.entry.header skin places.now result }
{
    let h = lent.header;
    let Some(row) = skeleton_of(lent.words, h, skin) else {
        return None;
    };
    let joints = tables::words_in(lent.words, row.joints, 1);
    let binds = tables::floats_in(lent.floats, row.inverse_binds, 16);
    if is_whole(joints, binds, h.graph.nodes.count, places) {
        return Some(joints.len());
    }
    None
}

// The inverse bind matrix at `at`; the identity where none are given.
fn bind_at(binds: &[f32], at: usize) -> Mat4
    ensures { result.m ≡ bind_in binds.now at }
{
    if binds.len() < 16 {
        return scene::identity();
    }
    scene::load(binds, at)
}

// The world of a joint times its inverse bind, which is at `at`. The identity is multiplied too: that turns -0 into 0.
fn joint_matrix(joint: u32, worlds: &[f32], binds: &[f32], at: usize) -> Mat4
    ensures { result.m ≡ mul (matrix_in worlds.now (joint * 16)) (bind_in binds.now at) }
{
    scene::mat4_mul(scene::load(worlds, joint as usize * 16), bind_at(binds, at))
}

// Writes the matrix of each joint to the start of `out`.
fn write_joints(joints: &[u32], binds: &[f32], worlds: &[f32], out: &mut [f32])
    requires { length joints.now * 16 ≤ length out.old }
    ensures { out.new ≡ joined (λ m. m)
        (palette_in joints.now binds.now worlds.now)
        ++ drop (length joints.now * 16) out.old }
{
    for t in 0..joints.len() {
        let at = t * 16;
        let m = joint_matrix(joints[t], worlds, binds, at);
        scene::store(out, at, m);
    }
}

// Writes the palette of joints and inverse binds, if there is one and `out` has room for it.
fn lay_out(joints: &[u32], binds: &[f32], n: usize, places: &[u32], worlds: &[f32], out: &mut [f32])
    ensures { out.new ≡ laid_out (or_else
        (palette_of (world_in n places.now worlds.now)
        (skeleton_in joints.now binds.now)) []) out.old }
{
    if !is_whole(joints, binds, n, places) {
        return;
    }
    if out.len() / 16 < joints.len() {
        return;
    }
    write_joints(joints, binds, worlds, out);
}

// Writes the palette of a skin to the start of `out`, if there is one and `out` has room for it.
pub fn write_palette(lent: Lent, skin: u32, places: &[u32], worlds: &[f32], out: &mut [f32])
    ensures { Laid lent.entry.words.now lent.entry.floats.now lent.entry.header skin places.now
        worlds.now (change out) }
{
    let h = lent.header;
    let Some(row) = skeleton_of(lent.words, h, skin) else {
        return;
    };
    let joints = tables::words_in(lent.words, row.joints, 1);
    let binds = tables::floats_in(lent.floats, row.inverse_binds, 16);
    lay_out(joints, binds, h.graph.nodes.count, places, worlds, out);
}
