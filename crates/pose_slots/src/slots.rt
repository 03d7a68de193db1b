ghost use Rattle.std.specs.Prelude.{◌≡◌, ◌+◌, ◌*◌, ◌<◌, ◌≤◌, length};
ghost use Rattle.std.proofs.Math.Seq.{paste};
ghost use Rattle.pose_slots.specs.Slots.{pose_of, resting_pose, room, slot_from, slot_pose};
ghost use Rattle.pose_slots.specs.Slots.{words_of, floats_of, Stored};

use crate::NodePose;
use scene::{Quat, Vec3};

// What the words and floats of one slot hold.
fn pose_from(four: &[u32], ten: &[f32]) -> NodePose
    requires { (length four.now ≡ 4) × (length ten.now ≡ 10) }
    ensures { result ≡ slot_from four.now ten.now }
{
    let t = Vec3 {
        x: ten[0],
        y: ten[1],
        z: ten[2],
    };
    let r = Quat {
        x: ten[3],
        y: ten[4],
        z: ten[5],
        w: ten[6],
    };
    let s = Vec3 {
        x: ten[7],
        y: ten[8],
        z: ten[9],
    };
    NodePose {
        translation: tables::is_marked(four[0]).then_some(t),
        rotation: tables::is_marked(four[1]).then_some(r),
        scale: tables::is_marked(four[2]).then_some(s),
    }
}

// The pose of node i; past the slots the resting pose. A mark above 1 means the same as 1.
pub fn pose_at(marks: &[u32], slots: &[f32], i: usize) -> NodePose
    ensures { result ≡ slot_pose marks.now slots.now i }
{
    if i < marks.len() / 4 {
        if i < slots.len() / 10 {
            let a = i * 4;
            let b = a + 4;
            let c = i * 10;
            let d = c + 10;
            return pose_from(&marks[a..b], &slots[c..d]);
        }
    }
    at_rest()
}

// The resting pose: nothing is posed.
pub fn at_rest() -> NodePose
    ensures { result ≡ resting_pose }
{
    NodePose {
        translation: None,
        rotation: None,
        scale: None,
    }
}

// The words of a slot; w stands for the weights.
fn words_of(p: NodePose, w: u32) -> [u32; 4]
    ensures { result ≡ words_of (pose_of p) w }
{
    [
        u32::from(p.translation.is_some()),
        u32::from(p.rotation.is_some()),
        u32::from(p.scale.is_some()),
        w,
    ]
}

const NO_VEC3: Vec3 = Vec3 {
    x: 0.0,
    y: 0.0,
    z: 0.0,
};

const NO_QUAT: Quat = Quat {
    x: 0.0,
    y: 0.0,
    z: 0.0,
    w: 0.0,
};

// The floats of a slot, zeros where nothing is posed.
fn floats_of(p: NodePose) -> [f32; 10]
    ensures { result ≡ floats_of (pose_of p) }
{
    let t = p.translation.unwrap_or(NO_VEC3);
    let r = p.rotation.unwrap_or(NO_QUAT);
    let s = p.scale.unwrap_or(NO_VEC3);
    [t.x, t.y, t.z, r.x, r.y, r.z, r.w, s.x, s.y, s.z]
}

// Puts the entries of an array into a slice, from one place on.
fn put<T: Copy, const N: usize>(s: &mut [T], at: usize, v: [T; N])
    requires { at + N ≤ length s.old }
    ensures { s.new ≡ paste s.old at v N }
{
    for k in 0..N {
        s[at + k] = v[k];
    }
}

// Puts a pose, and the word for its weights, into slot i.
pub fn store_pose(marks: &mut [u32], slots: &mut [f32], i: usize, p: NodePose, w: u32)
    requires { i < room marks.old slots.old }
    ensures { Stored i (pose_of p) w marks slots }
{
    put(marks, i * 4, words_of(p, w));
    put(slots, i * 10, floats_of(p));
}
