ghost use Rattle.std.specs.Prelude.{◌≡◌, ◌+◌, ◌≤◌, length};
ghost use Rattle.std.proofs.Math.Seq.{paste};
ghost use Rattle.model.specs.Lists.{part};
ghost use Rattle.scene.specs.Values.{vec3};
ghost use Rattle.vertex_rows.specs.Rows.{tangent};

use scene::Vec3;

// A direction along the surface, and the side on which the bitangent lies.
#[derive(Clone, Copy)]
pub(crate) struct Tangent {
    pub(crate) direction: Vec3,
    pub(crate) handedness: f32,
}

// The three floats from `at` on.
pub fn load3(s: &[f32], at: usize) -> Vec3
    requires { at + 3 ≤ length s.now }
    ensures { vec3 result ≡ part s.now at 3 }
{
    Vec3 {
        x: s[at],
        y: s[at + 1],
        z: s[at + 2],
    }
}

// A tangent: the three floats from `at` on, and the one after them.
pub(crate) fn load4(s: &[f32], at: usize) -> Tangent
    requires { at + 4 ≤ length s.now }
    ensures { tangent result ≡ part s.now at 4 }
{
    let direction = load3(s, at);
    Tangent {
        direction,
        handedness: s[at + 3],
    }
}

// Writes three floats from `at` on.
pub fn store3(s: &mut [f32], at: usize, v: Vec3)
    requires { at + 3 ≤ length s.old }
    ensures { s.new ≡ paste s.old at (vec3 v) 3 }
{
    s[at] = v.x;
    s[at + 1] = v.y;
    s[at + 2] = v.z;
}

// Writes a tangent: three floats from `at` on, and one after them.
pub(crate) fn store4(s: &mut [f32], at: usize, t: Tangent)
    requires { at + 4 ≤ length s.old }
    ensures { s.new ≡ paste s.old at (tangent t) 4 }
{
    store3(s, at, t.direction);
    s[at + 3] = t.handedness;
}
