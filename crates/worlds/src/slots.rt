ghost use Rattle.std.specs.Prelude.{◌≡◌, ◌*◌};
ghost use Rattle.std.proofs.Math.Seq.{paste};
ghost use Rattle.model.specs.Lists.{pick};
ghost use Rattle.model.specs.Matrix.{mul};
ghost use Rattle.scene.specs.Slots.{fits_at};
ghost use Rattle.worlds.specs.Slots.{above_in};

use scene::Mat4;

// The world of a node, by the code of its place: the world of what it is placed under times its local matrix. A root's
// product with the identity is done too.
fn world_at(worlds: &[f32], code: u32, local: Mat4) -> Mat4
    ensures { result.m ≡ mul (above_in worlds.now code) local.m }
{
    if code < 3 {
        return scene::mat4_mul(scene::identity(), local);
    }
    scene::mat4_mul(scene::load(worlds, (code - 3) as usize * 16), local)
}

// Writes the world of node i, with the code of its place and its local matrix.
pub(crate) fn place_one(worlds: &mut [f32], i: u32, code: u32, local: Mat4)
    ensures { worlds.new ≡ pick (fits_at worlds.old (i * 16))
        (paste worlds.old (i * 16) (mul (above_in worlds.old code) local.m) 16)
        worlds.old }
{
    let world = world_at(worlds, code, local);
    scene::store(worlds, i as usize * 16, world);
}
