ghost use Rattle.std.specs.Prelude.{◌≡◌, List, [], Float, length};
ghost use Rattle.model.specs.Lists.{or_else};
ghost use Rattle.tables.specs.Decoded.{lent_of};
ghost use Rattle.checks.specs.Drawn.{lent_as};
ghost use Rattle.bake_stages.specs.Skinned.{skin_palette_from};
ghost use Rattle.borrowed.specs.Attributes.{SameSlices};
ghost use Rattle.bake_writing.specs.Delivered.{SkinnedPutOut, NamedPutOut, Deliverable};

use crate::Placed;
use borrowed::Vertices;
use refusals::JOINT_LIMIT;
use scene::Mat4;
use tables::{Lent, Reference};
use tracks::Part;

// The floats of a palette with as many joints as a skeleton may have.
const PALETTE: usize = JOINT_LIMIT * 16;

// How many joint matrices the palette of a skin has; 0 where there is none.
fn joints_of(lent: Lent, skin: u32, places: &[u32]) -> usize
    ensures { (own mesh slots : List Float) → result
        ≡ length (or_else (skin_palette_from
        (lent_as lent.entry.words.now lent.entry.floats.now own mesh lent.entry.header) skin places.now slots) []) }
{
    let Some(n) = skin::palette_count(lent, skin, places) else {
        return 0;
    };
    n
}

// Puts out a mesh with the palette of a skin: room for as many joints as a skeleton may have.
fn put_skinned(
    lent: Lent,
    part: Part,
    weights: &[f32],
    world: Mat4,
    skin: u32,
    placed: Placed,
    out: &mut Vertices<'_>,
)
    requires { Deliverable lent.words.now lent.floats.now lent.header part out.old }
    ensures same_outputs { SameSlices out.old out.new }
    ensures put { SkinnedPutOut (lent_of lent.entry) part world.m skin placed.entry weights.now out.old out.new }
{
    let mut palette = [0.0f32; PALETTE];
    skin::write_palette(lent, skin, placed.places, placed.worlds, &mut palette);
    let n = joints_of(lent, skin, placed.places) * 16;
    shapes::write_mesh(lent, part, weights, world, Some(&palette[..n]), out);
}

// Puts out a mesh with the palette of what its node names, if that is a skin.
pub(crate) fn put_out(
    lent: Lent,
    part: Part,
    weights: &[f32],
    world: Mat4,
    skin: Reference,
    placed: Placed,
    out: &mut Vertices<'_>,
)
    requires { Deliverable lent.words.now lent.floats.now lent.header part out.old }
    ensures same_outputs { SameSlices out.old out.new }
    ensures put { NamedPutOut (lent_of lent.entry) part world.m skin placed.entry weights.now out.old out.new }
{
    if tables::is_marked(skin.mark) {
        put_skinned(lent, part, weights, world, skin.id, placed, out);
    } else {
        shapes::write_mesh(lent, part, weights, world, None, out);
    }
}
