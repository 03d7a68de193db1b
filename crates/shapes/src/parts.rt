ghost use Rattle.std.specs.Prelude.{◌≡◌, length};
ghost use Rattle.borrowed.specs.Attributes.{SameSlices};
ghost use Rattle.shapes.specs.Rest.{slot_floats, Sized, AtRest};

use borrowed::Vertices;
use tables::{PrimitiveRow, Slot};

// The floats of an attribute, none where it is absent.
fn slot_floats(floats: &[f32], s: Slot, width: usize) -> &[f32]
    ensures { result.now ≡ slot_floats floats.now s width }
{
    if tables::is_marked(s.mark) {
        return tables::floats_in(floats, s.part, width);
    }
    &floats[0..0]
}

// Copies a whole slice.
fn copy(from: &[f32], to: &mut [f32])
    requires { length to.old ≡ length from.now }
    ensures { to.new ≡ from.now }
{
    wire::copy_floats(from, to);
}

// The attributes of a primitive at rest.
pub(crate) fn copy_rest(floats: &[f32], row: PrimitiveRow, out: &mut Vertices<'_>)
    requires { Sized floats.now row out.old.positions.now out.old.normals.now out.old.tangents.now }
    ensures at_rest { AtRest floats.now row out.new.positions.now out.new.normals.now out.new.tangents.now }
    ensures same_slices { SameSlices out.old out.new }
{
    copy(tables::floats_in(floats, row.positions, 3), out.positions);
    copy(slot_floats(floats, row.normals, 3), out.normals);
    copy(slot_floats(floats, row.tangents, 4), out.tangents);
}
