ghost use Rattle.borrowed.specs.InPlace.{InPlace};
ghost use Rattle.model.specs.Morph.{with_targets};
ghost use Rattle.model.specs.Attributes.{shape_of};
ghost use Rattle.mesh.specs.Lent.{targets_in};

use borrowed::Vertices;
use tables::{Header, Lent};
use tracks::Part;

// Adds the targets of a part, at these weights, to vertices that lie in flat slices.
#[unsafe(no_mangle)]
pub extern "C" fn mesh3d_morphed_floats(
    words: &[u32],
    floats: &[f32],
    header: Header,
    targets_at: usize,
    targets_count: usize,
    weights: &[f32],
    positions: &mut [f32],
    normals: &mut [f32],
    tangents: &mut [f32],
)
    ensures { InPlace (λ v. shape_of (with_targets
        (targets_in words.now floats.now header
        (record { at = targets_at; count = targets_count })) weights.now v)) positions normals
        tangents }
{
    let targets = Part {
        at: targets_at,
        count: targets_count,
    };
    let lent = Lent {
        words,
        floats,
        node_weights: &[],
        mesh_weights: &[],
        header,
    };
    let mut out = Vertices {
        positions,
        normals,
        tangents,
    };
    mesh::morphed(lent, targets, weights, &mut out);
}
