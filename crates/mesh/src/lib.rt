// Morphed vertices, by the scope paper's rules: targets are added, one after the other, to positions, normals and
// tangents that lie in lent flat slices.
#![tactic(auto)]

ghost use Rattle.borrowed.specs.Attributes.{positions_in, normals_in, tangents_in, SameSlices};
ghost use Rattle.borrowed.specs.InPlace.{InPlace};
ghost use Rattle.model.specs.Morph.{with_targets};
ghost use Rattle.model.specs.Attributes.{shape_of};
ghost use Rattle.mesh.specs.Lent.{targets_in};

use borrowed::Vertices;
use deltas::Station;
use tables::Lent;
use tracks::Part;

mod blending;
mod stations;
mod targets;

// Two neighbouring stations.
#[derive(Clone, Copy)]
pub struct Segment {
    pub low: Station,
    pub high: Station,
}

// What of all stations a weight takes: its segment, and how many entries the longest slots have.
#[derive(Clone, Copy)]
pub struct Blend {
    pub segment: Segment,
    pub positions: usize,
    pub normals: usize,
}

// The vertices with the targets of a part added at these weights, in place.
pub fn morphed(lent: Lent, targets: Part, weights: &[f32], out: &mut Vertices<'_>)
    ensures moved { InPlace (λ v. shape_of (with_targets
        (targets_in lent.entry.words.now lent.entry.floats.now lent.entry.header targets) weights.now v))
        (positions_in out) (normals_in out) (tangents_in out) }
    ensures same_slices { SameSlices out.old out.new }
{
    let n = targets.count.min(weights.len());
    for k in 0..n {
        let w = weights[k];
        targets::add_numbered(lent, targets, k, w, out);
    }
}
