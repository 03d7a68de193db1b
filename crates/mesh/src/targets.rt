ghost use Rattle.std.specs.Prelude.{◌+◌};
ghost use Rattle.borrowed.specs.Attributes.{positions_in, normals_in, tangents_in, SameSlices};
ghost use Rattle.borrowed.specs.InPlace.{InPlace};
ghost use Rattle.model.specs.Lists.{rows_in};
ghost use Rattle.model.specs.Vector.{◌⊙◌, ◌⊞◌};
ghost use Rattle.model.specs.Morph.{with_target};
ghost use Rattle.model.specs.Attributes.{shape_of};
ghost use Rattle.tables.specs.Records.{target_row};
ghost use Rattle.tables.specs.Decoded.{target_of};
ghost use Rattle.deltas.specs.Deltas.{lent_in, deltas_in};
ghost use Rattle.mesh.specs.Added.{Adds};

use crate::blending::add_stations;
use borrowed::Vertices;
use deltas::{add_scaled, add_tangents, deltas_in, has_valid, target_at};
use tables::{Lent, TargetRow};
use tracks::Part;

// Adds w times the deltas of a target to positions and normals.
fn add_plain(floats: &[f32], row: TargetRow, w: f32, positions: &mut [f32], normals: &mut [f32])
    ensures { Adds (λ v d. v ⊞ w ⊙ d) (rows_in 3 (deltas_in floats.now row.positions))
        (rows_in 3 (deltas_in floats.now row.normals)) positions normals }
{
    add_scaled(positions, w, deltas_in(floats, row.positions));
    add_scaled(normals, w, deltas_in(floats, row.normals));
}

// Adds a target at weight w: nothing at 0, by its stations if an in-between has a valid weight, else w times its
// deltas. Tangents have no stations.
fn add_target(lent: Lent, row: TargetRow, w: f32, out: &mut Vertices<'_>)
    ensures moved { InPlace (λ v. shape_of (with_target v
        (target_of (lent_in lent.entry.words.now lent.entry.floats.now lent.entry.header) row) w))
        (positions_in out) (normals_in out) (tangents_in out) }
    ensures same_slices { SameSlices out.old out.new }
{
    if w == 0.0 {
        return;
    }
    add_tangents(out.tangents, w, deltas_in(lent.floats, row.tangents));
    if has_valid(lent, row.in_betweens) {
        add_stations(lent, row, w, out.positions, out.normals);
        return;
    }
    add_plain(lent.floats, row, w, out.positions, out.normals);
}

// Adds target number k of a part at weight w.
pub(crate) fn add_numbered(lent: Lent, targets: Part, k: usize, w: f32, out: &mut Vertices<'_>)
    ensures moved { InPlace (λ v. shape_of (with_target v
        (target_of (lent_in lent.entry.words.now lent.entry.floats.now lent.entry.header)
        (target_row lent.entry.words.now lent.entry.header.meshes.targets (targets.at + k))) w))
        (positions_in out) (normals_in out) (tangents_in out) }
    ensures same_slices { SameSlices out.old out.new }
{
    let row = target_at(lent.words, lent.header, targets, k);
    add_target(lent, row, w, out);
}
