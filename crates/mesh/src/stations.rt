ghost use Rattle.std.specs.Prelude.{◌≡◌, ◌/◌, max, length};
ghost use Rattle.deltas.specs.Deltas.{deltas_in};
ghost use Rattle.mesh.specs.Stations.{narrowed_in, widened_in};

use crate::{Blend, Segment};
use deltas::{Station, deltas_in};
use tables::Slot;

// The segment of w, once the station s stands among those that g was found in. No list is kept: s takes the place of an
// end, or none.
fn narrowed(w: f32, g: Segment, s: Station) -> Segment
    ensures { result ≡ narrowed_in w g s }
{
    let low = g.low;
    let high = g.high;
    if s.weight < low.weight {
        if w <= low.weight {
            return Segment { low: s, high: low };
        }
        return g;
    }
    if s.weight < high.weight {
        if w <= s.weight {
            return Segment { low, high: s };
        }
        return Segment { low: s, high };
    }
    if w <= high.weight {
        return g;
    }
    Segment { low: high, high: s }
}

// The entries of a slot, or n if that is more.
pub(crate) fn longer(floats: &[f32], s: Slot, n: usize) -> usize
    ensures { result ≡ max (length (deltas_in floats.now s) / 3) n }
{
    let rows = deltas_in(floats, s).len() / 3;
    if n < rows { rows } else { n }
}

// The blend with one station more.
pub(crate) fn widened(floats: &[f32], w: f32, b: Blend, s: Station) -> Blend
    ensures { result ≡ widened_in floats.now w b s }
{
    Blend {
        segment: narrowed(w, b.segment, s),
        positions: longer(floats, s.positions, b.positions),
        normals: longer(floats, s.normals, b.normals),
    }
}
