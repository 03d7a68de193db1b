ghost use Rattle.std.specs.Prelude.{◌≡◌};
ghost use Rattle.model.specs.Lists.{foldl, rows_in};
ghost use Rattle.model.specs.Vector.{◌⊞◌};
ghost use Rattle.model.specs.Morph.{with_deltas, stations};
ghost use Rattle.model.specs.Attributes.{over_rows};
ghost use Rattle.tables.specs.Decoded.{target_of};
ghost use Rattle.deltas.specs.Deltas.{lent_in};
ghost use Rattle.deltas.specs.Betweens.{station_at, betweens_in};
ghost use Rattle.mesh.specs.Added.{StationsAdded};
ghost use Rattle.mesh.specs.Stations.{stations_in, widened_by, Blends};
ghost use Rattle.mesh.specs.Blended.{count_in, blended_in};

use crate::stations::{longer, widened};
use crate::{Blend, Segment};
use deltas::{Station, add_between, deltas_in, is_kept, station_at};
use tables::{Lent, Slot, TargetRow};
use tracks::Part;

// The blend with in-between k among its stations, if it is one.
fn widened_at(lent: Lent, betweens: Part, w: f32, b: Blend, k: usize) -> Blend
    ensures { result ≡ widened_by lent.entry.floats.now w
        (betweens_in lent.entry.words.now lent.entry.floats.now lent.entry.header betweens) b
        (station_at lent.entry.words.now lent.entry.floats.now lent.entry.header betweens k) }
{
    let s = station_at(lent, betweens, k);
    if is_kept(lent, betweens, s.weight) {
        return widened(lent.floats, w, b, s);
    }
    b
}

// The blend with all in-betweens of a part that are stations.
fn widened_by_all(lent: Lent, betweens: Part, w: f32, start: Blend) -> Blend
    ensures { result ≡ foldl (widened_by lent.entry.floats.now w
        (betweens_in lent.entry.words.now lent.entry.floats.now lent.entry.header betweens)) start
        (stations_in lent.entry.words.now lent.entry.floats.now lent.entry.header betweens) }
{
    let count = betweens.count;
    let mut b = start;
    for k in 0..count {
        b = widened_at(lent, betweens, w, b, k);
    }
    b
}

// The blend of a target at weight w.
fn blend_of(lent: Lent, row: TargetRow, w: f32) -> Blend
    ensures { Blends lent.entry.floats.now (stations
        (target_of (lent_in lent.entry.words.now lent.entry.floats.now lent.entry.header) row)) w result }
{
    let positions = row.positions;
    let normals = row.normals;
    let absent = Slot {
        mark: 0,
        part: Part { at: 0, count: 0 },
    };
    let low = Station {
        weight: 0.0,
        positions: absent,
        normals: absent,
    };
    let high = Station {
        weight: 1.0,
        positions,
        normals,
    };
    let start = Blend {
        segment: Segment { low, high },
        positions: longer(lent.floats, positions, 0),
        normals: longer(lent.floats, normals, 0),
    };
    widened_by_all(lent, row.in_betweens, w, start)
}

// How many deltas an attribute has between stations: as many as the target's own slot, else n.
fn count_of(floats: &[f32], own: Slot, n: usize) -> usize
    ensures { result ≡ count_in floats.now own n }
{
    if tables::is_marked(own.mark) {
        return deltas_in(floats, own).len() / 3;
    }
    n
}

// Adds to one attribute what lies between two slots.
fn add_blended(floats: &[f32], own: Slot, n: usize, t: f32, low: Slot, high: Slot, out: &mut [f32])
    ensures { out.new ≡ over_rows 3 (with_deltas ◌⊞◌ (rows_in 3 out.old)
        (blended_in floats.now own n t low high)) out.old }
{
    let count = count_of(floats, own, n);
    add_between(
        out,
        t,
        deltas_in(floats, low),
        deltas_in(floats, high),
        count,
    );
}

// Adds a target that has stations to positions and normals.
pub(crate) fn add_stations(
    lent: Lent,
    row: TargetRow,
    w: f32,
    positions: &mut [f32],
    normals: &mut [f32],
)
    ensures { StationsAdded
        (target_of (lent_in lent.entry.words.now lent.entry.floats.now lent.entry.header) row)
        w positions normals }
{
    let b = blend_of(lent, row, w);
    let low = b.segment.low;
    let high = b.segment.high;
    let t = (w - low.weight) / (high.weight - low.weight);
    add_blended(
        lent.floats,
        row.positions,
        b.positions,
        t,
        low.positions,
        high.positions,
        positions,
    );
    add_blended(
        lent.floats,
        row.normals,
        b.normals,
        t,
        low.normals,
        high.normals,
        normals,
    );
}
