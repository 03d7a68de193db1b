ghost use Rattle.std.specs.Prelude.{◌≡◌};
ghost use Rattle.model.specs.Lists.{any_of};
ghost use Rattle.model.specs.Scene.{InBetween};
ghost use Rattle.model.specs.Morph.{valid};
ghost use Rattle.deltas.specs.Betweens.{betweens_in, station_at, sharing, kept_in};

use crate::Station;
use crate::records::between_at;
use tables::Lent;
use tracks::Part;

// The in-between number k of a part, with its weight read.
pub fn station_at(lent: Lent, betweens: Part, k: usize) -> Station
    ensures { result ≡ station_at lent.entry.words.now lent.entry.floats.now lent.entry.header betweens k }
{
    let row = between_at(lent.words, lent.header, betweens, k);
    let weight = tables::weight_of(lent.floats, row);
    let positions = row.positions;
    let normals = row.normals;
    Station {
        weight,
        positions,
        normals,
    }
}

// Whether an in-between of this weight counts.
fn is_valid(w: f32) -> bool
    ensures { result ≡ valid w }
{
    if float::is_finite(w) {
        if w == 0.0 {
            return false;
        }
        return w != 1.0;
    }
    false
}

// Whether an in-between of a part has a valid weight.
pub fn has_valid(lent: Lent, betweens: Part) -> bool
    ensures { result ≡ any_of (λ (b : InBetween). valid b.weight)
        (betweens_in lent.entry.words.now lent.entry.floats.now lent.entry.header betweens) }
{
    let count = betweens.count;
    for k in 0..count {
        if is_valid(station_at(lent, betweens, k).weight) {
            return true;
        }
    }
    false
}

// How many in-betweens of a part have the weight w.
fn sharing_weight(lent: Lent, betweens: Part, w: f32) -> usize
    ensures { result ≡ sharing (betweens_in lent.entry.words.now lent.entry.floats.now lent.entry.header betweens) w }
{
    let count = betweens.count;
    let mut n = 0;
    for k in 0..count {
        if station_at(lent, betweens, k).weight == w {
            n += 1;
        }
    }
    n
}

// Whether an in-between of weight w is a station: no other has its weight.
pub fn is_kept(lent: Lent, betweens: Part, w: f32) -> bool
    ensures { result ≡ kept_in (betweens_in lent.entry.words.now lent.entry.floats.now lent.entry.header betweens) w }
{
    if is_valid(w) {
        return sharing_weight(lent, betweens, w) == 1;
    }
    false
}
