// Whether what a call answered and left is what stands next in the fields. All of it is read, so & joins what is found.
ghost use Rattle.std.specs.Prelude.{◌≡◌};
ghost use Rattle.lists.specs.Moves.{MovesTo};
ghost use Rattle.replay_scenes.specs.Told.{number_told, numbers_told, parents_told, pose_told, places_told};
ghost use Rattle.replay_scenes.specs.Told.{palette_told, weights_told, vertices_told};

use lists::Fields;

fn has_number(fields: &mut Fields, number: u32) -> bool
    ensures same { result ≡ (number_told fields.old.all.now fields.old.at number).same }
    ensures moves { MovesTo fields.old fields.new (number_told fields.old.all.now fields.old.at number).at }
{
    fields.has_number(number as usize)
}

pub fn has_numbers(fields: &mut Fields, number: u32, other: usize) -> bool
    ensures same { result ≡ (numbers_told fields.old.all.now fields.old.at number other).same }
    ensures moves { MovesTo fields.old fields.new
        (numbers_told fields.old.all.now fields.old.at number other).at }
{
    has_number(fields, number) & fields.has_number(other)
}

pub fn has_parents(fields: &mut Fields, number: u32, out: &[u32]) -> bool
    ensures same { result ≡ (parents_told fields.old.all.now fields.old.at number out.now).same }
    ensures moves { MovesTo fields.old fields.new
        (parents_told fields.old.all.now fields.old.at number out.now).at }
{
    has_number(fields, number) & fields.has_words(out, 8)
}

pub fn has_pose(fields: &mut Fields, number: u32, marks: &[u32], slots: &[f32]) -> bool
    ensures same { result ≡ (pose_told fields.old.all.now fields.old.at number marks.now slots.now).same }
    ensures moves { MovesTo fields.old fields.new
        (pose_told fields.old.all.now fields.old.at number marks.now slots.now).at }
{
    has_number(fields, number) & fields.has_words(marks, 32) & fields.has_floats(slots, 80)
}

// Each list by itself, as it stands in the fields; so below.
pub fn has_places(
    fields: &mut Fields,
    number: u32,
    taken: usize,
    walk: &[u32],
    places: &[u32],
    worlds: &[f32],
) -> bool
    ensures same { result ≡ (places_told fields.old.all.now fields.old.at number taken
        walk.now places.now worlds.now).same }
    ensures moves { MovesTo fields.old fields.new (places_told fields.old.all.now fields.old.at number taken
        walk.now places.now worlds.now).at }
{
    has_numbers(fields, number, taken)
        & fields.has_words(walk, 64)
        & fields.has_words(places, 8)
        & fields.has_floats(worlds, 128)
}

pub fn has_palette(fields: &mut Fields, number: u32, length: usize, out: &[f32]) -> bool
    ensures same { result ≡ (palette_told fields.old.all.now fields.old.at number length out.now).same }
    ensures moves { MovesTo fields.old fields.new
        (palette_told fields.old.all.now fields.old.at number length out.now).at }
{
    has_numbers(fields, number, length) & fields.has_floats(out, 64)
}

pub fn has_weights(fields: &mut Fields, number: u32, weights: &[f32]) -> bool
    ensures same { result ≡ (weights_told fields.old.all.now fields.old.at number weights.now).same }
    ensures moves { MovesTo fields.old fields.new
        (weights_told fields.old.all.now fields.old.at number weights.now).at }
{
    has_number(fields, number) & fields.has_floats(weights, 64)
}

pub fn has_vertices(
    fields: &mut Fields,
    positions: &[f32],
    normals: &[f32],
    tangents: &[f32],
) -> bool
    ensures same { result ≡ (vertices_told fields.old.all.now fields.old.at positions.now
        normals.now tangents.now).same }
    ensures moves { MovesTo fields.old fields.new
        (vertices_told fields.old.all.now fields.old.at positions.now
        normals.now tangents.now).at }
{
    fields.has_floats(positions, 64)
        & fields.has_floats(normals, 64)
        & fields.has_floats(tangents, 64)
}
