// A form for each record.
ghost use Rattle.grammar.specs.Digits.{numbers};
ghost use Rattle.grammar.specs.Forms.{form_text};
ghost use Rattle.spelling.specs.Pushed.{Puts};
ghost use Rattle.tables.specs.Decoded.{lent_of};
ghost use Rattle.tables.specs.Records.{node_row, channel_row, mesh_row, primitive_row, target_row, in_between_row};
ghost use Rattle.tables.specs.Records.{skin_row};
ghost use Rattle.tables.specs.Records.{skeleton_row};
ghost use Rattle.scene_schema.specs.Schema.{kind_at};
ghost use Rattle.scene_spelling.specs.Written.{joints_field, scene_form, node_form, channel_form, mesh_form};
ghost use Rattle.scene_spelling.specs.Written.{primitive_form, target_form, in_between_form, skin_form, skeleton_form};
ghost use Rattle.scene_spelling.specs.Texts.{slot_text, base_text, property_text, interpolation_text, values_text};

use crate::fields;
use tables::{Lent, Slot};
use tracks::Part;

// The node and the time that are asked for, and the roots.
pub fn put_scene(
    out: &mut [u8],
    at: usize,
    words: &[u32],
    roots: Part,
    node: u32,
    time: f32,
) -> usize
    ensures { Puts (form_text (kind_at 0) (scene_form words.now roots node time)) out at result }
{
    let times = [time; 1];
    let a = fields::open_form(out, at, 0);
    let b = fields::put_number(out, a, 0, node);
    let c = fields::put_items(out, b, 1, &times);
    let d = fields::put_items(out, c, 2, tables::words_in(words, roots, 1));
    fields::close_form(out, d)
}

// The base transform of a node: ten floats, or a matrix.
fn put_base(out: &mut [u8], at: usize, floats: &[f32], form: u32, base: usize) -> usize
    ensures { Puts (base_text floats.now form base) out at result }
{
    if form == 0 {
        let parts = Part {
            at: base,
            count: 10,
        };
        return fields::put_items(out, at, 16, tables::floats_in(floats, parts, 1));
    }
    let matrix = Part {
        at: base,
        count: 16,
    };
    fields::put_items(out, at, 17, tables::floats_in(floats, matrix, 1))
}

// Node i of a table.
pub fn put_node(out: &mut [u8], at: usize, lent: Lent<'_>, t: Part, i: usize) -> usize
    ensures { let l = lent_of lent.entry in
        Puts (form_text (kind_at 1) (node_form l.words l.floats l.node_weights (node_row l.words t i))) out at result }
{
    let words = lent.words;
    let row = tables::node_row(words, t, i);
    let children = row.children;
    let mesh = row.mesh;
    let skin = row.skin;
    let weights = row.weights;
    let a = fields::open_form(out, at, 1);
    let b = put_base(out, a, lent.floats, row.form, row.base);
    let c = fields::put_items(out, b, 18, tables::words_in(words, children, 1));
    let d = fields::put_id(out, c, 19, mesh);
    let e = fields::put_id(out, d, 20, skin);
    let f = fields::put_slot(out, e, 21, lent.node_weights, weights, 1);
    fields::close_form(out, f)
}

// What a channel drives.
fn put_property(out: &mut [u8], at: usize, property: u32) -> usize
    ensures { Puts (property_text property) out at result }
{
    let a = fields::put_tag(out, at, 33, property, 0);
    let b = fields::put_tag(out, a, 34, property, 1);
    let c = fields::put_tag(out, b, 35, property, 2);
    fields::put_tag(out, c, 36, property, 3)
}

// How a channel goes from key to key.
fn put_interpolation(out: &mut [u8], at: usize, interpolation: u32) -> usize
    ensures { Puts (interpolation_text interpolation) out at result }
{
    let a = fields::put_tag(out, at, 37, interpolation, 0);
    let b = fields::put_tag(out, a, 38, interpolation, 1);
    fields::put_tag(out, b, 39, interpolation, 2)
}

// The values of a channel, by their kind.
fn put_values(out: &mut [u8], at: usize, floats: &[f32], kind: u32, values: Part) -> usize
    ensures { Puts (values_text floats.now kind values) out at result }
{
    match kind {
        0 => fields::put_items(out, at, 41, tables::floats_in(floats, values, 3)),
        1 => fields::put_items(out, at, 42, tables::floats_in(floats, values, 4)),
        2 => fields::put_items(out, at, 43, tables::floats_in(floats, values, 1)),
        _ => at,
    }
}

// Channel i of a table.
pub fn put_channel(
    out: &mut [u8],
    at: usize,
    words: &[u32],
    floats: &[f32],
    t: Part,
    i: usize,
) -> usize
    ensures { Puts (form_text (kind_at 2) (channel_form floats.now
        (channel_row words.now t i))) out at result }
{
    let row = tables::channel_row(words, t, i);
    let keys = row.keys;
    let values = row.values;
    let a = fields::open_form(out, at, 2);
    let b = fields::put_number(out, a, 32, row.target);
    let c = put_property(out, b, row.property);
    let d = put_interpolation(out, c, row.interpolation);
    let e = fields::put_items(out, d, 40, tables::floats_in(floats, keys, 1));
    let f = put_values(out, e, floats, row.kind, values);
    fields::close_form(out, f)
}

// Mesh i of a table.
pub fn put_mesh(
    out: &mut [u8],
    at: usize,
    words: &[u32],
    mesh_weights: &[f32],
    t: Part,
    i: usize,
) -> usize
    ensures { Puts (form_text (kind_at 3) (mesh_form mesh_weights.now
        (mesh_row words.now t i))) out at result }
{
    let row = tables::mesh_row(words, t, i);
    let primitives = row.primitives;
    let weights = row.weights;
    let a = fields::open_form(out, at, 3);
    let b = fields::put_list(out, a, 48, primitives);
    let c = fields::put_items(out, b, 49, tables::floats_in(mesh_weights, weights, 1));
    fields::close_form(out, c)
}

// The joints of a primitive, where it has them.
fn put_joints(out: &mut [u8], at: usize, words: &[u32], joints: Slot) -> usize
    ensures { Puts (slot_text 67 numbers (joints_field words.now joints)) out at result }
{
    if tables::is_marked(joints.mark) {
        let p = joints.part;
        return fields::put_items(out, at, 67, tables::words_in(words, p, 4));
    }
    at
}

// Primitive i of a table.
pub fn put_primitive(
    out: &mut [u8],
    at: usize,
    words: &[u32],
    floats: &[f32],
    t: Part,
    i: usize,
) -> usize
    ensures { Puts (form_text (kind_at 4) (primitive_form words.now floats.now
        (primitive_row words.now t i))) out at result }
{
    let row = tables::primitive_row(words, t, i);
    let positions = row.positions;
    let normals = row.normals;
    let tangents = row.tangents;
    let joints = row.joints;
    let weights = row.weights;
    let targets = row.targets;
    let a = fields::open_form(out, at, 4);
    let b = fields::put_items(out, a, 64, tables::floats_in(floats, positions, 3));
    let c = fields::put_slot(out, b, 65, floats, normals, 3);
    let d = fields::put_slot(out, c, 66, floats, tangents, 4);
    let e = put_joints(out, d, words, joints);
    let f = fields::put_slot(out, e, 68, floats, weights, 4);
    let g = fields::put_list(out, f, 69, targets);
    fields::close_form(out, g)
}

// Morph target i of a table.
pub fn put_target(
    out: &mut [u8],
    at: usize,
    words: &[u32],
    floats: &[f32],
    t: Part,
    i: usize,
) -> usize
    ensures { Puts (form_text (kind_at 5) (target_form floats.now
        (target_row words.now t i))) out at result }
{
    let row = tables::target_row(words, t, i);
    let positions = row.positions;
    let normals = row.normals;
    let tangents = row.tangents;
    let in_betweens = row.in_betweens;
    let a = fields::open_form(out, at, 5);
    let b = fields::put_slot(out, a, 80, floats, positions, 3);
    let c = fields::put_slot(out, b, 81, floats, normals, 3);
    let d = fields::put_slot(out, c, 82, floats, tangents, 3);
    let e = fields::put_list(out, d, 83, in_betweens);
    fields::close_form(out, e)
}

// In-between i of a table.
pub fn put_in_between(
    out: &mut [u8],
    at: usize,
    words: &[u32],
    floats: &[f32],
    t: Part,
    i: usize,
) -> usize
    ensures { Puts (form_text (kind_at 6) (in_between_form floats.now
        (in_between_row words.now t i))) out at result }
{
    let row = tables::in_between_row(words, t, i);
    let positions = row.positions;
    let normals = row.normals;
    let weight = Part {
        at: row.weight,
        count: 1,
    };
    let a = fields::open_form(out, at, 6);
    let b = fields::put_items(out, a, 96, tables::floats_in(floats, weight, 1));
    let c = fields::put_slot(out, b, 97, floats, positions, 3);
    let d = fields::put_slot(out, c, 98, floats, normals, 3);
    fields::close_form(out, d)
}

// Skin i of a table.
pub fn put_skin(out: &mut [u8], at: usize, words: &[u32], t: Part, i: usize) -> usize
    ensures { Puts (form_text (kind_at 7) (skin_form (skin_row words.now t i))) out at result }
{
    let row = tables::skin_row(words, t, i);
    let root = row.root;
    let a = fields::open_form(out, at, 7);
    let b = fields::put_number(out, a, 112, row.skeleton);
    let c = fields::put_id(out, b, 113, root);
    fields::close_form(out, c)
}

// Skeleton i of a table.
pub fn put_skeleton(
    out: &mut [u8],
    at: usize,
    words: &[u32],
    floats: &[f32],
    t: Part,
    i: usize,
) -> usize
    ensures { Puts (form_text (kind_at 8) (skeleton_form words.now floats.now
        (skeleton_row words.now t i))) out at result }
{
    let row = tables::skeleton_row(words, t, i);
    let joints = row.joints;
    let inverse_binds = row.inverse_binds;
    let a = fields::open_form(out, at, 8);
    let b = fields::put_items(out, a, 128, tables::words_in(words, joints, 1));
    let c = fields::put_items(out, b, 129, tables::floats_in(floats, inverse_binds, 16));
    fields::close_form(out, c)
}
