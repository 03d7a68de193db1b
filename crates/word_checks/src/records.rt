// The first word of a record that draws a number.
ghost use Rattle.std.specs.Prelude.{◌≡◌};
ghost use Rattle.refusals.specs.Drawn.{number_of};
ghost use Rattle.word_checks.specs.Words.{nothing, first_asked, word_drawn, frames_within, held_asked, base_asked};
ghost use Rattle.word_checks.specs.Words.{node_asked};
ghost use Rattle.word_checks.specs.Words.{channel_asked, mesh_asked, primitive_asked, target_asked, in_between_asked};
ghost use Rattle.word_checks.specs.Words.{skin_asked, skeleton_asked, row_asked};

use crate::steps::{leaves_word, over_word, part_word, slot_word};
use checks::Table;
use refusals::{
    CHILD_ENTRY_LIMIT, IN_BETWEEN_LIMIT, JOINT_LIMIT, KEY_LIMIT, PRIMITIVE_LIMIT, Refusal,
    TARGET_LIMIT, VERTEX_LIMIT, WEIGHT_LIMIT,
};
use row_checks::{Sizes, base_floats};
use tables::{
    ChannelRow, InBetweenRow, MeshRow, NodeRow, PrimitiveRow, SkeletonRow, SkinRow, Slot, TargetRow,
};
use tracks::{Part, Track};

// The mark and the place of a node's own weights.
fn held_word(n: Refusal, weights: Slot, len: usize) -> Option<u32>
    ensures { word_drawn n result ≡ first_asked (number_of n) (held_asked weights len) nothing }
{
    if weights.mark == 0 {
        return None;
    }
    let from_place = leaves_word(n, 9, tracks::fits(weights.part, 1, len), None);
    over_word(n, 8, weights.mark <= 1, from_place)
}

// The base transform of a node.
fn base_word(n: Refusal, s: Sizes, r: NodeRow, rest: Option<u32>) -> Option<u32>
    ensures { word_drawn n result ≡ first_asked (number_of n) (base_asked s r) (word_drawn n rest) }
{
    let base = Part {
        at: r.base,
        count: base_floats(r.form),
    };
    let from_place = leaves_word(n, 1, tracks::fits(base, 1, s.floats), rest);
    over_word(n, 0, r.form <= 1, from_place)
}

fn node_word(n: Refusal, s: Sizes, r: NodeRow, entries: usize) -> Option<u32>
    ensures { word_drawn n result ≡ first_asked (number_of n) (node_asked s r entries) nothing }
{
    let from_weights = held_word(n, r.weights, s.node_weights);
    let from_skin = over_word(n, 6, r.skin.mark <= 1, from_weights);
    let from_mesh = over_word(n, 4, r.mesh.mark <= 1, from_skin);
    let from_entries = over_word(n, 3, entries <= CHILD_ENTRY_LIMIT, from_mesh);
    let from_children = leaves_word(n, 2, tracks::fits(r.children, 1, s.words), from_entries);
    base_word(n, s, r, from_children)
}

// Whether an even scalar track has few enough weights a frame; not asked of one with too many keys.
fn frames_within(t: Track) -> bool
    ensures { result ≡ frames_within t }
{
    if KEY_LIMIT < t.keys.count {
        return true;
    }
    if tracks::is_scalar(t.kind) {
        return tracks::track_stride(t) <= WEIGHT_LIMIT;
    }
    true
}

fn channel_word(n: Refusal, s: Sizes, r: ChannelRow) -> Option<u32>
    ensures { word_drawn n result ≡ first_asked (number_of n) (channel_asked s r) nothing }
{
    let track = tables::track_of(r);
    let kind = track.kind;
    let from_frames = over_word(n, 7, frames_within(track), None);
    let fits = tracks::fits(r.values, tracks::width(kind), s.floats);
    let from_values = leaves_word(n, 6, fits, from_frames);
    let from_keys = part_word(n, 4, r.keys, 1, s.floats, KEY_LIMIT, from_values);
    let from_interpolation = over_word(n, 3, r.interpolation <= 2, from_keys);
    let from_kind = over_word(n, 2, r.kind <= 2, from_interpolation);
    over_word(n, 1, r.property <= 3, from_kind)
}

fn mesh_word(n: Refusal, s: Sizes, r: MeshRow) -> Option<u32>
    ensures { word_drawn n result ≡ first_asked (number_of n) (mesh_asked s r) nothing }
{
    let from_weights = leaves_word(n, 2, tracks::fits(r.weights, 1, s.mesh_weights), None);
    part_word(
        n,
        0,
        r.primitives,
        1,
        s.primitives,
        PRIMITIVE_LIMIT,
        from_weights,
    )
}

fn primitive_word(n: Refusal, s: Sizes, r: PrimitiveRow) -> Option<u32>
    ensures { word_drawn n result ≡ first_asked (number_of n) (primitive_asked s r) nothing }
{
    let from_targets = part_word(n, 14, r.targets, 1, s.targets, TARGET_LIMIT, None);
    let from_weights = slot_word(n, 11, r.weights, 4, s.floats, from_targets);
    let from_joints = slot_word(n, 8, r.joints, 4, s.words, from_weights);
    let from_tangents = slot_word(n, 5, r.tangents, 4, s.floats, from_joints);
    let from_normals = slot_word(n, 2, r.normals, 3, s.floats, from_tangents);
    part_word(n, 0, r.positions, 3, s.floats, VERTEX_LIMIT, from_normals)
}

fn target_word(n: Refusal, s: Sizes, r: TargetRow) -> Option<u32>
    ensures { word_drawn n result ≡ first_asked (number_of n) (target_asked s r) nothing }
{
    let from_in_betweens = part_word(
        n,
        9,
        r.in_betweens,
        1,
        s.in_betweens,
        IN_BETWEEN_LIMIT,
        None,
    );
    let from_tangents = slot_word(n, 6, r.tangents, 3, s.floats, from_in_betweens);
    let from_normals = slot_word(n, 3, r.normals, 3, s.floats, from_tangents);
    slot_word(n, 0, r.positions, 3, s.floats, from_normals)
}

fn in_between_word(n: Refusal, s: Sizes, r: InBetweenRow) -> Option<u32>
    ensures { word_drawn n result ≡ first_asked (number_of n) (in_between_asked s r) nothing }
{
    let weight = Part {
        at: r.weight,
        count: 1,
    };
    let from_normals = slot_word(n, 4, r.normals, 3, s.floats, None);
    let from_positions = slot_word(n, 1, r.positions, 3, s.floats, from_normals);
    leaves_word(n, 0, tracks::fits(weight, 1, s.floats), from_positions)
}

fn skin_word(n: Refusal, r: SkinRow) -> Option<u32>
    ensures { word_drawn n result ≡ first_asked (number_of n) (skin_asked r) nothing }
{
    over_word(n, 1, r.root.mark <= 1, None)
}

fn skeleton_word(n: Refusal, s: Sizes, r: SkeletonRow) -> Option<u32>
    ensures { word_drawn n result ≡ first_asked (number_of n) (skeleton_asked s r) nothing }
{
    let from_binds = leaves_word(n, 2, tracks::fits(r.inverse_binds, 16, s.floats), None);
    part_word(n, 0, r.joints, 1, s.words, JOINT_LIMIT, from_binds)
}

// The first word of record i of a table that draws n, or none; of a node by the child entries up to it.
pub fn row_word(
    words: &[u32],
    s: Sizes,
    t: Part,
    k: Table,
    n: Refusal,
    i: usize,
    entries: usize,
) -> Option<u32>
    ensures { word_drawn n result ≡ first_asked (number_of n) (row_asked words.now s t k i entries) nothing }
{
    match k {
        Table::Nodes => node_word(n, s, tables::node_row(words, t, i), entries),
        Table::Channels => channel_word(n, s, tables::channel_row(words, t, i)),
        Table::Meshes => mesh_word(n, s, tables::mesh_row(words, t, i)),
        Table::Primitives => primitive_word(n, s, tables::primitive_row(words, t, i)),
        Table::Targets => target_word(n, s, tables::target_row(words, t, i)),
        Table::InBetweens => in_between_word(n, s, tables::in_between_row(words, t, i)),
        Table::Skins => skin_word(n, tables::skin_row(words, t, i)),
        Table::Skeletons => skeleton_word(n, s, tables::skeleton_row(words, t, i)),
    }
}
