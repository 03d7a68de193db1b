ghost use Rattle.std.specs.Prelude.{◌≡◌, ◌≤◌, ltb, length};
ghost use Rattle.std.proofs.Math.Option.{none, some};
ghost use Rattle.model.specs.Limits.{node_limit};
ghost use Rattle.model.specs.Lists.{pick, every};
ghost use Rattle.tables.specs.Tags.{option_of};
ghost use Rattle.tables.specs.Decoded.{lent_of};
ghost use Rattle.skin_roots.specs.Lines.{Inside, common_in};
ghost use Rattle.skin_roots.specs.Roots.{Rooted, answer_of, RootAnswered};

use crate::lines::{count_lines, first_counted};
use refusals::{NODE_LIMIT, Refusal};
use tables::{Header, Lent};

// Whether every joint is one of n nodes.
fn all_nodes(joints: &[u32], n: usize) -> bool
    ensures { result ≡ every (λ j. ltb j n) joints.now }
{
    for i in 0..joints.len() {
        if n <= joints[i] as usize {
            return false;
        }
    }
    true
}

// The nearest node that is on the lines of all joints.
fn common_root(codes: &[u32], joints: &[u32]) -> Option<u32>
    requires { (length codes.now ≤ node_limit) × Inside codes.now }
    ensures { option_of result ≡ common_in codes.now joints.now }
{
    if joints.len() == 0 {
        return None;
    }
    if !all_nodes(joints, codes.len()) {
        return None;
    }
    let mut counts = [0usize; NODE_LIMIT];
    count_lines(codes, &joints[1..], &mut counts);
    first_counted(codes, joints[0], &counts, joints.len() - 1)
}

// One of n nodes, or nothing.
fn in_range(id: u32, n: usize) -> Option<u32>
    ensures { option_of result ≡ pick (ltb id n) (some id) none }
{
    if (id as usize) < n {
        return Some(id);
    }
    None
}

// The root of a skin, with the codes of all nodes' marks. A root that is named stands without a look at the joints.
fn root_of(words: &[u32], h: Header, skin: u32, codes: &[u32]) -> Option<u32>
    requires { (length codes.now ≤ node_limit) × Inside codes.now
        × (length codes.now ≡ h.graph.nodes.count) }
    ensures { Rooted words.now h skin codes.now result }
{
    let skins = h.skins;
    let k = skin as usize;
    if skins.skins.count <= k {
        return None;
    }
    let row = tables::skin_row(words, skins.skins, k);
    if row.root.mark != 0 {
        return in_range(row.root.id, codes.len());
    }
    let b = row.skeleton as usize;
    if skins.skeletons.count <= b {
        return None;
    }
    let bones = tables::skeleton_row(words, skins.skeletons, b);
    common_root(codes, tables::words_in(words, bones.joints, 1))
}

// The root of a skin: the node that it names, or the nearest one that is above all joints.
pub fn skin_root(lent: Lent, skin: u32) -> Result<u32, Refusal>
    ensures { RootAnswered (lent_of lent.entry) skin (answer_of result) }
{
    let mut marks = [0u32; NODE_LIMIT];
    let h = lent.header;
    graph::parents(lent, &mut marks)?;
    let n = h.graph.nodes.count;
    match root_of(lent.words, h, skin, &marks[..n]) {
        Some(node) => Ok(node),
        None => Err(Refusal::NoCommonRoot),
    }
}
