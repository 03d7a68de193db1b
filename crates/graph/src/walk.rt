// The walk over the listing. Ids wait in an array; one is pushed only as a root or when its node is marked, so as many
// wait at most as there are roots and nodes.
ghost use Rattle.std.specs.Prelude.{◌≡◌, ◌+◌, ◌-◌, ◌≤◌, ◌<◌, length, get_or, replicate};
ghost use Rattle.model.specs.Limits.{node_limit, root_limit};
ghost use Rattle.model.specs.Parents.{mark_one, mark_all, take_id};
ghost use Rattle.tables.specs.Decoded.{span_in, children_in};
ghost use Rattle.graph.specs.Stack.{zeros, TurnedIn, Rooted, Drained, Marked};

use refusals::{NODE_LIMIT, ROOT_LIMIT};
use tables::Graph;
use tracks::Part;

// The most roots and nodes.
const ROOM: usize = NODE_LIMIT + ROOT_LIMIT;

// Marks and pushes the roots, the last first. Returns how many wait.
fn list_roots(roots: &[u32], ids: &mut [u32], marks: &mut [u32]) -> usize
    requires { length roots.now ≤ length ids.old }
    ensures { Rooted roots.now marks.old ids.new result marks.new }
{
    let mut top = 0;
    for i in (0..roots.len()).rev() {
        let id = roots[i];
        let k = id as usize;
        if k < marks.len() {
            marks[k] = 1;
        }
        ids[top] = id;
        top += 1;
    }
    top
}

// Node p lists x. Returns how many wait.
fn list_one(p: u32, x: u32, ids: &mut [u32], marks: &mut [u32], top: usize) -> usize
    requires { (p < node_limit) × (top + zeros marks.old ≤ length ids.old) }
    ensures { TurnedIn (mark_one p x) ids marks top result }
{
    let k = x as usize;
    if k < marks.len() {
        if marks[k] == 0 {
            marks[k] = p + 3;
            ids[top] = x;
            return top + 1;
        }
    }
    top
}

// Node p lists all of `list`, the last first. Returns how many wait.
fn list_all(p: u32, list: &[u32], ids: &mut [u32], marks: &mut [u32], top: usize) -> usize
    requires { (p < node_limit) × (top + zeros marks.old ≤ length ids.old) }
    ensures { TurnedIn (mark_all p list.now) ids marks top result }
{
    let mut at = top;
    for i in (0..list.len()).rev() {
        at = list_one(p, list[i], ids, marks, at);
    }
    at
}

// Takes the id at the top. Returns how many wait.
fn step(words: &[u32], nodes: Part, ids: &mut [u32], marks: &mut [u32], top: usize) -> usize
    requires { (0 < top) × (top + zeros marks.old ≤ length ids.old) × (length marks.old ≤ node_limit) }
    ensures { TurnedIn (take_id (children_in words.now nodes) (get_or ids.old (top - 1) 0))
        ids marks (top - 1) result }
{
    let t = top - 1;
    let id = ids[t];
    let i = id as usize;
    if i < marks.len() {
        let row = tables::node_row(words, nodes, i);
        let list = tables::words_in(words, row.children, 1);
        return list_all(id, list, ids, marks, t);
    }
    t
}

// Takes all that waits: a `while`, since the walk says how often.
fn drain(words: &[u32], nodes: Part, ids: &mut [u32], marks: &mut [u32], top: usize)
    requires { (top + zeros marks.old ≤ length ids.old) × (length marks.old ≤ node_limit) }
    ensures { Drained words.now nodes ids.old top marks.old
        marks.new }
{
    let mut left = top;
    while 0 < left {
        left = step(words, nodes, ids, marks, left);
    }
}

// The roots alone are marked. Returns how many wait.
fn start(roots: &[u32], ids: &mut [u32], marks: &mut [u32]) -> usize
    requires { length roots.now ≤ length ids.old }
    ensures { Rooted roots.now (replicate (length marks.old) 0) ids.new result
        marks.new }
{
    marks.fill(0);
    list_roots(roots, ids, marks)
}

// Marks every node.
pub(crate) fn mark(words: &[u32], graph: Graph, marks: &mut [u32])
    requires { (length (span_in words.now graph.roots 1) ≤ root_limit) × (length marks.old ≤ node_limit) }
    ensures { Marked words.now graph.nodes (span_in words.now graph.roots 1)
        (length marks.old) marks.new }
{
    let mut ids = [0u32; ROOM];
    let roots = tables::words_in(words, graph.roots, 1);
    let top = start(roots, &mut ids, marks);
    drain(words, graph.nodes, &mut ids, marks, top);
}
