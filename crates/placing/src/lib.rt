// The placing of the nodes without their matrices: which node is placed under which, in what order, and how many
// entries are taken. The room `walk` holds a stack of entries, two words each: an id, and the code of the place it is
// listed for.
#![tactic(auto)]

ghost use Rattle.std.specs.Prelude.{◌≡◌, ◌+◌, ◌*◌, ◌≤◌, ◌<◌, length};
ghost use Rattle.borrowed.specs.Slices.{change};
ghost use Rattle.model.specs.Limits.{node_limit};
ghost use Rattle.tables.specs.Decoded.{children_in};
ghost use Rattle.placing.specs.Walk.{roots_in, listing_in, entries_of, Wiped, Walked};
ghost use Rattle.placing.specs.WalkRoom.{Named, stack_of, Ready, Pushed, Started, Steps, Drains};
ghost use Rattle.placing.specs.WalkRoom.{SameSlices, SameLengths, stack_change, places_change, order_change};

use refusals::NODE_LIMIT;
use tables::Graph;

// How many entries were taken, and how many nodes were placed.
#[derive(Clone, Copy)]
pub struct Run {
    pub taken: usize,
    pub placed: usize,
}

// The entries on the stack, and the nodes that are placed.
#[derive(Clone, Copy)]
struct Heights {
    top: usize,
    placed: usize,
}

// The listing: the tables of the nodes and the roots.
#[derive(Clone, Copy)]
struct Listing<'a> {
    words: &'a [u32],
    graph: Graph,
}

// What a walk writes: the stack of entries, the code of each node's place, and the placed nodes in order.
#[derive(Drop)]
struct Walk<'a> {
    stack: &'a mut [u32],
    places: &'a mut [u32],
    order: &'a mut [u32],
}

// Pushes the ids of a list, the last first, all for one place. Returns the new top.
fn push(list: &[u32], code: u32, walk: &mut [u32], top: usize) -> usize
    requires { 2 * (top + length list.now) ≤ length walk.old }
    ensures { Pushed list.now code (change walk) top result }
{
    let mut at = top;
    for i in (0..list.len()).rev() {
        walk[2 * at] = list[i];
        walk[2 * at + 1] = code;
        at += 1;
    }
    at
}

// The child list of node i.
fn children_of<'a>(l: Listing<'a>, i: usize) -> &'a [u32]
    ensures { result.now ≡ children_in l.entry.words.now l.entry.graph.nodes i }
{
    let row = tables::node_row(l.words, l.graph.nodes, i);
    tables::words_in(l.words, row.children, 1)
}

// Takes the entry at the top: a node that is in range and not placed is placed, anything else is dropped.
fn step(l: Listing<'_>, walk: &mut Walk<'_>, h: Heights) -> Heights
    requires ready { Ready (listing_in l.words.now l.graph) walk.old.stack.now walk.old.places.now walk.old.order.now
        h.top h.placed }
    requires top_nonzero { 0 < h.top }
    ensures steps { Steps (listing_in l.entry.words.now l.entry.graph) walk.old walk.new h result }
    ensures same_slices { SameSlices walk.old walk.new }
    ensures same_lengths { SameLengths walk.old walk.new }
{
    let t = h.top - 1;
    let n = h.placed;
    let id = walk.stack[2 * t];
    let code = walk.stack[2 * t + 1];
    let i = id as usize;
    if i < walk.places.len() {
        if walk.places[i] == 0 {
            walk.places[i] = code;
            walk.order[n] = id;
            let top = push(children_of(l, i), id + 3, walk.stack, t);
            return Heights { top, placed: n + 1 };
        }
    }
    Heights { top: t, placed: n }
}

// Ends a run: nothing waits in the walk room.
fn finish(walk: &mut [u32], run: Run) -> Run
    ensures { (result ≡ run) × Wiped (change walk) }
{
    walk.fill(0);
    run
}

// Takes entries until the stack is empty, and wipes the room: a `while`, since the walk says how often.
fn drain(l: Listing<'_>, walk: &mut Walk<'_>, top: usize) -> Run
    requires ready { Ready (listing_in l.words.now l.graph) walk.old.stack.now walk.old.places.now walk.old.order.now
        top 0 }
    requires named { Named (stack_of walk.old.stack.now top) }
    ensures drains { Drains (listing_in l.entry.words.now l.entry.graph) walk.old walk.new top result }
    ensures same_slices { SameSlices walk.old walk.new }
    ensures same_lengths { SameLengths walk.old walk.new }
{
    let mut h = Heights { top, placed: 0 };
    let mut taken: usize = 0;
    while 0 < h.top {
        h = step(l, walk, h);
        taken += 1;
    }
    finish(
        walk.stack,
        Run {
            taken,
            placed: h.placed,
        },
    )
}

// No node is placed, and the roots are on the stack. Returns its top.
fn start(l: Listing<'_>, walk: &mut Walk<'_>) -> usize
    requires { 2 * length (roots_in l.words.now l.graph) ≤ length walk.old.stack.now }
    ensures started { Started (listing_in l.entry.words.now l.entry.graph) (places_change walk.old walk.new)
        (stack_change walk.old walk.new) result }
    ensures same_slices { SameSlices walk.old walk.new }
    ensures same_lengths { SameLengths walk.old walk.new }
    ensures order { walk.new.order.now ≡ walk.old.order.now }
{
    walk.places.fill(0);
    push(
        tables::words_in(l.words, l.graph.roots, 1),
        1,
        walk.stack,
        0,
    )
}

// Places the nodes, where there are as many places as nodes.
fn fill(l: Listing<'_>, walk: &mut Walk<'_>) -> Run
    requires count_value { l.graph.nodes.count ≡ length walk.old.places.now }
    requires count_le_node_limit { (l.graph.nodes.count ≤ node_limit)
        × (l.graph.nodes.count ≤ length walk.old.order.now) }
    requires graph_in_bounds { 2 * entries_of (listing_in l.words.now l.graph) ≤ length walk.old.stack.now }
    ensures walked { Walked (listing_in l.entry.words.now l.entry.graph) (stack_change walk.old walk.new)
        (places_change walk.old walk.new) (order_change walk.old walk.new) result.taken result.placed }
    ensures same_slices { SameSlices walk.old walk.new }
{
    if walk.places.len() == 0 {
        return finish(
            walk.stack,
            Run {
                taken: 0,
                placed: 0,
            },
        );
    }
    let top = start(l, walk);
    drain(l, walk, top)
}

// The same in three slices: what a part of a slice holds when a struct that borrows it ends, Rattle does not tell.
fn lend(l: Listing<'_>, stack: &mut [u32], places: &mut [u32], order: &mut [u32]) -> Run
    requires count_value { l.graph.nodes.count ≡ length places.old }
    requires count_le_node_limit { (l.graph.nodes.count ≤ node_limit) × (l.graph.nodes.count ≤ length order.old) }
    requires graph_in_bounds { 2 * entries_of (listing_in l.words.now l.graph) ≤ length stack.old }
    ensures { Walked (listing_in l.entry.words.now l.entry.graph) (change stack) (change places) (change order)
        result.taken result.placed }
{
    let mut walk = Walk {
        stack,
        places,
        order,
    };
    fill(l, &mut walk)
}

// Places the nodes: the code of each node's place goes to `places`, the placed nodes in order to `order`. Then nothing
// waits in `walk`.
pub fn place(
    words: &[u32],
    graph: Graph,
    walk: &mut [u32],
    places: &mut [u32],
    order: &mut [u32; NODE_LIMIT],
) -> Run
    requires count_le_node_limit { graph.nodes.count ≤ node_limit }
    requires count_in_bounds { graph.nodes.count ≤ length places.old }
    requires graph_in_bounds { 2 * entries_of (listing_in words.now graph) ≤ length walk.old }
    ensures { Walked (listing_in words.now graph) (change walk) (change places) (change order)
        result.taken result.placed }
{
    let n = graph.nodes.count;
    lend(Listing { words, graph }, walk, &mut places[..n], order)
}
