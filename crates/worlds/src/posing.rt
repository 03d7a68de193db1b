ghost use Rattle.std.specs.Prelude.{◌≡◌, ◌*◌, ◌≤◌, length, get_or};
ghost use Rattle.tables.specs.Decoded.{lent_of};
ghost use Rattle.worlds.specs.Posed.{local_of, placed_in_order, unplaced_in};
ghost use Rattle.worlds.specs.Rooms.{SameRoom, WorldsAlone};

use crate::Room;
use crate::slots::place_one;
use scene::Mat4;
use tables::{Graph, Lent};

// The local matrix of node i in a pose.
fn local_matrix(lent: Lent, marks: &[u32], slots: &[f32], i: usize) -> Mat4
    ensures { result.m ≡ local_of (lent_of lent.entry) marks.now slots.now i }
{
    let nodes = lent.header.graph.nodes;
    let base = tables::base_of(lent.floats, tables::node_row(lent.words, nodes, i));
    scene::to_matrix(pose_slots::local_transform(pose_slots::pose_at(marks, slots, i), base))
}

// The code of the place of node i; 0 past the slots.
fn code_at(room: &Room<'_>, i: usize) -> u32
    ensures { result ≡ get_or room.now.places.now i 0 }
{
    if i < room.places.len() {
        return room.places[i];
    }
    0
}

// Writes the worlds of the nodes of `order`, one after the other; `places` has the code of each node's place.
fn place_worlds(lent: Lent, marks: &[u32], slots: &[f32], order: &[u32], room: &mut Room<'_>)
    ensures same_room { SameRoom room.old room.new }
    ensures worlds_alone { WorldsAlone room.old room.new (placed_in_order (lent_of lent.entry) marks.now
        slots.now room.old.places.now order.now room.old.worlds.now) }
{
    for k in 0..order.len() {
        let id = order[k];
        let i = id as usize;
        let local = local_matrix(lent, marks, slots, i);
        let code = code_at(room, i);
        place_one(room.worlds, id, code, local);
    }
}

// Takes away the worlds of all nodes.
fn clear(worlds: &mut [f32], graph: Graph)
    requires { graph.nodes.count * 16 ≤ length worlds.old }
    ensures { worlds.new ≡ unplaced_in graph worlds.old }
{
    let m = graph.nodes.count * 16;
    worlds[..m].fill(0.0);
}

// Writes the worlds of the nodes of `order`; all others have none.
pub(crate) fn write_worlds(
    lent: Lent,
    marks: &[u32],
    slots: &[f32],
    order: &[u32],
    room: &mut Room<'_>,
)
    requires { lent.header.graph.nodes.count * 16 ≤ length room.old.worlds.now }
    ensures same_room { SameRoom room.old room.new }
    ensures worlds_alone { WorldsAlone room.old room.new (placed_in_order (lent_of lent.entry) marks.now
        slots.now room.old.places.now order.now
        (unplaced_in lent.entry.header.graph room.old.worlds.now)) }
{
    clear(room.worlds, lent.header.graph);
    place_worlds(lent, marks, slots, order, room);
}
