// How much room a bake of one node needs: the lengths of its slices, told before it is called.
#![tactic(auto)]

ghost use Rattle.std.specs.Prelude.{◌≡◌, ◌≤◌};
ghost use Rattle.model.specs.Limits.{node_limit, root_limit, child_entry_limit};
ghost use Rattle.tables.specs.Decoded.{lent_of};
ghost use Rattle.bake_room.specs.Needed.{room_from, answer_of, room_for};

use refusals::Refusal;
use shapes::Lengths;
use tables::{Graph, Lent};

// A refusal number, or 0; the lengths of the scratch room and of the three outputs, in entries of each slice: what a C
// function answers.
#[repr(C)]
#[derive(Clone, Copy)]
pub struct Room {
    pub number: u32,
    pub marks: usize,
    pub slots: usize,
    pub walk: usize,
    pub places: usize,
    pub worlds: usize,
    pub positions: usize,
    pub normals: usize,
    pub tangents: usize,
}

// The same, where a bake is not refused.
#[derive(Clone, Copy)]
pub struct RoomLengths {
    pub marks: usize,
    pub slots: usize,
    pub walk: usize,
    pub places: usize,
    pub worlds: usize,
    pub lengths: Lengths,
}

impl From<Result<RoomLengths, Refusal>> for Room {
    ghost from_gives = { λ r a. a ≡ answer_of r };

    fn from(r: Result<RoomLengths, Refusal>) -> Room {
        match r {
            Ok(needed) => Room {
                number: 0,
                marks: needed.marks,
                slots: needed.slots,
                walk: needed.walk,
                places: needed.places,
                worlds: needed.worlds,
                positions: needed.lengths.positions,
                normals: needed.lengths.normals,
                tangents: needed.lengths.tangents,
            },
            Err(e) => Room {
                number: u32::from(e),
                marks: 0,
                slots: 0,
                walk: 0,
                places: 0,
                worlds: 0,
                positions: 0,
                normals: 0,
                tangents: 0,
            },
        }
    }
}

// The room for a listing with so many child entries, and for so many floats.
fn room_from(graph: Graph, children: usize, n: Lengths) -> RoomLengths
    requires { (graph.nodes.count ≤ node_limit) × (graph.roots.count ≤ root_limit)
        × (children ≤ child_entry_limit) }
    ensures { answer_of (Ok result) ≡ room_from graph.nodes.count graph.roots.count children n }
{
    let nodes = graph.nodes.count;
    RoomLengths {
        marks: nodes * 4,
        slots: nodes * 10,
        walk: (graph.roots.count + children) * 2,
        places: nodes,
        worlds: nodes * 16,
        lengths: n,
    }
}

// The room that a bake of a node needs, at any time; 1, 2, or 7 where the node is none or has no mesh.
pub fn room_for(lent: Lent, node: u32) -> Result<RoomLengths, Refusal>
    ensures { answer_of result ≡ room_for (lent_of lent.entry) node }
{
    skin::check_weights(lent, node)?;
    let h = lent.header;
    let mesh = bake_writing::mesh_of(lent, node);
    let n = shapes::mesh_lengths(lent.words, h.meshes.primitives, mesh.primitives);
    Ok(room_from(h.graph, checks::child_entries(lent.words, h.graph.nodes), n))
}
