ghost use Rattle.std.specs.Prelude.{◌≡◌};
ghost use Rattle.refusals.specs.Drawn.{number_drawn};
ghost use Rattle.tables.specs.Decoded.{lent_of};
ghost use Rattle.checks.specs.Drawn.{scene_lent};
ghost use Rattle.skin.specs.Weights.{names_mesh, Meshed, Effective, weights_number_for, weights_for};

use refusals::Refusal;
use tables::{Header, Lent, MeshRow, NodeRow};

// The weights that a node and its mesh say: the node's own, if it has any, otherwise the mesh's.
pub fn weights_of<'a>(
    node_weights: &'a [f32],
    mesh_weights: &'a [f32],
    node: NodeRow,
    mesh: MeshRow,
) -> &'a [f32]
    ensures { Effective node_weights.now mesh_weights.now node mesh result.now }
{
    let slot = node.weights;
    if slot.mark != 0 {
        let own = tables::floats_in(node_weights, slot.part, 1);
        if own.len() != 0 {
            return own;
        }
    }
    tables::floats_in(mesh_weights, mesh.weights, 1)
}

// Whether the row of a node names a mesh.
pub fn row_has_mesh(row: NodeRow, h: Header) -> bool
    ensures { result ≡ names_mesh row h }
{
    if tables::is_marked(row.mesh.mark) {
        return (row.mesh.id as usize) < h.meshes.meshes.count;
    }
    false
}

// Whether a node has a mesh.
pub fn has_mesh(words: &[u32], h: Header, node: u32) -> bool
    ensures { Meshed words.now h node result }
{
    let i = node as usize;
    let nodes = h.graph.nodes;
    if nodes.count <= i {
        return false;
    }
    row_has_mesh(tables::node_row(words, nodes, i), h)
}

// What a call for the weights of a node's mesh draws.
pub fn check_weights(lent: Lent, node: u32) -> Result<(), Refusal>
    ensures { number_drawn result ≡ weights_number_for (lent_of lent.entry) node }
{
    let h = lent.header;
    checks::check_tables(lent)?;
    if has_mesh(lent.words, h, node) {
        return Ok(());
    }
    Err(Refusal::NoSuchNode)
}

// The weights that a node's mesh is blended with, where they lie; the empty part where the call is refused. In a `Lent`
// the words and floats would have to live as long as the answer.
pub fn effective_morph_weights<'a>(
    words: &[u32],
    floats: &[f32],
    node_weights: &'a [f32],
    mesh_weights: &'a [f32],
    h: Header,
    node: u32,
) -> &'a [f32]
    ensures { result.now ≡ weights_for (scene_lent words floats node_weights mesh_weights h) node }
{
    let lent = Lent {
        words,
        floats,
        node_weights,
        mesh_weights,
        header: h,
    };
    if check_weights(lent, node).is_err() {
        return &node_weights[0..0];
    }
    let row = tables::node_row(words, h.graph.nodes, node as usize);
    let mesh = tables::mesh_row(words, h.meshes.meshes, row.mesh.id as usize);
    weights_of(node_weights, mesh_weights, row, mesh)
}
