ghost use Rattle.std.specs.Prelude.{◌≡◌};
ghost use Rattle.tables.specs.Records.{node_row, mesh_row};
ghost use Rattle.tables.specs.Decoded.{lent_of};
ghost use Rattle.borrowed.specs.Attributes.{SameSlices};
ghost use Rattle.bake_writing.specs.Delivered.{part_of, Deliverable, Delivers};

use crate::Placed;
use crate::palettes::put_out;
use crate::weighing::weights_into;
use borrowed::Vertices;
use refusals::WEIGHT_LIMIT;
use tables::{Lent, MeshRow};

// The record of a node's mesh.
pub fn mesh_of(lent: Lent, node: u32) -> MeshRow
    ensures { result ≡ mesh_row lent.entry.words.now lent.entry.header.meshes.meshes
        (node_row lent.entry.words.now lent.entry.header.graph.nodes node).mesh.id }
{
    let h = lent.header;
    let row = tables::node_row(lent.words, h.graph.nodes, node as usize);
    tables::mesh_row(lent.words, h.meshes.meshes, row.mesh.id as usize)
}

// Puts out the mesh of a node, in the pose and the placing that the scratch room holds; the tables have been checked,
// and the outputs are long enough.
pub fn deliver(
    lent: Lent,
    node: u32,
    time: f32,
    marks: &[u32],
    placed: Placed,
    out: &mut Vertices<'_>,
)
    requires { Deliverable lent.words.now lent.floats.now lent.header (part_of lent.words.now lent.header node)
        out.old }
    ensures same_outputs { SameSlices out.old out.new }
    ensures delivers { Delivers (lent_of lent.entry) node time marks.now placed.entry out.old out.new }
{
    let mut blend = [0.0f32; WEIGHT_LIMIT];
    let mesh = mesh_of(lent, node);
    let n = weights_into(lent, node, mesh, time, marks, &mut blend);
    let i = node as usize;
    let row = tables::node_row(lent.words, lent.header.graph.nodes, i);
    let world = scene::load(placed.worlds, i * 16);
    put_out(
        lent,
        mesh.primitives,
        &blend[..n],
        world,
        row.skin,
        placed,
        out,
    );
}
