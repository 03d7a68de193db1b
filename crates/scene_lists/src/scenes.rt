// A scene: behind its header the lists words, floats, node weights and mesh weights.
ghost use Rattle.std.specs.Prelude.{◌≡◌, length};

use crate::headers::header;
use lists::Fields;
use tables::{Header, Lent};

#[derive(Clone, Copy)]
pub struct Scene<'a> {
    pub words: &'a [u32],
    pub floats: &'a [f32],
    pub node_weights: &'a [f32],
    pub mesh_weights: &'a [f32],
    pub header: Header,
}

impl<'a> Scene<'a> {
    ghost use Rattle.tables.specs.Decoded as decoded;
    ghost use Rattle.lists.specs.Moves.{MovesTo};
    ghost use Rattle.scene_lists.specs.Scenes.{places_at};
    ghost use Rattle.scene_lists.specs.Lent.{lent_of, lent_at};

    // With room for its floats, and weights of each sort.
    pub fn read<'f: 'a>(
        fields: &mut Fields<'f>,
        floats: &'a mut [f32],
        node_weights: &'a mut [f32],
        mesh_weights: &'a mut [f32],
    ) -> Self
        ensures scene { lent_of result ≡ lent_at fields.old.all.now fields.old.at
            (length floats.old) (length node_weights.old) (length mesh_weights.old) }
        ensures moves { MovesTo fields.old fields.new (places_at fields.old.all.now fields.old.at
            (length floats.old) (length node_weights.old) (length mesh_weights.old)).end }
    {
        let header = header(fields);
        let words = fields.list(fields.all.len());
        let f = fields.floats(floats);
        let n = fields.floats(node_weights);
        let m = fields.floats(mesh_weights);
        Scene {
            words,
            floats: &floats[..f],
            node_weights: &node_weights[..n],
            mesh_weights: &mesh_weights[..m],
            header,
        }
    }

    // What it lends.
    pub fn lent(&self) -> Lent<'_>
        ensures { decoded.lent_of result ≡ lent_of self.now }
    {
        Lent {
            words: self.words,
            floats: self.floats,
            node_weights: self.node_weights,
            mesh_weights: self.mesh_weights,
            header: self.header,
        }
    }
}
