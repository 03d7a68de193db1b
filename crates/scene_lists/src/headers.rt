// The header of a scene as it is lent (docs/TABLES.md): at and count of nine tables, in its order.
ghost use Rattle.std.specs.Prelude.{◌≡◌};
ghost use Rattle.lists.specs.Fields.{ahead_of};
ghost use Rattle.lists.specs.Moves.{MovesTo};
ghost use Rattle.scene_lists.specs.Scenes.{part_at, header_at};

use lists::Fields;
use tables::{Graph, Header, Meshes, Skins};
use tracks::Part;

// The next table.
fn part(fields: &mut Fields) -> Part
    ensures value { result ≡ part_at fields.old.all.now fields.old.at 0 }
    ensures moves { MovesTo fields.old fields.new (ahead_of fields.old.all.now fields.old.at 2) }
{
    let at = fields.number();
    let count = fields.number();
    Part { at, count }
}

pub fn header(fields: &mut Fields) -> Header
    ensures value { result ≡ header_at fields.old.all.now fields.old.at }
    ensures moves { MovesTo fields.old fields.new (ahead_of fields.old.all.now fields.old.at 18) }
{
    let nodes = part(fields);
    let roots = part(fields);
    let channels = part(fields);
    let meshes = part(fields);
    let primitives = part(fields);
    let targets = part(fields);
    let in_betweens = part(fields);
    let skins = part(fields);
    let skeletons = part(fields);
    Header {
        graph: Graph { nodes, roots },
        channels,
        meshes: Meshes {
            meshes,
            primitives,
            targets,
            in_betweens,
        },
        skins: Skins { skins, skeletons },
    }
}
