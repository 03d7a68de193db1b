// The placing from a given pose, its results written in bytes.
#![tactic(auto)]

ghost use Rattle.std.specs.Prelude.{◌*◌, ◌≤◌, length};
ghost use Rattle.tables.specs.Decoded.{lent_of};
ghost use Rattle.worlds.specs.Placed.{answer_of, NodesPlaced};
ghost use Rattle.borrowed.specs.Slices.{change};
ghost use Rattle.byte_placing.specs.Placed.{placing_room, PlacedIn, WrittenBack};

use refusals::Refusal;
use tables::Lent;
use worlds::Room;

// Writes n codes and n matrices to the start of bytes.
fn write_back(n: usize, codes: &[u32], matrices: &[f32], places: &mut [u8], worlds: &mut [u8])
    requires n_in_bounds { (n ≤ length codes.now) × (n * 16 ≤ length matrices.now) }
    requires n_in_bounds_2 { (4 * n ≤ length places.old) × (4 * (n * 16) ≤ length worlds.old) }
    ensures { WrittenBack n codes.now matrices.now places.old
        places.new worlds.old worlds.new }
{
    let m = n * 16;
    wire::write(&codes[..n], places);
    wire::write(&matrices[..m], worlds);
}

// Where every node stands, its place and its world in slices.
fn place_numbers(
    lent: Lent,
    marks: &[u32],
    slots: &[f32],
    walk: &mut [u32],
    codes: &mut [u32],
    matrices: &mut [f32],
) -> Result<usize, Refusal>
    ensures { NodesPlaced (lent_of lent.entry) marks.now slots.now (change walk) (change codes)
        (change matrices) (answer_of result) }
{
    let mut room = Room {
        walk,
        places: codes,
        worlds: matrices,
    };
    worlds::posed_node_transforms(lent, marks, slots, &mut room)
}

// Where every node stands, as `worlds::posed_node_transforms` says it, in numbers and in bytes: there are as many world
// slots as both have. The slices are no struct: a field can't be cut while others of the same struct are in use.
pub fn place_over(
    lent: Lent,
    marks: &[u32],
    slots: &[f32],
    walk: &mut [u32],
    codes: &mut [u32],
    matrices: &mut [f32],
    places: &mut [u8],
    worlds: &mut [u8],
) -> Result<usize, Refusal>
    ensures { PlacedIn 0 (lent_of lent.entry) marks.now slots.now
        (placing_room walk codes matrices places worlds) (answer_of result) }
{
    let c = codes.len().min(places.len() / 4);
    let m = matrices.len().min(worlds.len() / 4);
    let taken = place_numbers(
        lent,
        marks,
        slots,
        walk,
        &mut codes[..c],
        &mut matrices[..m],
    )?;
    let nodes = lent.header.graph.nodes;
    write_back(nodes.count, codes, matrices, places, worlds);
    Ok(taken)
}
