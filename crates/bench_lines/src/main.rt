// Runs the line of the scope's "From the blade bench" that has no star, on a scene that is lent in words
// (docs/TABLES.md).
#![tactic(auto)]

use std::io;
use tables::{Graph, Header, Lent, Meshes, Skins};
use tracks::Part;

// The first listing: root 0; 0 lists 1, 2; 1 lists 2. Skin 0 has the joints 1, 2, and skin 1 the joint 1: the words of
// node 0's children serve for all of these lists.
static FIRST_LISTING: [u32; 67] = [
    0, 0, 48, 2, 0, 0, 0, 0, 0, 0, 0, 0, 0, 0, 0, 0, // node 0
    0, 0, 49, 1, 0, 0, 0, 0, 0, 0, 0, 0, 0, 0, 0, 0, // node 1
    0, 0, 0, 0, 0, 0, 0, 0, 0, 0, 0, 0, 0, 0, 0, 0, // node 2
    1, 2, 0, // the list, and the root
    0, 0, 0, 0, // skin 0, of skeleton 0
    1, 0, 0, 0, // skin 1, of skeleton 1
    48, 2, 0, 0, // the joints of skeleton 0
    48, 1, 0, 0, // the joints of skeleton 1
];

// The base transforms of all nodes.
static BASE: [f32; 10] = [0.0, 0.0, 0.0, 0.0, 0.0, 0.0, 1.0, 1.0, 1.0, 1.0];

fn part(at: usize, count: usize) -> Part {
    Part { at, count }
}

fn header() -> Header {
    let none = part(0, 0);
    Header {
        graph: Graph {
            nodes: part(0, 3),
            roots: part(50, 1),
        },
        channels: none,
        meshes: Meshes {
            meshes: none,
            primitives: none,
            targets: none,
            in_betweens: none,
        },
        skins: Skins {
            skins: part(51, 2),
            skeletons: part(59, 2),
        },
    }
}

fn print_root(out: &impl Print, what: &str, skin: u32) -> io::Result<()> {
    let lent = Lent {
        words: &FIRST_LISTING,
        floats: &BASE,
        node_weights: &[],
        mesh_weights: &[],
        header: header(),
    };
    match skin_roots::skin_root(lent, skin) {
        Ok(root) => println!(out; "{what}: root {root}"),
        Err(refusal) => println!(out; "{what}: refused with {}", u32::from(refusal)),
    }
}

fn main(rt: HostRuntime) -> io::Result<()> {
    let out = rt.stdout();
    print_root(&out, "Joints 1, 2 of the first listing", 0)?;
    print_root(&out, "Joint 1 alone", 1)
}
