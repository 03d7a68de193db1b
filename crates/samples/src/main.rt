// Bakes two published glTF samples at several times (NOTICE says where they are from), and compares each float with
// what the Rust gave. Scenes and answers stand in stdin, which `harness/run list published > crates/samples/stdin`
// makes; harness/compare/src/list/published.rs says the format. The last line is OK where the input is whole and
// nothing differs, and FAILED otherwise.
#![tactic(auto)]

mod bakes;

use lists::{Fields, Tally};
use scene_lists::Scene;
use std::io;

// For how many fields there is room.
const ROOM: usize = 8192;

// A scene of up to 2,048 floats and 16 weights of each sort, and so many bakes of it as the next field says. Answers
// the tally with these.
fn replay_sample(
    out: &impl Print,
    name: &str,
    fields: &mut Fields,
    so_far: Tally,
) -> io::Result<Tally> {
    println!(out; "{name}")?;
    let mut floats = [0.0f32; 2048];
    let mut node_weights = [0.0f32; 16];
    let mut mesh_weights = [0.0f32; 16];
    let scene = Scene::read(fields, &mut floats, &mut node_weights, &mut mesh_weights);
    let mut tally = so_far;
    for _ in 0..fields.word() {
        if fields.is_past() {
            break;
        }
        tally = tally.with(bakes::replay(out, scene, fields)?);
    }
    Ok(tally)
}

fn main(rt: HostRuntime) -> io::Result<()> {
    let out = rt.stdout();
    let mut room = [0u32; ROOM];
    let input = lists::read_fields(&mut rt.stdin(), &mut room)?;
    let mut fields = Fields::new(&room[..input.count]);
    let mut tally = Tally::new();
    for name in ["simple_skin", "AnimatedMorphCube"] {
        tally = replay_sample(&out, name, &mut fields, tally)?;
    }
    println!(out; "bakes: {tally}")?;
    lists::print_verdict(&out, input.whole && tally.all_same() && fields.is_end())
}
