// Replays a fixed list of the Rust's answers on generated scenes, and counts for each call the answers that differ.
// `harness/run list scenes > crates/replay_scenes/stdin` makes it, and harness/compare/src/list/scenes.rs says the
// format. The last line is OK where the input is whole, every call was seen and nothing differs, and FAILED
// otherwise.
#![tactic(auto)]

mod calls;
mod nodes;
mod reports;
mod skins;
mod told;
mod vertices;

use lists::Fields;
use reports::Report;
use scene_lists::Scene;
use std::io;

// For how many fields there is room.
const ROOM: usize = 140_000;

// A scene of up to 4,096 floats and 64 weights of each sort, and so many calls on it as the next field says.
fn replay_scene(fields: &mut Fields, report: &mut Report) {
    let mut floats = [0.0f32; 4096];
    let mut node_weights = [0.0f32; 64];
    let mut mesh_weights = [0.0f32; 64];
    let scene = Scene::read(fields, &mut floats, &mut node_weights, &mut mesh_weights);
    for _ in 0..fields.word() {
        if fields.is_past() {
            break;
        }
        let call = calls::call_of(fields.word());
        let same = calls::replay(call, scene, fields);
        report.add(call, same);
    }
}

fn main(rt: HostRuntime) -> io::Result<()> {
    let out = rt.stdout();
    let mut room = [0u32; ROOM];
    let input = lists::read_fields(&mut rt.stdin(), &mut room)?;
    let mut fields = Fields::new(&room[..input.count]);
    let mut report = Report::new();
    for _ in 0..fields.word() {
        if fields.is_past() {
            break;
        }
        replay_scene(&mut fields, &mut report);
    }
    report.print(&out)?;
    lists::print_verdict(&out, input.whole && report.is_good() && fields.is_end())
}
