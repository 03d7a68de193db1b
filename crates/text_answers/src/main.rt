// Reads texts, each up to a line with '%', and prints for each the number that the reader answers; where the text has
// no reading also the place at which it breaks; where the number is 0 also the node and the bits of the time, and
// whether the scene is written as the same text.
#![tactic(auto)]

ghost use Rattle.std.specs.Prelude.{◌≤◌, length};

use scene_forms::Tables;
use std::io;
use tables::Lent;

// The place of the next '%', or the end.
fn end_of(text: &[u8], from: usize) -> usize
    requires { from ≤ length text.now }
    ensures { (from ≤ result) × (result ≤ length text.now) }
{
    for i in from..text.len() {
        if text[i] == b'%' {
            return i;
        }
    }
    text.len()
}

// Whether the first n bytes of the output are the text.
fn is_same(text: &[u8], out: &[u8], n: usize) -> bool {
    n <= out.len() && text == &out[..n]
}

// Prints what a text asks for, and whether its scene is written as the same text.
fn print_scene(
    out: &impl Print,
    text: &[u8],
    scene: scene_text::Contents,
    lent: Lent<'_>,
) -> io::Result<()> {
    let mut spelled = [0u8; 8192];
    let bits = float::to_bits(scene.time);
    print!(out; "0 node {} time {}", scene.node, bits)?;
    let length = scene_writing::write_scene(lent, scene.node, scene.time, &mut spelled);
    if is_same(text, &spelled, length.unwrap_or(0)) {
        print!(out; " written the same")?;
    }
    Ok(())
}

fn answer(out: &impl Print, text: &[u8]) -> io::Result<()> {
    let mut words = [0u32; 1024];
    let mut floats = [0f32; 1024];
    let mut node_weights = [0f32; 16];
    let mut mesh_weights = [0f32; 16];
    let mut tables = Tables {
        words: &mut words,
        floats: &mut floats,
        node_weights: &mut node_weights,
        mesh_weights: &mut mesh_weights,
    };
    let read = scene_text::read_scene(text, &mut tables);
    match read {
        Ok(scene) => {
            let lent = Lent {
                words: &words,
                floats: &floats,
                node_weights: &node_weights,
                mesh_weights: &mesh_weights,
                header: scene.header,
            };
            print_scene(out, text, scene, lent)?;
        }
        Err(e) => {
            print!(out; "{}", u32::from(e))?;
            if let Some(at) = scene_text::find_break(text) {
                print!(out; " at {}", at)?;
            }
        }
    }
    println!(out)
}

fn main(rt: HostRuntime) -> io::Result<()> {
    let out = rt.stdout();
    // A last text with no '%' goes on with zeros.
    let mut texts = [0u8; 32768];
    let got = lists::read_full(&mut rt.stdin(), &mut texts)?;
    if got == 32768 {
        return println!(out; "too many texts: 32768 bytes or more");
    }
    let mut at = 0;
    // A `while`, since it goes on from what was read, by its length.
    while at < got {
        let end = end_of(&texts, at);
        answer(&out, &texts[at..end])?;
        at = end + 2;
    }
    Ok(())
}
