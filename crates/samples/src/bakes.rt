// A bake of a sample, done, compared and printed.
use lists::{Decimal, Fields};
use scene_lists::{Outcome, Scene};
use std::io;

// An output has room for so many vertices.
const VERTICES: u32 = 32;

fn print_outcome(out: &impl Print, outcome: &Outcome) -> io::Result<()> {
    let a = outcome.answer;
    print!(out; "  time {}: number {}", Decimal(outcome.time), a.number)?;
    print!(out;
        ", floats of positions {}, normals {}",
        a.positions, a.normals
    )?;
    print!(out; ", tangents {}, entries taken {}", a.tangents, a.taken)?;
    let floats = outcome.floats;
    print!(out;
        "; floats equal {}, within 2^-19 {}",
        floats.equal, floats.near
    )?;
    println!(out; ", differing {}", floats.differ)?;
    if !outcome.told {
        println!(out; "    the answer differs")?;
    }
    Ok(())
}

// Coordinate k of a vertex, 0 past the output.
fn coordinate(found: &[f32], vertex: u32, k: usize) -> Decimal {
    let at = (vertex as usize).saturating_mul(3).saturating_add(k);
    Decimal(found.get(at).copied().unwrap_or(0.0))
}

fn print_three(out: &impl Print, what: &str, found: &[f32], vertex: u32) -> io::Result<()> {
    let x = coordinate(found, vertex, 0);
    let y = coordinate(found, vertex, 1);
    let z = coordinate(found, vertex, 2);
    print!(out; "{what} {x}, {y}, {z}")
}

fn print_vertices(out: &impl Print, outcome: &Outcome, vertices: u32) -> io::Result<()> {
    for v in 0..vertices {
        print!(out; "    vertex {v}")?;
        print_three(out, ": position", &outcome.positions, v)?;
        if 0 < outcome.answer.normals {
            print_three(out, "; normal", &outcome.normals, v)?;
        }
        println!(out)?;
    }
    Ok(())
}

// The next bake, with how many of its vertices are printed behind it. Answers whether it is as the fields say.
pub fn replay(out: &impl Print, scene: Scene, fields: &mut Fields) -> io::Result<bool> {
    let outcome = scene.replay_bake(fields);
    let vertices = fields.word();
    print_outcome(out, &outcome)?;
    if vertices <= VERTICES {
        print_vertices(out, &outcome, vertices)?;
    }
    Ok(outcome.told && outcome.floats.differ == 0 && vertices <= VERTICES)
}
