// Prints worked turn weights and square roots: bit patterns, and beside each its decimal value to nine places.
#![tactic(auto)]

use lists::Decimal;
use std::io;

fn print_weights(out: &impl Print, c: f32) -> io::Result<()> {
    for v in [0.0, 0.25, 0.5, 0.75, 1.0] {
        let weight = turn::turn_weight(v, c);
        println!(out; "W({}, {}) = {}", Decimal(v), Decimal(c), Decimal(weight))?;
    }
    Ok(())
}

fn print_root(out: &impl Print, x: f32) -> io::Result<()> {
    let root = square_root::sqrt(x);
    println!(out; "sqrt({}) = {}", Decimal(x), Decimal(root))
}

fn main(rt: HostRuntime) -> io::Result<()> {
    let out = rt.stdout();
    print_weights(&out, 0.0)?;
    print_weights(&out, 0.5)?;
    print_weights(&out, 0.96875)?;
    for x in [0.0, -0.0, 0.25, 2.0, 3.0, 1000000.0, -1.0, f32::INFINITY] {
        print_root(&out, x)?;
    }
    Ok(())
}
