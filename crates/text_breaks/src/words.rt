// Words of the schema, printed.
ghost use Rattle.std.specs.Prelude.{◌≤◌};

use scene_schema::{Name, Pool, Rule};
use std::io;

pub fn print(out: &impl Print, words: &[u8]) -> io::Result<()> {
    out.write_all(words)
}

pub fn print_number(out: &impl Print, n: usize) -> io::Result<()> {
    print!(out; "{n}")
}

pub fn print_name(out: &impl Print, name: Name) -> io::Result<()> {
    print(out, name.letters)
}

// The titles from kind k on.
pub fn print_titles(out: &impl Print, k: usize) -> io::Result<()> {
    for i in k..9 {
        if k < i {
            print(out, b", ")?;
        }
        print_name(out, scene_schema::title(i))?;
    }
    Ok(())
}

// The names of the fields of kind k, in their order: of those with "or" just one is there.
pub fn print_fields(out: &impl Print, k: usize) -> io::Result<()>
    requires { k ≤ 9 }
{
    let n = scene_schema::slots(k);
    let mut left: usize = 0;
    for j in 0..n {
        left = print_field(out, 16 * k + j, j, left)?;
    }
    Ok(())
}

// One of them, where so many are left of its group; how many are left behind it.
fn print_field(out: &impl Print, g: usize, j: usize, left: usize) -> io::Result<usize> {
    let rule = scene_schema::slot_rule(g);
    let group = rule.one_of as usize;
    if 0 < left {
        print(out, b" or ")?;
        print_name(out, scene_schema::slot_name(g))?;
        return Ok(left - 1);
    }
    if 0 < j {
        print(out, b", ")?;
    }
    print_name(out, scene_schema::slot_name(g))?;
    if 0 < group {
        return Ok(group - 1);
    }
    print(out, b" (may be absent)")?;
    Ok(0)
}

// What the items of a field are, and how many.
pub fn print_rule(out: &impl Print, rule: Rule) -> io::Result<()> {
    let width = rule.width as usize;
    let pool = rule.pool;
    if rule.fixed {
        if width == 0 {
            return print(out, b"no items");
        }
        print_sort(out, pool)?;
        print(out, b"just ")?;
    } else {
        print_sort(out, pool)?;
        print(out, b"a multiple of ")?;
    }
    print_number(out, width)?;
    print(out, b" of them")
}

fn print_sort(out: &impl Print, pool: Pool) -> io::Result<()> {
    match pool {
        Pool::Number => print_numbers(out),
        Pool::Ids => print_numbers(out),
        Pool::Bits => print_floats(out),
        Pool::Floats => print_floats(out),
        Pool::NodeWeights => print_floats(out),
        Pool::MeshWeights => print_floats(out),
    }
}

fn print_numbers(out: &impl Print) -> io::Result<()> {
    print(
        out,
        b"numbers below 4294967296 with no leading zero, each behind one space, ",
    )
}

fn print_floats(out: &impl Print) -> io::Result<()> {
    print(
        out,
        b"floats of eight digits 0 to 9 and a to f, NaN as 7fc00000, each behind one space, ",
    )
}
