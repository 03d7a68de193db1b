// Reads a text of up to 65,536 bytes and prints where it breaks: the line, the column, a usual cause where there is
// one, and what was expected there.
#![tactic(auto)]

ghost use Rattle.std.specs.Prelude.{◌≤◌};

use lines::Spot;
use std::io;
use words::{print, print_number};

mod lines;
mod words;

// The kind with a title of this code, 9 where there is none.
fn kind_of(code: u64) -> usize
    ensures { result ≤ 9 }
{
    for k in 0..9 {
        let title = scene_schema::title(k);
        if title.code == code {
            return k;
        }
    }
    9
}

// The slot of kind k with a name of this code, 16 where there is none.
fn slot_of(k: usize, code: u64) -> usize
    requires { k ≤ 9 }
    ensures { result ≤ 16 }
{
    for j in 0..16 {
        let name = scene_schema::slot_name(16 * k + j);
        if name.code == code {
            return j;
        }
    }
    16
}

// What mail does to a text, and files that end too early.
fn print_cause(out: &impl Print, text: &[u8], at: usize, s: Spot) -> io::Result<()> {
    if text.len() <= at {
        if s.form < at {
            if 0 < s.depth {
                return print(out, b"the text ends inside a form; ");
            }
            return print(out, b"the text ends without a line end; ");
        }
        return Ok(());
    }
    let b = text[at];
    if b == 13 {
        return print(
            out,
            b"a CR: lines end in LF, not in CR LF, save the text so; ",
        );
    }
    if b == 10 {
        if s.form == at {
            return print(out, b"a blank line; ");
        }
        return print(
            out,
            b"the line ends inside a form, which stands on one line; ",
        );
    }
    if lines::trailing_blanks(text, at) {
        return print(out, b"blanks at the end of a line; ");
    }
    Ok(())
}

// At the start of a line.
fn print_forms(out: &impl Print, text: &[u8], at: usize, s: Spot) -> io::Result<()> {
    if text.len() <= at {
        return print(out, b"expected just one scene form, the first of all");
    }
    let mut k = 0;
    if 0 < s.form {
        let w = brackets::name(text, s.last);
        k = kind_of(w.value);
    }
    print(out, b"expected a form, its title one of ")?;
    words::print_titles(out, k)
}

// Between the fields of a form of kind k, or in the name of one.
fn print_between(out: &impl Print, text: &[u8], at: usize, k: usize) -> io::Result<()>
    requires { k ≤ 9 }
{
    if at < text.len() {
        if text[at] == b')' {
            print(
                out,
                b"a field is missing, or there are two where just one may be; ",
            )?;
        }
    }
    print(out, b"expected a field or the closing bracket; in a form ")?;
    words::print_name(out, scene_schema::title(k))?;
    print(
        out,
        b" these fields follow each other, each behind one space: ",
    )?;
    words::print_fields(out, k)
}

// Behind the name of slot j of kind k, where so many items have begun.
fn print_items(out: &impl Print, k: usize, j: usize, begun: usize) -> io::Result<()>
    requires { (k ≤ 9) × (j ≤ 16) }
{
    let g = 16 * k + j;
    print(out, b"expected in the field ")?;
    words::print_name(out, scene_schema::slot_name(g))?;
    print(out, b": ")?;
    words::print_rule(out, scene_schema::slot_rule(g))?;
    print(out, b"; up to here there are ")?;
    print_number(out, begun)
}

fn print_expected(out: &impl Print, text: &[u8], at: usize, s: Spot) -> io::Result<()> {
    if at <= s.form {
        return print_forms(out, text, at, s);
    }
    if s.depth == 0 {
        return print(out, b"expected the line's end, LF");
    }
    let w = brackets::name(text, s.form);
    if at < w.next {
        print(out, b"expected a title, one of ")?;
        return words::print_titles(out, 0);
    }
    let k = kind_of(w.value);
    if s.depth == 1 {
        return print_between(out, text, at, k);
    }
    let v = brackets::name(text, s.field);
    if at < v.next {
        return print_between(out, text, at, k);
    }
    print_items(out, k, slot_of(k, v.value), lines::spaces(text, v.next, at))
}

fn report(out: &impl Print, text: &[u8]) -> io::Result<()> {
    let Some(place) = scene_text::find_break(text) else {
        return print(out, b"the text has a reading\n");
    };
    let at = place.min(text.len());
    let before = &text[..at];
    print(out, b"line ")?;
    print_number(out, lines::line_behind(before))?;
    print(out, b", column ")?;
    print_number(out, lines::column_behind(before))?;
    print(out, b": ")?;
    let s = lines::spot_behind(before);
    print_cause(out, text, at, s)?;
    print_expected(out, text, at, s)?;
    print(out, b"\n")
}

fn main(rt: HostRuntime) -> io::Result<()> {
    let out = rt.stdout();
    let mut text = [0u8; 65537];
    let got = lists::read_full(&mut rt.stdin(), &mut text)?;
    if 65536 < got {
        return print(
            &out,
            b"the text has more than 65536 bytes: too long for this program\n",
        );
    }
    report(&out, &text[..got])
}
