// Where a place is in a text.
ghost use Rattle.std.specs.Prelude.{◌≡◌, ◌+◌, ◌≤◌, ◌<◌};
ghost use Rattle.text_breaks.specs.Lines.{line_on, column_on, line_behind, column_behind};

// The line behind one byte more.
fn line_on(line: usize, b: u8) -> usize
    requires { line < 0xffff_ffff_ffff_ffff }
    ensures { result ≡ line_on line b }
{
    if b == 10 { line + 1 } else { line }
}

// The line of the place behind these bytes, counted from 1.
pub fn line_behind(before: &[u8]) -> usize
    ensures { result ≡ line_behind before.now }
{
    let mut line: usize = 1;
    for b in before {
        line = line_on(line, *b);
    }
    line
}

// The column behind one byte more.
fn column_on(column: usize, b: u8) -> usize
    requires { column < 0xffff_ffff_ffff_ffff }
    ensures { result ≡ column_on column b }
{
    if b == 10 { 1 } else { column + 1 }
}

// The column of the place behind these bytes, counted from 1.
pub fn column_behind(before: &[u8]) -> usize
    ensures { result ≡ column_behind before.now }
{
    let mut column: usize = 1;
    for b in before {
        column = column_on(column, *b);
    }
    column
}

// Where the line before and this line begin, where the last bracket was opened, and how many are open.
#[derive(Clone, Copy)]
pub struct Spot {
    pub last: usize,
    pub form: usize,
    pub field: usize,
    pub depth: usize,
}

// The same of the place behind these bytes.
pub fn spot_behind(before: &[u8]) -> Spot {
    let mut s = Spot {
        last: 0,
        form: 0,
        field: 0,
        depth: 0,
    };
    for (i, b) in before.iter().enumerate() {
        s = spot_on(s, i, *b);
    }
    s
}

// The same behind byte i.
fn spot_on(s: Spot, i: usize, b: u8) -> Spot
    requires { (i < 0xffff_ffff_ffff_ffff) × (s.depth ≤ i) }
    ensures { result.depth ≤ i + 1 }
{
    if b == 10 {
        return Spot {
            last: s.form,
            form: i + 1,
            field: s.field,
            depth: 0,
        };
    }
    if b == b'(' {
        return Spot {
            last: s.last,
            form: s.form,
            field: i,
            depth: s.depth + 1,
        };
    }
    if b == b')' {
        if 0 < s.depth {
            return Spot {
                last: s.last,
                form: s.form,
                field: s.field,
                depth: s.depth - 1,
            };
        }
    }
    s
}

fn is_blank(b: u8) -> bool {
    b == b' ' || b == b'\t'
}

// Whether there are blanks from a place on, and nothing else, up to the line's end or the end of the text.
pub fn trailing_blanks(text: &[u8], at: usize) -> bool {
    for i in at..text.len() {
        let b = text[i];
        if b == b'\n' || b == b'\r' {
            return at < i;
        }
        if !is_blank(b) {
            return false;
        }
    }
    at < text.len()
}

// How many spaces there are in a part of a text.
pub fn spaces(text: &[u8], from: usize, to: usize) -> usize {
    text.iter()
        .take(to)
        .skip(from)
        .filter(|b| **b == b' ')
        .count()
}
