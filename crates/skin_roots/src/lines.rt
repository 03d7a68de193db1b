// The line of a node: the node and those above it, by the marks of `graph::parents`. A code is 0 or 1 where nothing is
// above, and p + 3 for node p.
ghost use Rattle.std.specs.Prelude.{◌≡◌, ◌+◌, ◌≤◌, ◌<◌, eqb, length, get_or};
ghost use Rattle.model.specs.Limits.{node_limit};
ghost use Rattle.model.specs.Lists.{foldl, first_that};
ghost use Rattle.tables.specs.Tags.{option_of};
ghost use Rattle.skin_roots.specs.Lines.{code_above, line_in, count_one, Leading};

// The code of what is above node a, with so many nodes of the line left to take. The loops over a line are `while`s,
// since an iterator over its nodes was tried and takes half as long again.
fn above(codes: &[u32], a: usize, left: usize) -> u32
    ensures { result ≡ code_above codes.now a left }
{
    if left == 0 {
        return 0;
    }
    if a < codes.len() {
        return codes[a];
    }
    0
}

// Counts node a if it was on the lines of all t joints before; one that missed a line stays behind.
fn count_one(counts: &mut [usize], a: usize, t: usize)
    requires { t < 18446744073709551615 }
    ensures { counts.new ≡ count_one t counts.old a }
{
    if a < counts.len() {
        if counts[a] == t {
            counts[a] = t + 1;
        }
    }
}

// Counts the nodes of the line of joint t.
fn count_line(codes: &[u32], joint: u32, t: usize, counts: &mut [usize])
    requires { (length codes.now ≤ node_limit) × (joint < node_limit) × (t < 18446744073709551615) }
    ensures { counts.new ≡ foldl (count_one t) counts.old
        (line_in codes.now joint) }
{
    let mut left = codes.len() + 1;
    let mut code = joint + 3;
    while 2 < code {
        let a = (code - 3) as usize;
        count_one(counts, a, t);
        left -= 1;
        code = above(codes, a, left);
    }
}

// Counts the lines of all joints, one after the other. Then a node is counted once for each joint just if it is on all
// lines.
pub(crate) fn count_lines(codes: &[u32], joints: &[u32], counts: &mut [usize])
    requires { (length codes.now ≤ node_limit) × Leading codes.now joints.now 0 counts.old }
    ensures { Leading codes.now joints.now (length joints.now)
        counts.new }
{
    for t in 0..joints.len() {
        count_line(codes, joints[t], t, counts);
    }
}

// Whether node a is counted m times.
fn stands_at(counts: &[usize], a: usize, m: usize) -> bool
    ensures { result ≡ eqb (get_or counts.now a 0) m }
{
    if a < counts.len() {
        return counts[a] == m;
    }
    m == 0
}

// The first node of a line that is counted m times.
pub(crate) fn first_counted(codes: &[u32], joint: u32, counts: &[usize], m: usize) -> Option<u32>
    requires { (length codes.now ≤ node_limit) × (joint < node_limit) }
    ensures { option_of result ≡ first_that (λ a. eqb (get_or counts.now a 0) m)
        (line_in codes.now joint) }
{
    let mut left = codes.len() + 1;
    let mut code = joint + 3;
    while 2 < code {
        let id = code - 3;
        let a = id as usize;
        if stands_at(counts, a, m) {
            return Some(id);
        }
        left -= 1;
        code = above(codes, a, left);
    }
    None
}
