// Baked positions and refusal numbers put into an output as they are printed.
#![tactic(auto)]

ghost use Rattle.std.specs.Prelude.{◌≡◌, [], ◌∷◌, ◌++◌, drop};
ghost use Rattle.spelling.specs.Pushed.{Puts};
ghost use Rattle.printing.specs.Lines.{vertex_text, vertices_text, number_text};

// Puts a line of items, but for the space before the first.
fn put_line(out: &mut [u8], at: usize, items: &[u8]) -> usize
    ensures { Puts (drop 1 items.now ++ 10 ∷ []) out at result }
{
    let [_, line @ ..] = items else {
        return spelling::put(out, at, b'\n');
    };
    let k = spelling::put_bytes(out, at, line);
    spelling::put(out, k, b'\n')
}

// Puts a vertex on a line of its own.
fn put_vertex(out: &mut [u8], at: usize, x: f32, y: f32, z: f32) -> usize
    ensures { Puts (vertex_text x y z) out at result }
{
    let mut items = [0u8; 32];
    let a = spelling::put_item(&mut items, 0, true, float::to_bits(x));
    let b = spelling::put_item(&mut items, a, true, float::to_bits(y));
    let c = spelling::put_item(&mut items, b, true, float::to_bits(z));
    put_line(out, at, &items[..c])
}

// Puts vertices, one a line, from the start of the output on.
pub fn put_vertices(out: &mut [u8], positions: &[f32]) -> usize
    ensures { Puts (vertices_text positions.now) out 0 result }
{
    let mut k = 0;
    let mut left = positions;
    // A `while`, since it goes on from what was read, by its length.
    while let [x, y, z, behind @ ..] = left {
        k = put_vertex(out, k, *x, *y, *z);
        left = behind;
    }
    k
}

// Puts a number on a line of its own, at the start of the output.
pub fn put_number(out: &mut [u8], n: u32) -> usize
    ensures { Puts (number_text n) out 0 result }
{
    let mut items = [0u8; 16];
    let end = spelling::put_item(&mut items, 0, false, n);
    put_line(out, 0, &items[..end])
}
