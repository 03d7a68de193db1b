// Reads a scene as bracketed text (docs/TEXT.md) from standard input and prints the baked positions of the node and the
// time that it asks for, one vertex a line, or the refusal number alone, which is 2 for more than 65,536 bytes.
#![tactic(auto)]

use std::io;

fn main(rt: HostRuntime) -> io::Result<()> {
    let mut text = [0u8; 65537];
    let mut out = [0u8; 65536];
    let got = lists::read_full(&mut rt.stdin(), &mut text)?;
    let end = text_baking::bake_text(&text[..got], &mut out);
    rt.stdout().write_all(&out[..end])
}
