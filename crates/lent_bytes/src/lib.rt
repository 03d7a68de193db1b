// What the C functions on scenes in bytes share: the room that a scene is decoded into.
#![tactic(auto)]

ghost use Rattle.std.specs.Prelude.{◌≡◌, ◌||◌, ◌+◌, ◌/◌, ◌≤◌, ltb, length};
ghost use Rattle.model.specs.Lists.{pick};
ghost use Rattle.model.specs.Refusals.{number, short_scratch};
ghost use Rattle.refusals.specs.Drawn.{number_drawn};
ghost use Rattle.wire.specs.Bytes.{floats_in};
ghost use Rattle.tables.specs.Decoded.{lent_of};
ghost use Rattle.lent_bytes.specs.Bytes.{putting_at, floats_of, count_of, where_room, slices_of, ends_of};
ghost use Rattle.lent_bytes.specs.Bytes.{standing_in, Within, drawn_by, decoding_room, decoded_to};

use refusals::Refusal;
use tables::{Header, Lent};

// A scene that is lent in bytes, as little-endian words and floats.
#[derive(Clone, Copy)]
pub struct LentBytes<'a> {
    pub words: &'a [u8],
    pub floats: &'a [u8],
    pub node_weights: &'a [u8],
    pub mesh_weights: &'a [u8],
    pub header: Header,
}

// What a decoding room of so many words and floats draws, where so many are to be decoded.
pub fn check_room(
    words: usize,
    floats: usize,
    words_room: usize,
    floats_room: usize,
) -> Result<(), Refusal>
    ensures { number_drawn result ≡ pick (ltb words_room words || ltb floats_room floats) (number short_scratch) 0 }
{
    if words_room < words {
        return Err(Refusal::ShortScratch);
    }
    if floats_room < floats {
        return Err(Refusal::ShortScratch);
    }
    Ok(())
}

// How many floats three slices hold together.
pub fn count_of(a: &[u8], b: &[u8], c: &[u8]) -> usize
    ensures { result ≡ count_of a.now b.now c.now }
{
    a.len() / 4 + b.len() / 4 + c.len() / 4
}

// Where each slice of a scene ends in the decoding room; the slices of floats stand one after the other.
#[derive(Clone, Copy)]
pub struct Ends {
    pub words: usize,
    pub floats: usize,
    pub node_weights: usize,
    pub mesh_weights: usize,
}

pub fn ends_of(lent: LentBytes) -> Ends
    ensures { result ≡ ends_of (slices_of lent.entry) }
{
    let own = lent.floats.len() / 4;
    let mesh = own + lent.node_weights.len() / 4;
    Ends {
        words: lent.words.len() / 4,
        floats: own,
        node_weights: mesh,
        mesh_weights: mesh + lent.mesh_weights.len() / 4,
    }
}

// The scene that stands in a room, with these ends.
pub fn standing_in<'a>(words: &'a [u32], floats: &'a [f32], e: Ends, header: Header) -> Lent<'a>
    requires { Within e (length words.now) (length floats.now) }
    ensures { lent_of result ≡ standing_in words.now floats.now e header }
{
    Lent {
        words: &words[..e.words],
        floats: &floats[..e.floats],
        node_weights: &floats[e.floats..e.node_weights],
        mesh_weights: &floats[e.node_weights..e.mesh_weights],
        header,
    }
}

// Decodes a slice to the room from a float on.
fn decode_at(bytes: &[u8], at: usize, room: &mut [f32])
    requires { at + length bytes.now / 4 ≤ length room.old }
    ensures { room.new ≡ putting_at at (floats_in bytes.now) room.old }
{
    wire::read(bytes, &mut room[at..]);
}

// Decodes three slices, one after the other, to the start of the room. Where it is too short for all of them, nothing
// is changed.
pub fn decode_floats(a: &[u8], b: &[u8], c: &[u8], room: &mut [f32])
    ensures { room.new
        ≡ where_room (count_of a.now b.now c.now)
        (floats_of a.now b.now c.now) room.old }
{
    if room.len() < count_of(a, b, c) {
        return;
    }
    let second = a.len() / 4;
    let third = second + b.len() / 4;
    decode_at(a, 0, room);
    decode_at(b, second, room);
    decode_at(c, third, room);
}

// Decodes a scene into room that is long enough for it.
pub fn decode(lent: LentBytes, words: &mut [u32], floats: &mut [f32])
    requires { drawn_by (slices_of lent) (record { words = words.old; floats = floats.old }) ≡ 0 }
    ensures { (decoding_room words floats).to ≡ decoded_to (slices_of lent.entry) (decoding_room words floats).from }
{
    wire::read(lent.words, words);
    decode_floats(lent.floats, lent.node_weights, lent.mesh_weights, floats);
}
