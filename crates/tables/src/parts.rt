ghost use Rattle.std.specs.Prelude.{◌≡◌, ◌*◌, min};
ghost use Rattle.tables.specs.Decoded.{span_in};

use tracks::Part;

// How many of count rows' entries there is room for.
fn entries_in(count: usize, width: usize, room: usize) -> usize
    ensures { result ≡ min (count * width) room }
{
    if width == 0 {
        return 0;
    }
    if count <= room / width {
        return count * width;
    }
    room
}

// The rows of so many entries that a part names; what would leave the slice is cut off.
fn span_in<T>(entries: &[T], p: Part, width: usize) -> &[T]
    ensures { result.now ≡ span_in entries.now p width }
{
    let start = p.at.min(entries.len());
    let end = start + entries_in(p.count, width, entries.len() - start);
    &entries[start..end]
}

// The rows of so many words that a part names.
pub fn words_in(words: &[u32], p: Part, width: usize) -> &[u32]
    ensures { result.now ≡ span_in words.now p width }
{
    span_in(words, p, width)
}

// The same for floats.
pub fn floats_in(floats: &[f32], p: Part, width: usize) -> &[f32]
    ensures { result.now ≡ span_in floats.now p width }
{
    span_in(floats, p, width)
}
