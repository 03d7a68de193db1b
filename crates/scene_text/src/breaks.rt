// Where a text breaks.
ghost use Rattle.std.specs.Prelude.{◌≡◌};
ghost use Rattle.scene_text.specs.Breaks.{place_from, break_told, break_for};

use crate::tables_read;
use scene_forms::Found;

// The place at which a text of so many bytes breaks, where it has no reading.
fn place_from(len: usize, f: Found) -> usize
    ensures { result ≡ place_from len f }
{
    let met = f.place.met;
    let shape = f.place.shape;
    if met.ok && met.at == len {
        return if shape.ok { len } else { shape.at };
    }
    met.at
}

// Finds where a text breaks, if it has no reading: the place of the first byte that departs; where none does, that of
// the closing bracket of the first field or form whose shape breaks, or the end of the text.
pub fn find_break(text: &[u8]) -> Option<usize>
    ensures { break_told result ≡ break_for text.now }
{
    let f = tables_read::scan(text);
    if tables_read::is_reading(text.len(), f) {
        return None;
    }
    Some(place_from(text.len(), f))
}
