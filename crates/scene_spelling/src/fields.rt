// Titles, names and fields.
ghost use Rattle.std.specs.Prelude.{[], ◌∷◌, ◌<◌, get_or};
ghost use Rattle.std.proofs.Math.Option.{some};
ghost use Rattle.grammar.specs.Digits.{numbers, floats};
ghost use Rattle.spelling.specs.Pushed.{Puts};
ghost use Rattle.scene_schema.specs.Numbers.{titles, slot_names, no_name};
ghost use Rattle.scene_spelling.specs.Written.{one, listed, id_field, tag_field, slot_field};
ghost use Rattle.scene_spelling.specs.Texts.{slot_text};

use spelling::Item;
use tables::{Reference, Slot};
use tracks::Part;

// Puts the beginning of a form of kind k.
pub fn open_form(out: &mut [u8], at: usize, k: usize) -> usize
    ensures { Puts (40 ∷ (get_or titles k no_name).letters) out at result }
{
    let a = spelling::put(out, at, 40);
    let title = scene_schema::title(k);
    spelling::put_bytes(out, a, title.letters)
}

// Puts the end of a form.
pub fn close_form(out: &mut [u8], at: usize) -> usize
    ensures { Puts (41 ∷ 10 ∷ []) out at result }
{
    let a = spelling::put(out, at, 41);
    spelling::put(out, a, 10)
}

// Puts the beginning of the field of slot g.
fn open_field(out: &mut [u8], at: usize, g: usize) -> usize
    ensures { Puts (32 ∷ 40 ∷ (get_or slot_names g no_name).letters) out at result }
{
    let a = spelling::put(out, at, 32);
    let b = spelling::put(out, a, 40);
    let name = scene_schema::slot_name(g);
    spelling::put_bytes(out, b, name.letters)
}

// Puts a field of numbers or of floats.
pub fn put_items<I: Item>(out: &mut [u8], at: usize, g: usize, items: &[I]) -> usize
    ensures { Puts (slot_text g I.sort (some (I.words items.now))) out at result }
{
    let a = open_field(out, at, g);
    let b = spelling::put_items(out, a, items);
    spelling::put(out, b, 41)
}

// Puts a field of one number.
pub fn put_number(out: &mut [u8], at: usize, g: usize, x: u32) -> usize
    ensures { Puts (slot_text g numbers (one x)) out at result }
{
    let items = [x; 1];
    put_items(out, at, g, &items)
}

// Puts a list of records, the first and how many.
pub fn put_list(out: &mut [u8], at: usize, g: usize, p: Part) -> usize
    requires { (p.at < 0x1_0000_0000) × (p.count < 0x1_0000_0000) }
    ensures { Puts (slot_text g numbers (listed p)) out at result }
{
    let items = [p.at as u32, p.count as u32];
    put_items(out, at, g, &items)
}

// Puts an id, where there is one.
pub fn put_id(out: &mut [u8], at: usize, g: usize, id: Reference) -> usize
    ensures { Puts (slot_text g numbers (id_field id)) out at result }
{
    if tables::is_marked(id.mark) {
        return put_number(out, at, g, id.id);
    }
    at
}

// Puts the word for tag n, where the tag is n.
pub fn put_tag(out: &mut [u8], at: usize, g: usize, tag: u32, n: u32) -> usize
    ensures { Puts (slot_text g numbers (tag_field tag n)) out at result }
{
    if tag == n {
        let items = [0u32; 1];
        return put_items(out, at, g, &items[..0]);
    }
    at
}

// Puts the entries of so many floats that a part names, where it is there.
pub fn put_slot(out: &mut [u8], at: usize, g: usize, values: &[f32], s: Slot, width: usize) -> usize
    ensures { Puts (slot_text g floats (slot_field values.now s width)) out at result }
{
    if tables::is_marked(s.mark) {
        let p = s.part;
        return put_items(out, at, g, tables::floats_in(values, p, width));
    }
    at
}
