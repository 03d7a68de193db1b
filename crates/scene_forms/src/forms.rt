// Forms, and all that is made of a text.
ghost use Rattle.std.specs.Prelude.{◌≡◌, ◌<◌};
ghost use Rattle.scene_forms.specs.Filled.{ahead, list_slot, reach_in, request_in};
ghost use Rattle.scene_forms.specs.Read.{SameSlices, changed, Within, opened_at, closed_at, FormRead, FormsRead};
ghost use Rattle.scene_forms.specs.Read.{start_at, DocumentRead};

use crate::{Block, Counts, Found, Place, Request, Spot, Tables, fields};
use brackets::Met;
use scene_marks::Mark;

// The place of the next record but so many words; it stands still once it is past the end of any slice.
fn ahead(at: usize, n: usize) -> usize
    requires { n < 0x1000 }
    ensures { result ≡ ahead at n }
{
    if at < 0x8000_0000_0000_0000 {
        return at + n;
    }
    at
}

// The slot of kind k that lists records of the next kind; any other kind has none.
fn list_slot(k: usize) -> usize
    ensures { result ≡ list_slot k }
{
    match k {
        3 => 0,
        4 => 5,
        5 => 3,
        _ => 15,
    }
}

// How far the list of records of a form of kind k reaches.
fn reach_in(k: usize, marks: &[Mark; 16]) -> usize
    ensures { result ≡ reach_in k marks.now }
{
    let m = scene_marks::mark_at(marks, list_slot(k));
    m.first % 0x1_0000_0000 + m.second % 0x1_0000_0000
}

// What the scene form asks for; other forms leave it as it is.
fn request_in(k: usize, marks: &[Mark; 16], r: Request) -> Request
    ensures { result ≡ request_in k marks.now r }
{
    if k != 0 {
        return r;
    }
    let node = scene_marks::mark_at(marks, 0);
    let time = scene_marks::mark_at(marks, 1);
    let roots = scene_marks::mark_at(marks, 2);
    Request {
        node: node.first,
        time: time.first,
        roots_at: roots.start,
        roots: roots.count,
    }
}

// Behind the title of a form: it is compared.
fn opened(text: &[u8], k: usize, p: Place) -> Spot
    ensures { result ≡ opened_at text.now k p }
{
    let met = p.met;
    let counts = p.counts;
    let shape = p.shape;
    let title = scene_schema::title(k);
    Spot {
        next: p.next,
        counts,
        met: brackets::meet_bytes(text, brackets::meet(text, met, 40), title.letters),
        shape,
    }
}

// Behind the fields of a form: its groups are judged at the closing bracket; that and the line's end are compared.
fn closed(text: &[u8], k: usize, p: Place, s: Spot, marks: &[Mark; 16]) -> Place
    requires { k < 9 }
    ensures { closed_at text.now k p s marks.now result }
{
    let met = s.met;
    let shape = s.shape;
    let counts = s.counts;
    let request = p.request;
    Place {
        next: brackets::behind(text, brackets::behind(text, s.next)),
        counts,
        met: brackets::meet(text, brackets::meet(text, met, 41), 10),
        shape: brackets::judge(shape, scene_marks::groups_hold(k, marks), met.at),
        rows: ahead(p.rows, scene_schema::stride(k)),
        reach: p.reach.max(reach_in(k, marks)),
        request: request_in(k, marks, request),
    }
}

// A form of kind k, from behind its title on.
fn form(text: &[u8], k: usize, p: Place, tables: &mut Tables<'_>) -> Place
    requires { Within text.now p.next p.counts × (k < 9) }
    ensures same { SameSlices tables.old tables.new }
    ensures read { FormRead text.now k p (changed tables.old tables.new) result }
{
    let s = opened(text, k, p);
    let f = fields::fields(text, k, s, tables);
    let marks = f.marks;
    scene_marks::put_row(k, &marks, tables.words, p.rows);
    let end = f.spot;
    closed(text, k, p, end, &marks)
}

// The forms of kind k.
fn forms_of(text: &[u8], k: usize, p: Place, tables: &mut Tables<'_>) -> Block
    requires { Within text.now p.next p.counts × (k < 9) }
    ensures same { SameSlices tables.old tables.new }
    ensures read { FormsRead text.now k p (changed tables.old tables.new) result }
{
    let title = scene_schema::title(k);
    let mut q = p;
    for count in 0..text.len() {
        let w = brackets::name(text, q.next);
        if w.value != title.code {
            return Block { place: q, count };
        }
        q.next = w.next;
        q = form(text, k, q, tables);
    }
    Block {
        place: q,
        count: text.len(),
    }
}

// Reads all that is made of a text, whether it has a reading or not: items and records to the tables as far as there is
// room, the records from word `rows` on. The text is compared where `met` says so.
pub fn document(text: &[u8], rows: usize, met: Met, tables: &mut Tables<'_>) -> Found
    ensures same { SameSlices tables.old tables.new }
    ensures read { DocumentRead text.now rows met (changed tables.old tables.new) result }
{
    let mut p = start(rows, met);
    let mut counts = [0usize; 9];
    let mut reaches = [0usize; 9];
    for k in 0..9 {
        p.reach = 0;
        let b = forms_of(text, k, p, tables);
        p = b.place;
        counts[k] = b.count;
        reaches[k] = p.reach;
    }
    Found {
        place: p,
        counts,
        reaches,
    }
}

// Nothing read yet, the records from a word on.
fn start(rows: usize, met: Met) -> Place
    ensures { result ≡ start_at rows met }
{
    Place {
        next: 0,
        counts: Counts {
            ids: 0,
            floats: 0,
            node_weights: 0,
            mesh_weights: 0,
        },
        met,
        shape: Met { at: 0, ok: true },
        rows,
        reach: 0,
        request: Request {
            node: 0,
            time: 0,
            roots_at: 0,
            roots: 0,
        },
    }
}
