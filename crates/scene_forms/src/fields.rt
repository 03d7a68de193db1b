// The fields of a form.
ghost use Rattle.std.specs.Prelude.{◌≡◌, ◌+◌, ◌<◌, length};
ghost use Rattle.scene_schema.specs.Schema.{kind_at};
ghost use Rattle.scene_schema.specs.Numbers.{size_for};
ghost use Rattle.grammar.specs.Shape.{sized};
ghost use Rattle.scene_forms.specs.Filled.{start_in, count_items};
ghost use Rattle.scene_forms.specs.Read.{mark_for, behind_items, SameSlices, changed, ItemsPut, FieldRead};
ghost use Rattle.scene_forms.specs.Read.{FieldsRead, Within};

use crate::{Counts, Entry, Row, Spot, Tables};
use brackets::{Listed, Met};
use scene_marks::Mark;
use scene_schema::{Pool, Rule};

// Whether so many items are as many as is asked.
fn is_sized(rule: Rule, count: usize) -> bool
    ensures { result ≡ sized (size_for rule) count }
{
    let width = rule.width as usize;
    if rule.fixed {
        return count == width;
    }
    if width == 0 {
        return count == 0;
    }
    count % width == 0
}

// The items of a field, put to their table.
fn items(text: &[u8], at: usize, pool: Pool, c: Counts, met: Met, tables: &mut Tables<'_>) -> Listed
    ensures same { SameSlices tables.old tables.new }
    ensures read { ItemsPut text.now at pool c met (changed tables.old tables.new) result }
{
    match pool {
        Pool::Number => {
            let end = tables.words.len();
            brackets::read_numbers(text, at, tables.words, end, met)
        }
        Pool::Bits => {
            let end = tables.floats.len();
            brackets::read_floats(text, at, tables.floats, end, met)
        }
        Pool::Ids => brackets::read_numbers(text, at, tables.words, c.ids, met),
        Pool::Floats => brackets::read_floats(text, at, tables.floats, c.floats, met),
        Pool::NodeWeights => brackets::read_floats(
            text,
            at,
            tables.node_weights,
            c.node_weights,
            met,
        ),
        Pool::MeshWeights => brackets::read_floats(
            text,
            at,
            tables.mesh_weights,
            c.mesh_weights,
            met,
        ),
    }
}

fn start_in(pool: Pool, c: Counts) -> usize
    ensures { result ≡ start_in pool c }
{
    match pool {
        Pool::Number => 0,
        Pool::Bits => 0,
        Pool::Ids => c.ids,
        Pool::Floats => c.floats,
        Pool::NodeWeights => c.node_weights,
        Pool::MeshWeights => c.mesh_weights,
    }
}

// So many items more in their table.
fn count_items(pool: Pool, n: usize, c: Counts) -> Counts
    requires { start_in pool c + n < 0x1_0000_0000_0000_0000 }
    ensures { result ≡ count_items pool n c }
{
    match pool {
        Pool::Number => c,
        Pool::Bits => c,
        Pool::Ids => Counts {
            ids: c.ids + n,
            ..c
        },
        Pool::Floats => Counts {
            floats: c.floats + n,
            ..c
        },
        Pool::NodeWeights => Counts {
            node_weights: c.node_weights + n,
            ..c
        },
        Pool::MeshWeights => Counts {
            mesh_weights: c.mesh_weights + n,
            ..c
        },
    }
}

// The field with these items.
fn mark_of(pool: Pool, c: Counts, l: Listed) -> Mark
    ensures { result ≡ mark_for pool c l }
{
    Mark {
        there: 1,
        start: start_in(pool, c),
        count: l.count,
        first: l.first as usize,
        second: l.second as usize,
    }
}

// Behind the items of a field: its shape is judged at the closing bracket, which is compared.
fn behind_items(text: &[u8], rule: Rule, s: Spot, l: Listed) -> Spot
    requires { start_in rule.pool s.counts + l.count < 0x1_0000_0000_0000_0000 }
    ensures { result ≡ behind_items text.now rule s l }
{
    let met = l.met;
    let shape = s.shape;
    let pool = rule.pool;
    let counts = s.counts;
    Spot {
        next: l.next,
        counts: count_items(pool, l.count, counts),
        met: brackets::meet(text, met, 41),
        shape: brackets::judge(shape, l.sorted & is_sized(rule, l.count), met.at),
    }
}

// Slot j of a form of kind k.
fn field(text: &[u8], k: usize, j: usize, s: Spot, tables: &mut Tables<'_>) -> Entry
    requires { Within text.now s.next s.counts × (k < 9) × (j < length (kind_at k).slots) }
    ensures same { SameSlices tables.old tables.new }
    ensures read { FieldRead text.now k j s (changed tables.old tables.new) result }
{
    let name = scene_schema::slot_name(16 * k + j);
    let w = brackets::name(text, brackets::behind(text, s.next));
    if w.value != name.code {
        return Entry {
            spot: s,
            mark: Mark::default(),
        };
    }
    let met = s.met;
    let opened = brackets::meet(text, brackets::meet(text, met, 32), 40);
    let named = brackets::meet_bytes(text, opened, name.letters);
    let rule = scene_schema::slot_rule(16 * k + j);
    let pool = rule.pool;
    let c = s.counts;
    let l = items(text, w.next, pool, c, named, tables);
    Entry {
        spot: behind_items(text, rule, s, l),
        mark: mark_of(pool, c, l),
    }
}

// The same, made anew: to copy it whole takes the bytes between its fields along, which are slow to read back.
fn renewed(s: Spot) -> Spot
    ensures { result ≡ s }
{
    let counts = s.counts;
    Spot {
        next: s.next,
        counts,
        met: Met {
            at: s.met.at,
            ok: s.met.ok,
        },
        shape: Met {
            at: s.shape.at,
            ok: s.shape.ok,
        },
    }
}

// The fields of a form of kind k.
pub fn fields(text: &[u8], k: usize, s: Spot, tables: &mut Tables<'_>) -> Row
    requires { Within text.now s.next s.counts × (k < 9) }
    ensures same { SameSlices tables.old tables.new }
    ensures read { FieldsRead text.now k s (changed tables.old tables.new) result }
{
    let n = scene_schema::slots(k);
    let mut marks = [Mark::default(); 16];
    let mut q = s;
    for j in 0..n {
        let e = field(text, k, j, q, tables);
        let m = e.mark;
        scene_marks::set_mark(&mut marks, j, m);
        q = renewed(e.spot);
    }
    Row { spot: q, marks }
}
