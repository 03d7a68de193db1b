// The fields of a form in numbers, a mark for each slot: whether it is there, where its items start in their table, how
// many they are, and the first two. From these are made the words of a record, and it is told whether the form has the
// fields that are asked of it.
#![tactic(auto)]

ghost use Rattle.std.specs.Prelude.{◌≡◌, Some, None, ◌+◌, ◌*◌, ◌/◌, ◌%◌, ◌≤◌, ◌<◌, get_or, set};
ghost use Rattle.std.proofs.lemmas.List.Edits.{sets};
ghost use Rattle.scene_schema.specs.Layout.{layout};
ghost use Rattle.scene_schema.specs.Numbers.{slot_rules, no_rule};
ghost use Rattle.scene_marks.specs.Marks.{set_mark, mark_at, chosen, word_from, row_of, present_from};
ghost use Rattle.scene_marks.specs.Marks.{group_at, groups_of};

use scene_schema::Source;

// A field: whether it is there, where its items start in their table, how many they are, and the first two.
#[derive(Clone, Copy, Default)]
pub struct Mark {
    pub there: usize,
    pub start: usize,
    pub count: usize,
    pub first: usize,
    pub second: usize,
}

// Slot j.
pub fn mark_at(marks: &[Mark; 16], j: usize) -> Mark
    ensures { result ≡ mark_at marks.now j }
{
    if j < 16 { marks[j] } else { Mark::default() }
}

// Slot j is a field; there are sixteen.
pub fn set_mark(marks: &mut [Mark; 16], j: usize, m: Mark)
    ensures { marks.new ≡ set_mark marks.old j m }
{
    if j < 16 {
        marks[j] = m;
    }
}

// Of slot a and n more behind it, the first that is there, counted from a; the last where none before it is.
fn chosen(marks: &[Mark; 16], a: usize, n: usize) -> usize
    requires { (a < 256) × (n < 256) }
    ensures { (result ≡ chosen marks.now a n) × (result ≤ n) }
{
    for i in 0..n {
        let m = mark_at(marks, a + i);
        if m.there != 0 {
            return i;
        }
    }
    n
}

// How many entries so many items of slot j of kind k are.
fn entries(k: usize, j: usize, count: usize) -> usize
    requires { (k < 9) × (j < 512) }
    ensures { result ≡ count / (get_or slot_rules (16 * k + j) no_rule).width }
{
    let rule = scene_schema::slot_rule(16 * k + j);
    let width = rule.width as usize;
    if width == 0 {
        return 0;
    }
    count / width
}

// The slot that is there, of slot a and n more behind it.
fn the_one(marks: &[Mark; 16], a: u8, n: u8) -> usize
    ensures { (result ≡ a + chosen marks.now a n) × (result < 512) }
{
    a as usize + chosen(marks, a as usize, n as usize)
}

// A word of a record of kind k from its source, before it is cut to 32 bits.
fn word(k: usize, source: Source, marks: &[Mark; 16]) -> usize
    requires { k < 9 }
    ensures { result ≡ word_from k marks.now (Some source) }
{
    match source {
        Source::Tag(a, n) => chosen(marks, a as usize, n as usize),
        Source::Mark(j) => {
            let m = mark_at(marks, j as usize);
            m.there
        }
        Source::Start(a, n) => {
            let m = mark_at(marks, the_one(marks, a, n));
            m.start
        }
        Source::Entries(a, n) => {
            let j = the_one(marks, a, n);
            let m = mark_at(marks, j);
            entries(k, j, m.count)
        }
        Source::First(j) => {
            let m = mark_at(marks, j as usize);
            m.first
        }
        Source::Second(j) => {
            let m = mark_at(marks, j as usize);
            m.second
        }
    }
}

// Word w of a record of kind k.
fn word_at(k: usize, w: usize, marks: &[Mark; 16]) -> usize
    requires { (k < 9) × (w < 16) }
    ensures { result ≡ word_from k marks.now (get_or layout (16 * k + w) None) }
{
    match scene_schema::word_source(16 * k + w) {
        Some(source) => word(k, source, marks),
        None => 0,
    }
}

fn store(words: &mut [u32], at: usize, x: usize)
    ensures { words.new ≡ set words.old at (x % 0x1_0000_0000) }
{
    if at < words.len() {
        words[at] = (x % 0x1_0000_0000) as u32;
    }
}

// Puts the record of a form of kind k to the words from a place on, as far as there is room.
pub fn put_row(k: usize, marks: &[Mark; 16], words: &mut [u32], at: usize)
    ensures { words.new ≡ sets words.old at (row_of k marks.now) }
{
    if words.len() <= at {
        return;
    }
    let n = scene_schema::stride(k);
    for w in 0..n {
        store(words, at + w, word_at(k, w, marks));
    }
}

// How many of n slots from slot j on are there.
fn present(marks: &[Mark; 16], j: usize, n: usize) -> usize
    requires { (j < 16) × (n < 256) }
    ensures { result ≡ present_from n j marks.now }
{
    let mut count = 0;
    for i in 0..n {
        let m = mark_at(marks, j + i);
        if m.there != 0 {
            count += 1;
        }
    }
    count
}

// Whether slot j of kind k starts no group of which not just one is there.
fn group_holds(k: usize, j: usize, marks: &[Mark; 16]) -> bool
    requires { (k < 9) × (j < 16) }
    ensures { result ≡ group_at k j marks.now }
{
    let n = scene_schema::group(16 * k + j) as usize;
    if n == 0 {
        return true;
    }
    present(marks, j, n) == 1
}

// Whether of each group of fields of a form of kind k just one is there.
pub fn groups_hold(k: usize, marks: &[Mark; 16]) -> bool
    ensures { result ≡ groups_of k marks.now }
{
    let n = scene_schema::slots(k);
    for j in 0..n {
        if !group_holds(k, j, marks) {
            return false;
        }
    }
    true
}
