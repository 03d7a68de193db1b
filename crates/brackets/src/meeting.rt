ghost use Rattle.std.specs.Prelude.{◌≡◌, ◌∷◌};
ghost use Rattle.grammar.specs.Digits.{digits_of, sort_for};
ghost use Rattle.digits.specs.Standing.{Stands};
ghost use Rattle.brackets.specs.Met.{meet, meets, judge};

use crate::Met;

// One expected byte more.
pub fn meet(text: &[u8], m: Met, b: u8) -> Met
    ensures { result ≡ meet text.now b m }
{
    let at = m.at;
    if m.ok && at < text.len() && text[at] == b {
        return Met {
            at: at + 1,
            ok: true,
        };
    }
    Met { at, ok: false }
}

// So many expected bytes more.
pub fn meet_bytes(text: &[u8], m: Met, bytes: &[u8]) -> Met
    ensures { result ≡ meets text.now bytes.now m }
{
    let mut n = m;
    for b in bytes {
        n = meet(text, n, *b);
    }
    n
}

// An expected item more, behind a space.
pub fn meet_item(text: &[u8], m: Met, float: bool, n: u32) -> Met
    ensures { result ≡ meets text.now (32 ∷ digits_of (sort_for float) n) m }
{
    if m.ok {
        let mut item = [0u8; 16];
        let end = spelling::put_item(&mut item, 0, float, n);
        return meet_bytes(text, m, &item[..end]);
    }
    Met {
        at: m.at,
        ok: false,
    }
}

// The same for an item that stands between two places.
pub(crate) fn meet_there(text: &[u8], m: Met, at: usize, next: usize, float: bool, n: u32) -> Met
    requires { Stands text.now at next (32 ∷ digits_of (sort_for float) n) }
    ensures { result ≡ meets text.now (32 ∷ digits_of (sort_for float) n) m }
{
    if m.ok {
        if m.at == at {
            return Met { at: next, ok: true };
        }
    }
    meet_item(text, m, float, n)
}

// The first place of which something does not hold.
pub fn judge(m: Met, holds: bool, at: usize) -> Met
    ensures { result ≡ judge holds at m }
{
    if m.ok {
        if !holds {
            return Met { at, ok: false };
        }
    }
    m
}
