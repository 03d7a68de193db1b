// What the items of a list are kept as: numbers as they are, floats by their bits.
ghost use Rattle.std.specs.Prelude.{◌≡◌, ℕ, IfSome};
ghost use Rattle.std.specs.Float.{binary32};
ghost use Rattle.std.specs.Float.Ieee.{of_bits};
ghost use Rattle.grammar.specs.Digits.{Sort, numbers, floats, sort_for};
ghost use Rattle.digits.specs.Standing.{StandsAt};
ghost use Rattle.brackets.specs.Read.{Stores};

use digits::Standing;

pub(crate) trait Cell: Copy {
    ghost sort: { Sort };

    ghost of: { ℕ → Self };

    // Whether an item is a float.
    fn is_float() -> bool
        ensures { sort_for result ≡ sort };

    // The item at a place, where it stands there as it is written.
    fn item_at(text: &[u8], from: usize) -> Option<Standing>
        ensures { IfSome result (StandsAt sort text.now from) };

    fn from_word(x: u32) -> Self
        ensures { result ≡ of x };
}

impl Cell for u32 {
    ghost sort = { numbers };

    ghost of = { λ x. x };

    fn is_float() -> bool {
        false
    }

    fn item_at(text: &[u8], from: usize) -> Option<Standing> {
        digits::number_at(text, from)
    }

    fn from_word(x: u32) -> u32 {
        x
    }
}

impl Cell for f32 {
    ghost sort = { floats };

    ghost of = { of_bits binary32 };

    fn is_float() -> bool {
        true
    }

    fn item_at(text: &[u8], from: usize) -> Option<Standing> {
        digits::float_at(text, from)
    }

    fn from_word(x: u32) -> f32 {
        float::from_bits(x)
    }
}

// Stores an item where there is room, and answers the place behind it.
pub(crate) fn store<C: Cell>(cells: &mut [C], k: usize, x: u32) -> usize
    ensures { Stores C.of cells k x result }
{
    if k < cells.len() {
        cells[k] = C::from_word(x);
        return k + 1;
    }
    k
}
