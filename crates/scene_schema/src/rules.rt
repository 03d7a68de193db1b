// What the schema asks of a field in numbers, and where its items go (specs/Schema.antt has it in words).
ghost use Rattle.std.specs.Prelude.{◌≡◌, get_or};
ghost use Rattle.scene_schema.specs.Numbers.{slot_rules, no_rule};

use crate::{Pool, Rule};

// What is asked of slot j of kind k, by 16 k + j.
pub fn slot_rule(g: usize) -> Rule
    ensures { result ≡ get_or slot_rules g no_rule }
{
    match g {
        0 => Rule {
            fixed: true,
            width: 1,
            one_of: 1,
            pool: Pool::Number,
        },
        1 => Rule {
            fixed: true,
            width: 1,
            one_of: 1,
            pool: Pool::Bits,
        },
        2 => Rule {
            fixed: false,
            width: 1,
            one_of: 1,
            pool: Pool::Ids,
        },
        16 => Rule {
            fixed: true,
            width: 10,
            one_of: 2,
            pool: Pool::Floats,
        },
        17 => Rule {
            fixed: true,
            width: 16,
            one_of: 0,
            pool: Pool::Floats,
        },
        18 => Rule {
            fixed: false,
            width: 1,
            one_of: 1,
            pool: Pool::Ids,
        },
        19 => Rule {
            fixed: true,
            width: 1,
            one_of: 0,
            pool: Pool::Number,
        },
        20 => Rule {
            fixed: true,
            width: 1,
            one_of: 0,
            pool: Pool::Number,
        },
        21 => Rule {
            fixed: false,
            width: 1,
            one_of: 0,
            pool: Pool::NodeWeights,
        },
        32 => Rule {
            fixed: true,
            width: 1,
            one_of: 1,
            pool: Pool::Number,
        },
        33 => Rule {
            fixed: true,
            width: 0,
            one_of: 4,
            pool: Pool::Number,
        },
        34 => Rule {
            fixed: true,
            width: 0,
            one_of: 0,
            pool: Pool::Number,
        },
        35 => Rule {
            fixed: true,
            width: 0,
            one_of: 0,
            pool: Pool::Number,
        },
        36 => Rule {
            fixed: true,
            width: 0,
            one_of: 0,
            pool: Pool::Number,
        },
        37 => Rule {
            fixed: true,
            width: 0,
            one_of: 3,
            pool: Pool::Number,
        },
        38 => Rule {
            fixed: true,
            width: 0,
            one_of: 0,
            pool: Pool::Number,
        },
        39 => Rule {
            fixed: true,
            width: 0,
            one_of: 0,
            pool: Pool::Number,
        },
        40 => Rule {
            fixed: false,
            width: 1,
            one_of: 1,
            pool: Pool::Floats,
        },
        41 => Rule {
            fixed: false,
            width: 3,
            one_of: 3,
            pool: Pool::Floats,
        },
        42 => Rule {
            fixed: false,
            width: 4,
            one_of: 0,
            pool: Pool::Floats,
        },
        43 => Rule {
            fixed: false,
            width: 1,
            one_of: 0,
            pool: Pool::Floats,
        },
        48 => Rule {
            fixed: true,
            width: 2,
            one_of: 1,
            pool: Pool::Number,
        },
        49 => Rule {
            fixed: false,
            width: 1,
            one_of: 1,
            pool: Pool::MeshWeights,
        },
        64 => Rule {
            fixed: false,
            width: 3,
            one_of: 1,
            pool: Pool::Floats,
        },
        65 => Rule {
            fixed: false,
            width: 3,
            one_of: 0,
            pool: Pool::Floats,
        },
        66 => Rule {
            fixed: false,
            width: 4,
            one_of: 0,
            pool: Pool::Floats,
        },
        67 => Rule {
            fixed: false,
            width: 4,
            one_of: 0,
            pool: Pool::Ids,
        },
        68 => Rule {
            fixed: false,
            width: 4,
            one_of: 0,
            pool: Pool::Floats,
        },
        69 => Rule {
            fixed: true,
            width: 2,
            one_of: 1,
            pool: Pool::Number,
        },
        80 => Rule {
            fixed: false,
            width: 3,
            one_of: 0,
            pool: Pool::Floats,
        },
        81 => Rule {
            fixed: false,
            width: 3,
            one_of: 0,
            pool: Pool::Floats,
        },
        82 => Rule {
            fixed: false,
            width: 3,
            one_of: 0,
            pool: Pool::Floats,
        },
        83 => Rule {
            fixed: true,
            width: 2,
            one_of: 1,
            pool: Pool::Number,
        },
        96 => Rule {
            fixed: true,
            width: 1,
            one_of: 1,
            pool: Pool::Floats,
        },
        97 => Rule {
            fixed: false,
            width: 3,
            one_of: 0,
            pool: Pool::Floats,
        },
        98 => Rule {
            fixed: false,
            width: 3,
            one_of: 0,
            pool: Pool::Floats,
        },
        112 => Rule {
            fixed: true,
            width: 1,
            one_of: 1,
            pool: Pool::Number,
        },
        113 => Rule {
            fixed: true,
            width: 1,
            one_of: 0,
            pool: Pool::Number,
        },
        128 => Rule {
            fixed: false,
            width: 1,
            one_of: 1,
            pool: Pool::Ids,
        },
        129 => Rule {
            fixed: false,
            width: 16,
            one_of: 1,
            pool: Pool::Floats,
        },
        _ => Rule {
            fixed: true,
            width: 0,
            one_of: 0,
            pool: Pool::Number,
        },
    }
}

// Of how many slots from slot j of kind k on one is there, or 0, by 16 k + j.
pub fn group(g: usize) -> u8
    ensures { result ≡ (get_or slot_rules g no_rule).one_of }
{
    match g {
        0 => 1,
        1 => 1,
        2 => 1,
        16 => 2,
        17 => 0,
        18 => 1,
        19 => 0,
        20 => 0,
        21 => 0,
        32 => 1,
        33 => 4,
        34 => 0,
        35 => 0,
        36 => 0,
        37 => 3,
        38 => 0,
        39 => 0,
        40 => 1,
        41 => 3,
        42 => 0,
        43 => 0,
        48 => 1,
        49 => 1,
        64 => 1,
        65 => 0,
        66 => 0,
        67 => 0,
        68 => 0,
        69 => 1,
        80 => 0,
        81 => 0,
        82 => 0,
        83 => 1,
        96 => 1,
        97 => 0,
        98 => 0,
        112 => 1,
        113 => 0,
        128 => 1,
        129 => 1,
        _ => 0,
    }
}
