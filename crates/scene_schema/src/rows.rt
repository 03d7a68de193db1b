// Where the words of a record are taken from (specs/Layout.antt).
ghost use Rattle.std.specs.Prelude.{◌≡◌, None, get_or};
ghost use Rattle.scene_schema.specs.Layout.{layout};
ghost use Rattle.scene_schema.specs.Numbers.{strides};

use crate::Source;

// How many words a record of kind k has.
pub fn stride(k: usize) -> usize
    ensures { result ≡ get_or strides k 0 }
{
    match k {
        1 => 16,
        2 => 8,
        3 => 4,
        4 => 16,
        5 => 12,
        6 => 8,
        7 => 4,
        8 => 4,
        _ => 0,
    }
}

// Where word w of a record of kind k is taken from, if it is not 0, by 16 k + w.
pub fn word_source(g: usize) -> Option<Source>
    ensures { result ≡ get_or layout g None }
{
    match g {
        16 => Some(Source::Tag(0, 1)),
        17 => Some(Source::Start(0, 1)),
        18 => Some(Source::Start(2, 0)),
        19 => Some(Source::Entries(2, 0)),
        20 => Some(Source::Mark(3)),
        21 => Some(Source::First(3)),
        22 => Some(Source::Mark(4)),
        23 => Some(Source::First(4)),
        24 => Some(Source::Mark(5)),
        25 => Some(Source::Start(5, 0)),
        26 => Some(Source::Entries(5, 0)),
        32 => Some(Source::First(0)),
        33 => Some(Source::Tag(1, 3)),
        34 => Some(Source::Tag(9, 2)),
        35 => Some(Source::Tag(5, 2)),
        36 => Some(Source::Start(8, 0)),
        37 => Some(Source::Entries(8, 0)),
        38 => Some(Source::Start(9, 2)),
        39 => Some(Source::Entries(9, 2)),
        48 => Some(Source::First(0)),
        49 => Some(Source::Second(0)),
        50 => Some(Source::Start(1, 0)),
        51 => Some(Source::Entries(1, 0)),
        64 => Some(Source::Start(0, 0)),
        65 => Some(Source::Entries(0, 0)),
        66 => Some(Source::Mark(1)),
        67 => Some(Source::Start(1, 0)),
        68 => Some(Source::Entries(1, 0)),
        69 => Some(Source::Mark(2)),
        70 => Some(Source::Start(2, 0)),
        71 => Some(Source::Entries(2, 0)),
        72 => Some(Source::Mark(3)),
        73 => Some(Source::Start(3, 0)),
        74 => Some(Source::Entries(3, 0)),
        75 => Some(Source::Mark(4)),
        76 => Some(Source::Start(4, 0)),
        77 => Some(Source::Entries(4, 0)),
        78 => Some(Source::First(5)),
        79 => Some(Source::Second(5)),
        80 => Some(Source::Mark(0)),
        81 => Some(Source::Start(0, 0)),
        82 => Some(Source::Entries(0, 0)),
        83 => Some(Source::Mark(1)),
        84 => Some(Source::Start(1, 0)),
        85 => Some(Source::Entries(1, 0)),
        86 => Some(Source::Mark(2)),
        87 => Some(Source::Start(2, 0)),
        88 => Some(Source::Entries(2, 0)),
        89 => Some(Source::First(3)),
        90 => Some(Source::Second(3)),
        96 => Some(Source::Start(0, 0)),
        97 => Some(Source::Mark(1)),
        98 => Some(Source::Start(1, 0)),
        99 => Some(Source::Entries(1, 0)),
        100 => Some(Source::Mark(2)),
        101 => Some(Source::Start(2, 0)),
        102 => Some(Source::Entries(2, 0)),
        112 => Some(Source::First(0)),
        113 => Some(Source::Mark(1)),
        114 => Some(Source::First(1)),
        128 => Some(Source::Start(0, 0)),
        129 => Some(Source::Entries(0, 0)),
        130 => Some(Source::Start(1, 0)),
        131 => Some(Source::Entries(1, 0)),
        _ => None,
    }
}
