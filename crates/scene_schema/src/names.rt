// The titles and names of the schema, with their codes (specs/Schema.antt has them in words).
ghost use Rattle.std.specs.Prelude.{◌≡◌, get_or};
ghost use Rattle.scene_schema.specs.Numbers.{named, titles, slot_counts, slot_names, no_name};

use crate::Name;

// The title of kind k.
pub fn title(k: usize) -> Name
    ensures { named result ≡ get_or titles k no_name }
{
    match k {
        0 => Name {
            code: 839294,
            letters: b"scene",
        },
        1 => Name {
            code: 30942,
            letters: b"node",
        },
        2 => Name {
            code: 203061221,
            letters: b"channel",
        },
        3 => Name {
            code: 28353,
            letters: b"mesh",
        },
        4 => Name {
            code: 41647526654,
            letters: b"primitive",
        },
        5 => Name {
            code: 14332141,
            letters: b"target",
        },
        6 => Name {
            code: 200085223,
            letters: b"between",
        },
        7 => Name {
            code: 50215,
            letters: b"skin",
        },
        8 => Name {
            code: 3303402887,
            letters: b"skeleton",
        },
        _ => Name {
            code: 0,
            letters: b"",
        },
    }
}

// How many slots kind k has.
pub fn slots(k: usize) -> usize
    ensures { result ≡ get_or slot_counts k 0 }
{
    match k {
        0 => 3,
        1 => 6,
        2 => 12,
        3 => 2,
        4 => 6,
        5 => 4,
        6 => 3,
        7 => 2,
        8 => 2,
        _ => 0,
    }
}

// The name of slot j of kind k, by 16 k + j.
pub fn slot_name(g: usize) -> Name
    ensures { named result ≡ get_or slot_names g no_name }
{
    match g {
        0 => Name {
            code: 30942,
            letters: b"node",
        },
        1 => Name {
            code: 53870,
            letters: b"time",
        },
        2 => Name {
            code: 755932,
            letters: b"roots",
        },
        16 => Name {
            code: 633820,
            letters: b"parts",
        },
        17 => Name {
            code: 7002913,
            letters: b"matrix",
        },
        18 => Name {
            code: 3240483815,
            letters: b"children",
        },
        19 => Name {
            code: 28353,
            letters: b"mesh",
        },
        20 => Name {
            code: 50215,
            letters: b"skin",
        },
        21 => Name {
            code: 14811612,
            letters: b"weights",
        },
        32 => Name {
            code: 14332141,
            letters: b"target",
        },
        33 => Name {
            code: 45035999879,
            letters: b"translation",
        },
        34 => Name {
            code: 3101348487,
            letters: b"rotation",
        },
        35 => Name {
            code: 838238,
            letters: b"scale",
        },
        36 => Name {
            code: 14811612,
            letters: b"weights",
        },
        37 => Name {
            code: 52713,
            letters: b"step",
        },
        38 => Name {
            code: 5406379,
            letters: b"linear",
        },
        39 => Name {
            code: 47996031614,
            letters: b"cubicspline",
        },
        40 => Name {
            code: 20012,
            letters: b"keys",
        },
        41 => Name {
            code: 65219,
            letters: b"vec3",
        },
        42 => Name {
            code: 44717,
            letters: b"quat",
        },
        43 => Name {
            code: 13411755,
            letters: b"scalar",
        },
        48 => Name {
            code: 47885135852,
            letters: b"primitives",
        },
        49 => Name {
            code: 14811612,
            letters: b"weights",
        },
        64 => Name {
            code: 41006475388,
            letters: b"positions",
        },
        65 => Name {
            code: 126577244,
            letters: b"normals",
        },
        66 => Name {
            code: 3664832476,
            letters: b"tangents",
        },
        67 => Name {
            code: 3680220,
            letters: b"joints",
        },
        68 => Name {
            code: 14811612,
            letters: b"weights",
        },
        69 => Name {
            code: 229314268,
            letters: b"targets",
        },
        80 => Name {
            code: 41006475388,
            letters: b"positions",
        },
        81 => Name {
            code: 126577244,
            letters: b"normals",
        },
        82 => Name {
            code: 3664832476,
            letters: b"tangents",
        },
        83 => Name {
            code: 3201363580,
            letters: b"betweens",
        },
        96 => Name {
            code: 925725,
            letters: b"weight",
        },
        97 => Name {
            code: 41006475388,
            letters: b"positions",
        },
        98 => Name {
            code: 126577244,
            letters: b"normals",
        },
        112 => Name {
            code: 3303402887,
            letters: b"skeleton",
        },
        113 => Name {
            code: 47245,
            letters: b"root",
        },
        128 => Name {
            code: 3680220,
            letters: b"joints",
        },
        129 => Name {
            code: 731100,
            letters: b"binds",
        },
        _ => Name {
            code: 0,
            letters: b"",
        },
    }
}
