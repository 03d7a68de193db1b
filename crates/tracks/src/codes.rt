// Kinds and interpolations from the numbers of a table; a number that names nothing reads as the last.
ghost use Rattle.std.specs.Prelude.{◌≡◌};
ghost use Rattle.tracks.specs.Codes.{kind_for, interpolation_for};

use crate::{Interpolation, Kind};

impl From<u32> for Kind {
    ghost from_gives = { λ n k. k ≡ kind_for n };

    fn from(n: u32) -> Kind {
        match n {
            0 => Kind::Vec3,
            1 => Kind::Quat,
            _ => Kind::Scalar,
        }
    }
}

impl From<u32> for Interpolation {
    ghost from_gives = { λ n i. i ≡ interpolation_for n };

    fn from(n: u32) -> Interpolation {
        match n {
            0 => Interpolation::Step,
            1 => Interpolation::Linear,
            _ => Interpolation::CubicSpline,
        }
    }
}
