ghost use Rattle.std.specs.Prelude.{◌≡◌, pos, int_lt};
ghost use Rattle.word.specs.Flags.{of_sum, with_result, with_shifted};
ghost use Rattle.word.specs.Integers.{signed};

use super::fields::bit;
use super::shifts::Shifted;
use super::sums::Sum;

/// The condition flags of APSR.
#[derive(Clone, Copy, Debug, Default, PartialEq, Eq)]
pub struct Flags {
    pub n: bool,
    pub z: bool,
    pub c: bool,
    pub v: bool,
}

impl Flags {
    /// All four, as a sum leaves them.
    pub fn of_sum(sum: Sum) -> Flags
        ensures { result ≡ of_sum sum }
    {
        Flags {
            n: bit(sum.value, 31),
            z: sum.value == 0,
            c: sum.carry,
            v: sum.overflow,
        }
    }

    /// N and Z of a result; C and V stay.
    pub fn with_result(self, value: u32) -> Flags
        ensures value { result ≡ with_result self value }
        ensures negative { result.n ≡ int_lt (signed 32 value) (pos 0) }
    {
        Flags {
            n: bit(value, 31),
            z: value == 0,
            ..self
        }
    }

    /// N, Z and C of a shifted word; V stays.
    pub fn with_shifted(self, shifted: Shifted) -> Flags
        ensures { result ≡ with_shifted self shifted }
    {
        Flags {
            c: shifted.carry,
            ..self.with_result(shifted.value)
        }
    }
}
