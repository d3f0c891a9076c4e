ghost use Rattle.std.specs.Prelude.{◌≡◌, true};
ghost use Rattle.word.specs.Bitwise.{not_word};
ghost use Rattle.word.specs.Compare.{Orders};
ghost use Rattle.word.specs.Flags.{of_sum};
ghost use Rattle.word.specs.Sums.{add_with_carry};

use super::flags::Flags;
use super::sums::{Sum, add_with_carry};

/// The flags of `x - y`, in which the conditions read as orders of `x` and `y`.
pub fn compared(x: u32, y: u32) -> Flags
    ensures value { result ≡ of_sum (add_with_carry x (not_word y) true) }
    ensures orders { Orders x y result }
{
    Flags::of_sum(difference(x, y))
}

/// `x - y`, with its carry and overflow.
pub fn difference(x: u32, y: u32) -> Sum
    ensures value { result ≡ add_with_carry x (not_word y) true }
    ensures orders { Orders x y (of_sum result) }
{
    add_with_carry(x, !y, true)
}
