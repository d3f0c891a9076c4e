ghost use Rattle.std.specs.Prelude.{◌≡◌, ◌+◌, ◌*◌, ◌%◌, ◌^◌, not};
ghost use Rattle.word.specs.Integers.{eqZ, signed};
ghost use Rattle.word.specs.Sums.{add_with_carry, one_if, signed_sum, unsigned_sum};

use super::fields::bit;

/// A sum with what does not fit the word.
#[derive(Clone, Copy, Debug, PartialEq, Eq)]
pub struct Sum {
    pub value: u32,
    pub carry: bool,
    pub overflow: bool,
}

/// AddWithCarry. Value and carry together are the whole sum.
pub fn add_with_carry(x: u32, y: u32, carry_in: bool) -> Sum
    ensures value { result ≡ add_with_carry x y carry_in }
    ensures exact { result.value + 2 ^ 32 * one_if result.carry ≡ x + y + one_if carry_in }
{
    let sum = u64::from(x) + u64::from(y) + u64::from(carry_in);
    let value = (sum % (1 << 32)) as u32;
    Sum {
        value,
        carry: u64::from(value) != sum,
        overflow: overflows(x, y, carry_in, value),
    }
}

/// Whether the low word of a sum has the sign of neither operand.
fn overflows(x: u32, y: u32, carry_in: bool, value: u32) -> bool
    requires { value ≡ unsigned_sum x y carry_in % 2 ^ 32 }
    ensures { result ≡ not (eqZ (signed 32 value) (signed_sum x y carry_in)) }
{
    bit((x ^ value) & (y ^ value), 31)
}
