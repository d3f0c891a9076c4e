ghost use Rattle.std.specs.Prelude.{◌≡◌, ◌*◌, ◌%◌, ◌^◌, ◌*ℤ◌};
ghost use Rattle.std.specs.Int.{int_wrap, w32};
ghost use Rattle.word.specs.Integers.{signed};

/// MUL: the low word of the product.
pub fn mul(x: u32, y: u32) -> u32
    ensures { result ≡ x * y % 2 ^ 32 }
{
    x.wrapping_mul(y)
}

/// A law, for the check alone: operands read as signed give the same word.
fn mul_of_signed(x: u32, y: u32)
    ensures { signed 32 (x * y % 2 ^ 32) ≡ int_wrap w32 (signed 32 x *ℤ signed 32 y) }
{}
