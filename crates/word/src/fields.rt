ghost use Rattle.std.specs.Prelude.{◌≡◌, ◌/◌, ◌^◌};
ghost use Rattle.word.specs.Fields.{bit_of, field_of};

use super::extend::zero_extend;

/// `x` moved down by `n` bits, whatever `n` is.
pub(crate) fn shr(x: u32, n: u32) -> u32
    ensures { result ≡ x / 2 ^ n }
{
    x.checked_shr(n).unwrap_or(0)
}

/// The bits `from` to `from + count - 1` of `x`; those from 32 up are 0.
pub fn field(x: u32, from: u32, count: u32) -> u32
    ensures { result ≡ field_of x from count }
{
    zero_extend(shr(x, from), count)
}

/// Bit `k` of `x`, clear from 32 up.
pub fn bit(x: u32, k: u32) -> bool
    ensures { result ≡ bit_of x k }
{
    field(x, k, 1) == 1
}
