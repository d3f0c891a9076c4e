ghost use Rattle.std.specs.Prelude.{◌≡◌, ◌%◌, ◌^◌, ◌<◌, ◌≤◌};
ghost use Rattle.word.specs.Extend.{sign_extend};
ghost use Rattle.word.specs.Integers.{signed};

use super::fields::bit;

/// ZeroExtend of the low `width` bits of `x`: all of them from 32 up.
pub fn zero_extend(x: u32, width: u32) -> u32
    ensures { result ≡ x % 2 ^ width }
{
    if width < 32 { x % (1 << width) } else { x }
}

/// SignExtend of the low `width` bits of `x`, which stand for the same number after.
pub fn sign_extend(x: u32, width: u32) -> u32
    ensures value { result ≡ sign_extend width 32 (x % 2 ^ width) }
    ensures number { 0 < width → width ≤ 32 → signed 32 result ≡ signed width (x % 2 ^ width) }
{
    let low = zero_extend(x, width);
    if width == 0 || width >= 32 || !bit(low, width - 1) {
        return low;
    }
    low.wrapping_sub(1 << width)
}
