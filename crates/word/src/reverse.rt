ghost use Rattle.std.specs.Prelude.{◌≡◌};
ghost use Rattle.word.specs.Integers.{signed};
ghost use Rattle.word.specs.Reverse.{rev_of, rev16_of, revsh_of, swapped};

use super::extend::sign_extend;

/// REV: the four bytes in reverse.
pub fn rev(x: u32) -> u32
    ensures value { result ≡ rev_of x }
    ensures twice { rev_of result ≡ x }
{
    x.swap_bytes()
}

/// REV16: the two bytes of each halfword in reverse.
pub fn rev16(x: u32) -> u32
    ensures value { result ≡ rev16_of x }
    ensures twice { rev16_of result ≡ x }
{
    let [a, b, c, d] = x.to_le_bytes();
    u32::from_le_bytes([b, a, d, c])
}

/// REVSH: the two bytes of the low halfword in reverse, as a signed number.
pub fn revsh(x: u32) -> u32
    ensures value { result ≡ revsh_of x }
    ensures number { signed 32 result ≡ signed 16 (swapped x) }
{
    sign_extend(rev16(x), 16)
}
