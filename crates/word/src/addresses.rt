ghost use Rattle.std.specs.Prelude.{◌≡◌, ◌+◌, ◌%◌, ◌<◌, ◌≤◌};
ghost use Rattle.word.specs.Addresses.{align_to};

/// Align: the greatest multiple of `n` that is not above `x`; 0 where `n` is.
pub fn align(x: u32, n: u32) -> u32
    ensures value { result ≡ align_to x n }
    ensures multiple { 0 < n → result % n ≡ 0 }
    ensures nearest { 0 < n → (result ≤ x) × (x < result + n) }
{
    if n == 0 { 0 } else { x - x % n }
}
