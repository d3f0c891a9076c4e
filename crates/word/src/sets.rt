ghost use Rattle.std.specs.Prelude.{◌≡◌, MatchOption};
ghost use Rattle.word.specs.Fields.{bit_of};
ghost use Rattle.word.specs.Sets.{Added, Least, Mask, Removed};

// Functions on a plain word: the registers hold their sets as words, and what is defined of them is on numbers.

/// The mask of `k`: empty from 64 up.
fn mask(k: u32) -> u64
    ensures { Mask 64 k result }
{
    1_u64.checked_shl(k).unwrap_or(0)
}

/// Whether `k` is in the set, whose members are the bits that are set.
pub fn has(set: u64, k: u32) -> bool
    ensures { result ≡ bit_of set k }
{
    set & mask(k) != 0
}

/// The set with `k`; a set has no room for numbers from 64 up.
pub fn with(set: u64, k: u32) -> u64
    ensures { Added 64 set k result }
{
    set | mask(k)
}

/// The set without `k`.
pub fn without(set: u64, k: u32) -> u64
    ensures { Removed set k result }
{
    set & !mask(k)
}

/// The least number in the set, if it has one.
pub fn least(set: u64) -> Option<u32>
    ensures { MatchOption result (set ≡ 0) (Least 64 set) }
{
    if set == 0 {
        None
    } else {
        Some(set.trailing_zeros())
    }
}
