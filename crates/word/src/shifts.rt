ghost use Rattle.std.specs.Prelude.{◌≡◌, ℕ, ◌<◌};
ghost use Rattle.word.specs.Fields.{bit_of};
ghost use Rattle.word.specs.Shifts.{asr_c, bit_after, by_kind, lsl_c, lsr_c, ror_c, shift_c};

use super::fields::{bit, shr};

#[derive(Clone, Copy, Debug, PartialEq, Eq)]
pub enum Shift {
    Lsl,
    Lsr,
    Asr,
    Ror,
}

/// A shifted word, with the last bit shifted out of it.
#[derive(Clone, Copy, Debug, PartialEq, Eq)]
pub struct Shifted {
    pub value: u32,
    pub carry: bool,
}

/// Shift_C, for every amount: an amount of 0 leaves the carry.
pub fn shift_c(kind: Shift, x: u32, amount: u32, carry_in: bool) -> Shifted
    ensures value { result ≡ shift_c kind x amount carry_in }
    ensures bits { (k : ℕ) → k < 32 → bit_of result.value k ≡ bit_after kind x amount k }
{
    if amount == 0 {
        Shifted {
            value: x,
            carry: carry_in,
        }
    } else {
        moved(kind, x, amount)
    }
}

// `0 < n` and no `NonZero`: the one test above gives it, and the shifts reckon with the plain number.
fn moved(kind: Shift, x: u32, n: u32) -> Shifted
    requires { 0 < n }
    ensures { result ≡ by_kind kind x n }
{
    match kind {
        Shift::Lsl => lsl_c(x, n),
        Shift::Lsr => lsr_c(x, n),
        Shift::Asr => asr_c(x, n),
        Shift::Ror => ror_c(x, n),
    }
}

fn lsl_c(x: u32, n: u32) -> Shifted
    ensures { result ≡ lsl_c x n }
{
    if n > 32 {
        return Shifted {
            value: 0,
            carry: false,
        };
    }
    let extended = u64::from(x) << n;
    Shifted {
        value: (extended % (1 << 32)) as u32,
        carry: (extended >> 32) % 2 == 1,
    }
}

fn lsr_c(x: u32, n: u32) -> Shifted
    requires { 0 < n }
    ensures { result ≡ lsr_c x n }
{
    Shifted {
        value: shr(x, n),
        carry: bit(x, n - 1),
    }
}

fn asr_c(x: u32, n: u32) -> Shifted
    requires { 0 < n }
    ensures { result ≡ asr_c x n }
{
    Shifted {
        value: (x.cast_signed() >> n.min(31)).cast_unsigned(),
        carry: bit(x, (n - 1).min(31)),
    }
}

fn ror_c(x: u32, n: u32) -> Shifted
    ensures { result ≡ ror_c x n }
{
    let value = x.rotate_right(n);
    Shifted {
        value,
        carry: bit(value, 31),
    }
}
