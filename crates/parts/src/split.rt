// A split: two buses side by side, one below a limit and one from the limit on.
ghost use Rattle.std.specs.Prelude.{◌≡◌, ℕ, ◌%◌, is_ok, MatchResult, ◌==◌};
ghost use Rattle.bus.specs.declared.refusal.Refusal.TheVariants.{BadSetting};
ghost use Rattle.parts.specs.Split.{OneSide, joined, split_verdict, split_laws};

use crate::hop;
use bus::{Access, Bus, Fault, Refusal};

const SPLIT_KIND: u8 = 3;

// The first address of a split's second bus. It is checked before a split takes any bus.
#[derive(Clone, Copy)]
pub struct Limit {
    address: u32,
    ghost multiple: { address % 4 ≡ 0 },
}

impl Limit {
    pub fn new(address: u32) -> Result<Limit, Refusal>
        ensures test { is_ok result ≡ (address % 4 == 0) }
        ensures cases { MatchResult result (λ l. l.address ≡ address) (λ e. e ≡ BadSetting) }
    {
        if address % 4 != 0 {
            return Err(Refusal::BadSetting);
        }
        Ok(Limit { address })
    }
}

#[derive(Drop)]
pub struct Split<L, U> {
    pub lower: L,
    pub upper: U,
    limit: u32,
}

impl<L: Bus, U: Bus> Split<L, U> {
    pub fn new(limit: Limit, lower: L, upper: U) -> Split<L, U>
        ensures value { result ≡ record { lower = lower; upper = upper; limit = limit.address } }
        ensures whole { OneSide limit.address (L.Bus.verdict lower) (U.Bus.verdict upper) }
    {
        Split {
            lower,
            upper,
            limit: limit.address,
        }
    }
}

impl<L: Bus, U: Bus> Bus for Split<L, U> {
    const KIND: u8 = SPLIT_KIND;

    ghost kind = { 3 };

    ghost bytes = { λ s. joined s.limit (L.Bus.bytes s.lower) (U.Bus.bytes s.upper) };

    ghost verdict = { λ s. split_verdict s.limit (L.Bus.verdict s.lower) (U.Bus.verdict s.upper) };

    ghost Settings = { ℕ × (L.Bus.Settings × U.Bus.Settings) };

    ghost settings = { λ s. (s.limit, (L.Bus.settings s.lower, U.Bus.settings s.upper)) };

    ghost laws = { split_laws L.Bus.laws U.Bus.laws };

    fn access(&mut self, access: Access, value: u32) -> Result<u32, Fault> {
        access.aligned(SPLIT_KIND)?;
        // An aligned access lies in one word, so its first address decides for the whole of it.
        if access.address / 4 < self.limit / 4 {
            hop::hand_up(self.lower.access(access, value))
        } else {
            hop::hand_up(self.upper.access(access, value))
        }
    }
}
