// What a call of the host answers when it is turned away. It has then changed nothing. Its words are in `terms`, where a
// contract states them.
ghost use Rattle.std.specs.Prelude.{◌≡◌};
ghost use Rattle.bus.specs.Refusal.{refusal_number};

#[derive(Clone, Copy, Debug, PartialEq, Eq)]
pub enum Refusal {
    // an exception, a region or a panel word outside its range
    OutOfRange = 12,
    // a rank above 3
    RankTooHigh = 13,
    // a length, base, limit, exponent or rights code that no part can have
    BadSetting = 14,
    // a step of a locked core
    CoreLocked = 15,
}

impl Refusal {
    pub fn number(self) -> u8
        ensures { result ≡ refusal_number self }
    {
        self as u8
    }
}
