ghost use Rattle.std.specs.Prelude.{◌≡◌};
ghost use Rattle.word.specs.Bitwise.{Combined, not_word};

/// The logical operations on two words. BIC is AND with NOT.
#[derive(Clone, Copy, Debug, PartialEq, Eq)]
pub enum Logic {
    And,
    Orr,
    Eor,
    Bic,
}

/// The operation on each two bits.
pub fn logical(op: Logic, x: u32, y: u32) -> u32
    ensures { Combined op x y result }
{
    match op {
        Logic::And => x & y,
        Logic::Orr => x | y,
        Logic::Eor => x ^ y,
        Logic::Bic => x & !y,
    }
}

/// NOT.
pub fn not(x: u32) -> u32
    ensures { result ≡ not_word x }
{
    !x
}
