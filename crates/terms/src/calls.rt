// Exceptions and refused calls in words.
ghost use Rattle.std.specs.Prelude.{◌≡◌};
ghost use Rattle.terms.specs.Words.{exception_name, refusal_words};

use bus::Refusal;
use std::fmt;

// Words that a contract states are functions: of what a Display writes no contract speaks.
fn exception_name(number: u8) -> &'static str
    ensures { result.now ≡ exception_name number }
{
    match number {
        2 => "NMI",
        3 => "HardFault",
        11 => "SVCall",
        14 => "PendSV",
        15 => "SysTick",
        0..=15 => "reserved",
        _ => "external",
    }
}

fn refusal_words(refusal: Refusal) -> &'static str
    ensures { result.now ≡ refusal_words refusal }
{
    match refusal {
        Refusal::OutOfRange => "out of range",
        Refusal::RankTooHigh => "rank too high",
        Refusal::BadSetting => "bad setting",
        Refusal::CoreLocked => "core locked",
    }
}

// An exception's number and name. Wrappers here, since the types are numbers or bus's, and some are shown in two ways.
#[derive(Clone, Copy)]
pub struct ExceptionText(pub u8);

impl fmt::Display for ExceptionText {
    fn fmt<W: fmt::Write>(&self, f: &mut fmt::Formatter<W>) -> fmt::Result {
        let number = self.0;
        let name = exception_name(number);
        write!(f, "{number} {name}")
    }
}

// A refusal's number and words.
#[derive(Clone, Copy)]
pub struct RefusalText(pub Refusal);

impl fmt::Display for RefusalText {
    fn fmt<W: fmt::Write>(&self, f: &mut fmt::Formatter<W>) -> fmt::Result {
        let number = self.0.number();
        let words = refusal_words(self.0);
        write!(f, "{number} {words}")
    }
}
