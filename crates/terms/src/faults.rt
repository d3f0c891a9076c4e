// Faults in words, with their numbers.
ghost use Rattle.std.specs.Prelude.{◌≡◌};
ghost use Rattle.terms.specs.Words.{cause_words, kind_name};

use bus::{Cause, Fault};
use std::fmt;

// Words that a contract states are functions: of what a Display writes no contract speaks.
fn cause_words(cause: Cause) -> &'static str
    ensures { result.now ≡ cause_words cause }
{
    match cause {
        Cause::Unmapped => "nothing there",
        Cause::ReadOnly => "read-only",
        Cause::WrongWidth => "panel width",
        Cause::Forbidden => "region forbids",
        Cause::Misaligned => "misaligned",
        Cause::Undefined => "undefined instruction",
        Cause::Unpredictable => "unpredictable instruction",
        Cause::Breakpoint => "breakpoint",
        Cause::NotThumb => "T clear",
        Cause::SupervisorCallTooLow => "SVC too low",
        Cause::BadReturn => "bad exception return",
    }
}

// The core's own faults have kind 0.
fn kind_name(kind: u8) -> &'static str
    ensures { result.now ≡ kind_name kind }
{
    match kind {
        0 => "core",
        1 => "strip",
        2 => "panel",
        3 => "split",
        4 => "region check",
        _ => "unknown part",
    }
}

// A fault with its address.
#[derive(Clone, Copy)]
pub struct FaultAt(pub Fault);

impl fmt::Display for FaultAt {
    fn fmt<W: fmt::Write>(&self, f: &mut fmt::Formatter<W>) -> fmt::Result {
        let address = self.0.address;
        let text = FaultText(self.0);
        write!(f, "at 0x{address:08x}  {text}")
    }
}

// A fault without its address.
#[derive(Clone, Copy)]
pub struct FaultText(pub Fault);

impl fmt::Display for FaultText {
    fn fmt<W: fmt::Write>(&self, f: &mut fmt::Formatter<W>) -> fmt::Result {
        let fault = self.0;
        let cause = fault.cause.number();
        let why = cause_words(fault.cause);
        write!(f, "cause {cause} {why:<14}")?;
        let kind = fault.kind;
        let part = kind_name(kind);
        let hops = fault.hops;
        write!(f, "  kind {kind} {part:<12}  hops {hops}")
    }
}
