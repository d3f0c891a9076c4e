// What is asked of a core, and what it answers.
ghost use Rattle.std.specs.Prelude.{◌≡◌};
ghost use Rattle.arch.specs.Answers.{answer_number};

use bus::{Fault, Refusal};

// Exceptions and ranks are numbers here: one that is out of range is refused under its number.
#[derive(Clone, Copy, Debug, PartialEq, Eq)]
pub enum Call {
    Step,
    // make an exception pending
    Raise(u32),
    // arm an external exception, or disarm it
    Arm(u32, bool),
    // give an exception a rank
    Rank(u32, u32),
}

// What a step came to.
#[derive(Clone, Copy, Debug, PartialEq, Eq)]
pub enum Answer {
    // an instruction was carried out
    Ran,
    // the exception of this number was taken up
    Entered(u8),
    // an exception was returned from
    Returned,
    // the instruction was refused, and HardFault is pending
    Faulted(Fault),
    // the core locked
    Locked(Fault),
}

impl Answer {
    pub fn number(self) -> u8
        ensures { result ≡ answer_number self }
    {
        // variants with payloads have no number to cast
        match self {
            Answer::Ran => 0,
            Answer::Entered(_) => 1,
            Answer::Returned => 2,
            Answer::Faulted(_) => 3,
            Answer::Locked(_) => 4,
        }
    }
}

// What a call came to that was not turned away.
#[derive(Clone, Copy, Debug, PartialEq, Eq)]
pub enum Completed {
    Stepped(Answer),
    // the host's call was carried out
    Accepted,
}

// What a call came to. One that is turned away has changed nothing.
pub type Response = Result<Completed, Refusal>;
