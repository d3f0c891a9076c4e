// What a refused access answers.
ghost use Rattle.std.specs.Prelude.{◌≡◌};
ghost use Rattle.bus.specs.Fault.{cause_number, raised, handed_up};

use crate::access::Access;

// Why an access is refused, and from Undefined on why the core refuses an instruction.
#[derive(Clone, Copy, Debug, PartialEq, Eq)]
pub enum Cause {
    Unmapped = 1,
    ReadOnly = 2,
    WrongWidth = 3,
    Forbidden = 4,
    Misaligned = 5,
    Undefined = 6,
    Unpredictable = 7,
    Breakpoint = 8,
    NotThumb = 9,
    SupervisorCallTooLow = 10,
    BadReturn = 11,
}

impl Cause {
    pub fn number(self) -> u8
        ensures { result ≡ cause_number self }
    {
        self as u8
    }
}

#[derive(Clone, Copy, Debug, PartialEq, Eq)]
pub struct Fault {
    pub cause: Cause,
    // the address of the refused access
    pub address: u32,
    // the kind of the part that refused: a number and no enum, since whoever writes a part of their own chooses it
    pub kind: u8,
    // how many parts handed it up, at most 255
    pub hops: u8,
}

impl Fault {
    // The fault of the part that refuses `access` itself.
    pub fn raise(cause: Cause, access: Access, kind: u8) -> Self
        ensures { result ≡ raised cause access kind }
    {
        Fault {
            cause,
            address: access.address,
            kind,
            hops: 0,
        }
    }

    // The fault as one more part hands it up.
    pub fn hand_up(self) -> Self
        ensures { result ≡ handed_up self }
    {
        Fault {
            hops: self.hops.saturating_add(1),
            ..self
        }
    }
}
