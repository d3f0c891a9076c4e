// A machine with a few words of code, and what its calls should answer.
use arch::{Answer, Call, Completed, Response};
use bus::{Bus, Refusal, Right, Width};
use cpu::Core;
use parts::{Limit, Panel, RegionCheck, Split, Strip};
use std::test::Fail;

pub const MEMORY: usize = 0x800;

// The stack, the reset vector, and the vectors of NMI, HardFault, SVCall and 16 to 18.
const VECTORS: [(u32, u32); 8] = [
    (0x00, 0x800),
    (0x04, 0x101),
    (0x08, 0x191),
    (0x0c, 0x181),
    (0x2c, 0x181),
    (0x40, 0x181),
    (0x44, 0x181),
    (0x48, 0x191),
];

// At 0x180 a handler that returns at once, at 0x190 one that returns to no mode.
const HANDLERS: [(u32, u32); 3] = [
    // bx lr
    (0x180, 0xbf00_4770),
    // movs r0, #0; mvns r0, r0; bx r0
    (0x190, 0x43c0_2000),
    (0x194, 0xbf00_4700),
];

fn put<B: Bus>(bus: &mut B, words: &[(u32, u32)]) -> Result<(), Fail> {
    for (address, word) in words {
        bus.write(Width::Word, Right::Privileged, *address, *word)?;
    }
    Ok(())
}

// Vectors, handlers, and the code at 0x100.
pub fn load(bytes: &mut [u8], code: &[u16]) -> Result<(), Fail> {
    let mut memory = Strip::new(bytes, 0, 0)?;
    put(&mut memory, &VECTORS)?;
    put(&mut memory, &HANDLERS)?;
    for (at, halfword) in (0x100..).step_by(2).zip(code) {
        memory.write(Width::Half, Right::Privileged, at, u32::from(*halfword))?;
    }
    Ok(())
}

pub type Memory<'a> = RegionCheck<Split<Strip<'a>, Panel>>;

// The first half of the memory is read-only, a panel lies at 0x40000000, and only privileged code may use either.
pub fn pile<'a>(bytes: &'a mut [u8]) -> Result<Memory<'a>, Refusal> {
    let limit = Limit::new(0x4000_0000)?;
    let panel = Panel::new(0x4000_0000)?;
    let strip = Strip::new(bytes, 0, 0x400)?;
    let mut pile = RegionCheck::new(Split::new(limit, strip, panel));
    pile.set_background(true);
    Ok(pile)
}

// What a call should answer. Flat, and not a `Response`: a row names a fault by its cause's number alone, and a refusal
// by its own.
#[derive(Clone, Copy, Debug, PartialEq, Eq)]
pub enum Expected {
    Ran,
    Entered(u8),
    Returned,
    Faulted(u8),
    Locked(u8),
    Accepted,
    Refused(u8),
}

impl From<Answer> for Expected {
    fn from(answer: Answer) -> Expected {
        match answer {
            Answer::Ran => Expected::Ran,
            Answer::Entered(number) => Expected::Entered(number),
            Answer::Returned => Expected::Returned,
            Answer::Faulted(fault) => Expected::Faulted(fault.cause.number()),
            Answer::Locked(fault) => Expected::Locked(fault.cause.number()),
        }
    }
}

impl From<Response> for Expected {
    fn from(response: Response) -> Expected {
        match response {
            Ok(Completed::Stepped(answer)) => answer.into(),
            Ok(Completed::Accepted) => Expected::Accepted,
            Err(refusal) => Expected::Refused(refusal.number()),
        }
    }
}

// Makes the calls in order and compares each answer; a failure names the first that differs, from 1.
pub fn follow<B: Bus>(core: &mut Core, bus: &mut B, rows: &[(Call, Expected)]) -> Result<(), Fail> {
    for (index, row) in rows.iter().enumerate() {
        let (call, expected) = *row;
        if Expected::from(core.call(bus, call)) != expected {
            return Err(Fail::new(index.saturating_add(1)));
        }
    }
    Ok(())
}
