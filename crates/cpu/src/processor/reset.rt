// How a core begins.
ghost use Rattle.std.specs.Prelude.{◌≡◌, false};
ghost use Rattle.bus.specs.Made.{Leaves, Makes};
ghost use Rattle.arch.specs.Step.{blank, fresh as fresh_of, new_core, reset as reset_of};
ghost use Rattle.exec.specs.Outcome.{Executes, returned_to};
ghost use Rattle.cpu.specs.Restored.{Restored};

use super::Core;
use arch::Registers;
use bus::{Bus, Fault, Refusal, Right, Width};

// All registers 0, clear or off.
fn cleared() -> Registers
    ensures { result ≡ blank false 0 0 0 false }
{
    Registers::default()
}

// The registers just after a reset, by words 0 and 4.
fn fresh(msp: u32, start: u32) -> Registers
    ensures { result ≡ fresh_of msp start }
{
    Registers {
        lr: 0xffff_ffff,
        msp: msp / 4 * 4,
        pc: start / 2 * 2,
        thumb: start % 2 == 1,
        ..cleared()
    }
}

#[tactic(auto, unfolding(arch::specs::Step::reset))]
fn boot<B: Bus>(bus: &mut B) -> Result<Registers, Fault>
    ensures made { Makes B.Bus bus.old bus.new reset_of result }
    ensures leaves { Leaves B.Bus bus.old bus.new }
{
    let msp = bus.read(Width::Word, Right::Privileged, 0)?;
    let start = bus.read(Width::Word, Right::Privileged, 4)?;
    Ok(fresh(msp, start))
}

impl Core {
    // A core that is locked until a reset succeeds.
    pub fn new() -> Core
        ensures { result.registers ≡ new_core }
    {
        Core {
            registers: Registers {
                locked: true,
                ..cleared()
            },
        }
    }

    // A core with registers that were read from one; others are refused. No `TryFrom`, which would be a second name for it.
    pub fn with_registers(registers: Registers) -> Result<Core, Refusal>
        ensures { Restored result registers }
    {
        let exceptions = registers.exceptions;
        let thread = registers.current == 0;
        let current = word::has(exceptions.active, u32::from(registers.current));
        let sound = registers.pc % 2 == 0
            && registers.msp % 4 == 0
            && registers.psp % 4 == 0
            && thread == (exceptions.active == 0)
            && (thread || current);
        if !sound {
            return Err(Refusal::BadSetting);
        }
        Ok(Core { registers })
    }

    // A refused read is answered and changes nothing.
    pub fn reset<B: Bus>(&mut self, bus: &mut B) -> Result<(), Fault>
        ensures made { Executes B.Bus bus.old bus.new self.old.registers self.new.registers reset_of returned_to result }
        ensures leaves { Leaves B.Bus bus.old bus.new }
    {
        self.registers = boot(bus)?;
        Ok(())
    }
}
