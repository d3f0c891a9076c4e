// What is asked of a core: steps, raisings, armings and rankings.
ghost use Rattle.std.specs.Prelude.{◌≡◌};
ghost use Rattle.bus.specs.Made.{Makes};
ghost use Rattle.arch.specs.Laws.{Kept};
ghost use Rattle.arch.specs.Step.{step as step_of, external as is_external, raisable as is_raisable, rankable as is_rankable, raised, armed, ranked, answer_to};
ghost use Rattle.cpu.specs.Responses.{stepped, accepted};

use super::Core;
use crate::step::step;
use arch::{Answer, Call, Completed, Registers, Response};
use bus::{Bus, Refusal};

const NMI: u32 = 2;

const SVCALL: u32 = 11;

const PENDSV: u32 = 14;

const SYSTICK: u32 = 15;

// 16 to 47
fn external(number: u32) -> bool
    ensures { result ≡ is_external number }
{
    16 <= number && number < 48
}

fn raisable(number: u32) -> bool
    ensures { result ≡ is_raisable number }
{
    number == NMI || number == PENDSV || number == SYSTICK || external(number)
}

fn rankable(number: u32) -> bool
    ensures { result ≡ is_rankable number }
{
    number == SVCALL || number == PENDSV || number == SYSTICK || external(number)
}

impl Core {
    // Every register.
    pub fn registers(&self) -> &Registers
        ensures { result.now ≡ self.now.registers }
    {
        &self.registers
    }

    // One step; a locked core makes none. A fault leaves the registers, but for HardFault pending or the lock mark.
    pub fn step<B: Bus>(&mut self, bus: &mut B) -> Result<Answer, Refusal>
        ensures made { Makes B.Bus bus.old bus.new (step_of self.old.registers) (stepped result, self.new.registers) }
        ensures kept { Kept (stepped result) self.old.registers self.new.registers }
    {
        step(&mut self.registers, bus)
    }

    // Makes NMI, PendSV, SysTick or an external exception pending.
    pub fn raise(&mut self, number: u32) -> Result<(), Refusal>
        ensures { (accepted result, self.new.registers) ≡ raised self.old.registers number }
    {
        if !raisable(number) {
            return Err(Refusal::OutOfRange);
        }
        let pending = self.registers.exceptions.pending;
        self.registers.exceptions.pending = word::with(pending, number);
        Ok(())
    }

    // Arms an external exception, or disarms it.
    pub fn arm(&mut self, number: u32, on: bool) -> Result<(), Refusal>
        ensures { (accepted result, self.new.registers) ≡ armed self.old.registers number on }
    {
        if !external(number) {
            return Err(Refusal::OutOfRange);
        }
        let armed = self.registers.exceptions.armed;
        self.registers.exceptions.armed = if on {
            word::with(armed, number)
        } else {
            word::without(armed, number)
        };
        Ok(())
    }

    // Gives SVCall, PendSV, SysTick or an external exception a rank from 0 to 3.
    pub fn rank(&mut self, number: u32, rank: u32) -> Result<(), Refusal>
        ensures { (accepted result, self.new.registers) ≡ ranked self.old.registers number rank }
    {
        if !rankable(number) {
            return Err(Refusal::OutOfRange);
        }
        if rank > 3 {
            return Err(Refusal::RankTooHigh);
        }
        self.registers.exceptions.ranks[number as usize] = rank as u8;
        Ok(())
    }

    // Any of these.
    #[tactic(auto, unfolding(arch::specs::Step::answer_to))]
    pub fn call<B: Bus>(&mut self, bus: &mut B, call: Call) -> Response
        ensures { Makes B.Bus bus.old bus.new (answer_to call self.old.registers) (result, self.new.registers) }
    {
        match call {
            Call::Step => return Ok(Completed::Stepped(self.step(bus)?)),
            Call::Raise(number) => self.raise(number)?,
            Call::Arm(number, on) => self.arm(number, on)?,
            Call::Rank(number, rank) => self.rank(number, rank)?,
        }
        Ok(Completed::Accepted)
    }
}
