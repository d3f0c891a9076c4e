// One step: an exception is taken up, or an instruction runs.
ghost use Rattle.std.specs.Prelude.{◌≡◌, Err, Ok};
ghost use Rattle.bus.specs.Made.{Makes};
ghost use Rattle.bus.specs.Program.{bind, done};
ghost use Rattle.arch.specs.Step.{execute as execute_of, perform_decoded, instruction as instruction_of, settle, step as step_of};
ghost use Rattle.arch.specs.declared.answers.Completed.TheVariants.{Stepped};
ghost use Rattle.exec.specs.Outcome.{Executes, outcome};
ghost use Rattle.thumb.specs.Decoded.{decoded};
ghost use Rattle.cpu.specs.Responses.{stepped, cause_of};

use crate::entry::{HARD_FAULT, take_up};
use arch::{Answer, Registers};
use bus::{Bus, Cause, Fault, Refusal};
use exec::Flow;
use thumb::instructions::Instruction;

// An instruction of `size` bytes.
fn execute<B: Bus>(
    r: &mut Registers,
    bus: &mut B,
    instruction: Instruction,
    size: u32,
) -> Result<Flow, Fault>
    ensures { Executes B.Bus bus.old bus.new r.old r.new (execute_of instruction size r.old) outcome result }
{
    match instruction {
        Instruction::Basic(basic) => {
            state::basic(r, basic);
            state::move_on(r, 2);
        }
        Instruction::Data { op, dn, m } => {
            state::operate(r, op, dn, m);
            state::move_on(r, 2);
        }
        Instruction::Special(special) => state::special(r, special),
        Instruction::Unary { op, d, m } => {
            state::convert(r, op, d, m);
            state::move_on(r, 2);
        }
        Instruction::Transfer { op, t, address } => {
            let x = exec::address_of(r, address);
            return exec::transfer(r, bus, op, t, x);
        }
        Instruction::Multiple(multiple) => return exec::multiple(r, bus, multiple),
        Instruction::Branch(branch) => return exec::branch(r, bus, branch),
        Instruction::System(system) => return exec::system(r, system, size),
    }
    Ok(Flow::Ran)
}

// A function: `From` needs one of the two types to be declared here.
fn cause(refusal: thumb::instructions::Refusal) -> Cause
    ensures { result ≡ cause_of refusal }
{
    match refusal {
        thumb::instructions::Refusal::Undefined => Cause::Undefined,
        thumb::instructions::Refusal::Unpredictable => Cause::Unpredictable,
    }
}

// The instruction that these halfwords encode.
fn decode_and_execute<B: Bus>(
    r: &mut Registers,
    bus: &mut B,
    first: u16,
    second: u16,
    size: u32,
) -> Result<Flow, Fault>
    ensures { Executes B.Bus bus.old bus.new r.old r.new (perform_decoded (decoded first second) size r.old) outcome result }
{
    match thumb::decode(first, second) {
        Ok(instruction) => execute(r, bus, instruction, size),
        Err(refusal) => Err(exec::fault(cause(refusal), r)),
    }
}

// The instruction at PC; with T clear there is none.
fn instruction<B: Bus>(r: &mut Registers, bus: &mut B) -> Result<Flow, Fault>
    ensures { Executes B.Bus bus.old bus.new r.old r.new (instruction_of r.old) outcome result }
{
    if !r.thumb {
        return Err(exec::fault(Cause::NotThumb, r));
    }
    let right = state::right(r);
    let first = bus.fetch(right, r.pc)?;
    if !thumb::is_wide(first) {
        return decode_and_execute(r, bus, first, 0, 2);
    }
    let second = bus.fetch(right, r.pc.wrapping_add(2))?;
    decode_and_execute(r, bus, first, second, 4)
}

// A fault keeps the registers: HardFault is pending, or below priority 0 the core locks.
fn settle_fault(r: &mut Registers, fault: Fault) -> Answer
    ensures { (Ok (Stepped result), r.new) ≡ settle r.old (Err fault) }
{
    if state::execution_priority(r) < 0 {
        r.locked = true;
        return Answer::Locked(fault);
    }
    exec::pend(r, HARD_FAULT);
    Answer::Faulted(fault)
}

fn run_instruction<B: Bus>(r: &mut Registers, bus: &mut B) -> Answer
    ensures { Makes B.Bus bus.old bus.new (bind (instruction_of r.old) (λ y. done (settle r.old y))) (Ok (Stepped result), r.new) }
{
    match instruction(r, bus) {
        Ok(flow) => Answer::from(flow),
        Err(fault) => settle_fault(r, fault),
    }
}

pub fn step<B: Bus>(r: &mut Registers, bus: &mut B) -> Result<Answer, Refusal>
    ensures { Makes B.Bus bus.old bus.new (step_of r.old) (stepped result, r.new) }
{
    match (r.locked, state::chosen(r)) {
        (true, _) => Err(Refusal::CoreLocked),
        (false, Some(number)) => Ok(take_up(r, bus, number)),
        (false, None) => Ok(run_instruction(r, bus)),
    }
}
