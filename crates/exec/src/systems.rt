// Calls to the system, special registers, hints and barriers.
ghost use Rattle.std.specs.Prelude.{◌≡◌, ◌≤◌};
ghost use Rattle.bus.specs.Program.{done};
ghost use Rattle.arch.specs.Registers.{pend as pended};
ghost use Rattle.arch.specs.Status.{flags_word as flags_word_of};
ghost use Rattle.arch.specs.System.{if_privileged, special_value as special_value_of, special_write, system as system_of};
ghost use Rattle.exec.specs.Outcome.{outcome, KeptAt};

use crate::flow::Flow;
use crate::returns::{fault, flags_of};
use arch::Registers;
use bus::{Cause, Fault};
use thumb::instructions::{SpecialRegister, System};
use word::Flags;

const SVCALL: u8 = 11;

// APSR as a word; a function, since `word`, which declares `Flags`, knows nothing of APSR.
pub fn flags_word(flags: Flags) -> u32
    ensures value { result ≡ flags_word_of flags }
    ensures bound { result ≤ 0xf000_0000 }
{
    u32::from(flags.n) * 0x8000_0000
        + u32::from(flags.z) * 0x4000_0000
        + u32::from(flags.c) * 0x2000_0000
        + u32::from(flags.v) * 0x1000_0000
}

// What only privileged code may see: others read 0.
fn shown(r: &Registers, value: u32) -> u32
    ensures { result ≡ if_privileged r.now value }
{
    if state::privileged(r) { value } else { 0 }
}

// What MRS reads.
fn special_value(r: &Registers, from: SpecialRegister) -> u32
    ensures { result ≡ special_value_of from r.now }
{
    let flags = flags_word(r.flags);
    let number = shown(r, u32::from(r.current));
    match from {
        SpecialRegister::Apsr | SpecialRegister::Eapsr => flags,
        SpecialRegister::Iapsr | SpecialRegister::Xpsr => flags + number,
        SpecialRegister::Ipsr | SpecialRegister::Iepsr => number,
        SpecialRegister::Epsr => 0,
        SpecialRegister::Msp => shown(r, r.msp),
        SpecialRegister::Psp => shown(r, r.psp),
        SpecialRegister::Primask => u32::from(r.primask),
        SpecialRegister::Control => u32::from(r.control.spsel) * 2 + u32::from(r.control.npriv),
    }
}

// What MSR writes; what the mode may not write is ignored.
fn set_special(r: &mut Registers, to: SpecialRegister, value: u32)
    ensures { r.new ≡ special_write to r.old value }
{
    let privileged = state::privileged(r);
    match to {
        SpecialRegister::Apsr
        | SpecialRegister::Iapsr
        | SpecialRegister::Eapsr
        | SpecialRegister::Xpsr => r.flags = flags_of(value),
        SpecialRegister::Ipsr | SpecialRegister::Epsr | SpecialRegister::Iepsr => {}
        SpecialRegister::Msp if privileged => r.msp = value / 4 * 4,
        SpecialRegister::Msp => {}
        SpecialRegister::Psp if privileged => r.psp = value / 4 * 4,
        SpecialRegister::Psp => {}
        SpecialRegister::Primask if privileged => r.primask = word::bit(value, 0),
        SpecialRegister::Primask => {}
        SpecialRegister::Control if privileged && !state::handler(r) => {
            r.control.npriv = word::bit(value, 0);
            r.control.spsel = word::bit(value, 1);
        }
        SpecialRegister::Control => {}
    }
}

// Makes an exception pending.
pub fn pend(r: &mut Registers, number: u8)
    ensures { r.new ≡ pended r.old number }
{
    r.exceptions.pending = word::with(r.exceptions.pending, u32::from(number));
}

// SVCall, which has to be able to preempt. Here is no access, and so no program for one fact to speak of.
fn call_supervisor(r: &mut Registers, size: u32) -> Result<Flow, Fault>
    ensures value { system_of (System.Svc 0) size r.old ≡ done (outcome result r.new) }
    ensures kept { KeptAt result r.old r.new }
{
    if state::priority(r, SVCALL) >= state::execution_priority(r) {
        return Err(fault(Cause::SupervisorCallTooLow, r));
    }
    pend(r, SVCALL);
    state::move_on(r, size);
    Ok(Flow::Ran)
}

pub fn system(r: &mut Registers, instruction: System, size: u32) -> Result<Flow, Fault>
    ensures value { system_of instruction size r.old ≡ done (outcome result r.new) }
    ensures kept { KeptAt result r.old r.new }
{
    match instruction {
        System::Svc { .. } => return call_supervisor(r, size),
        System::Bkpt { .. } => return Err(fault(Cause::Breakpoint, r)),
        System::Udf { .. } | System::UdfWide { .. } => {
            return Err(fault(Cause::Undefined, r));
        }
        System::Cps { disable } if state::privileged(r) => r.primask = disable,
        System::Cps { .. } => {}
        System::Hint { .. } | System::Dsb { .. } | System::Dmb { .. } | System::Isb { .. } => {}
        System::Mrs { d, from } => state::set_register(r, d, special_value(r, from)),
        System::Msr { to, n } => set_special(r, to, state::register(r, n)),
    }
    state::move_on(r, size);
    Ok(Flow::Ran)
}
