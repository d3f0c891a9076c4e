// A core, with what every core keeps.
ghost use Rattle.std.specs.Prelude.{◌≡◌, ◌%◌, true, ◌||◌, ◌==◌};
ghost use Rattle.word.specs.Fields.{bit_of};

use arch::Registers;

mod calls;
mod reset;

#[derive(Drop)]
pub struct Core {
    registers: Registers,
    ghost even: { registers.pc % 2 ≡ 0 },
    ghost main: { registers.msp % 4 ≡ 0 },
    ghost process: { registers.psp % 4 ≡ 0 },
    // Thread mode exactly when no exception is active
    ghost mode: { (registers.current == 0) ≡ (registers.exceptions.active == 0) },
    // in Handler mode the current exception is an active one
    ghost current: { (registers.current == 0 || bit_of registers.exceptions.active registers.current) ≡ true },
}
