// Where results go: into a register, with the flags that they set.
ghost use Rattle.std.specs.Prelude.{◌≡◌};
ghost use Rattle.arch.specs.Data.{summed, compared, resulted, shifted as shifted_into, written_to};

use crate::access::{branch_to, move_on, set_register};
use arch::Registers;
use word::{Flags, Shifted, Sum};

pub fn put_sum(r: &mut Registers, d: u8, sum: Sum)
    ensures { r.new ≡ summed r.old d sum }
{
    set_register(r, d, sum.value);
    compare(r, sum);
}

pub fn compare(r: &mut Registers, sum: Sum)
    ensures { r.new ≡ compared r.old sum }
{
    r.flags = Flags::of_sum(sum);
}

pub fn put_result(r: &mut Registers, d: u8, value: u32)
    ensures { r.new ≡ resulted r.old d value }
{
    set_register(r, d, value);
    r.flags = r.flags.with_result(value);
}

pub fn put_shifted(r: &mut Registers, d: u8, shifted: Shifted)
    ensures { r.new ≡ shifted_into r.old d shifted }
{
    set_register(r, d, shifted.value);
    r.flags = r.flags.with_shifted(shifted);
}

// A result into any register; a write to PC is a branch.
pub fn write_to(r: &mut Registers, d: u8, value: u32)
    ensures { r.new ≡ written_to r.old d value }
{
    set_register(r, d, value);
    if d == 15 {
        branch_to(r, value);
    } else {
        move_on(r, 2);
    }
}
