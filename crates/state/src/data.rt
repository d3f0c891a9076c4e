// The instructions that compute.
ghost use Rattle.std.specs.Prelude.{◌≡◌, false};
ghost use Rattle.word.specs.Bitwise.{logic_of};
ghost use Rattle.word.specs.Fields.{field_of};
ghost use Rattle.word.specs.Shifts.{shift_c};
ghost use Rattle.word.specs.Sums.{add_with_carry};
ghost use Rattle.arch.specs.Data.{basic_result, operation_result, unary_value, special_result, shifted, resulted, carry};
ghost use Rattle.arch.specs.Registers.{reg, with_reg};

use crate::access::{move_on, register, set_register, set_stack_pointer, stack_pointer};
use crate::results::{compare, put_result, put_shifted, put_sum, write_to};
use arch::Registers;
use thumb::instructions::{Basic, Operation, Special, Unary};
use word::{Logic, Shift, Sum, difference};

fn sum(x: u32, y: u32) -> Sum
    ensures { result ≡ add_with_carry x y false }
{
    word::add_with_carry(x, y, false)
}

// A shift of `x` into R[d].
fn shift(r: &mut Registers, d: u8, kind: Shift, x: u32, amount: u32)
    ensures { r.new ≡ shifted r.old d (shift_c kind x amount (carry r.old)) }
{
    let result = word::shift_c(kind, x, amount, r.flags.c);
    put_shifted(r, d, result);
}

pub fn basic(r: &mut Registers, instruction: Basic)
    ensures { r.new ≡ basic_result instruction r.old }
{
    match instruction {
        Basic::Lsl { d, m, by } => shift(r, d, Shift::Lsl, register(r, m), by),
        Basic::Lsr { d, m, by } => shift(r, d, Shift::Lsr, register(r, m), by),
        Basic::Asr { d, m, by } => shift(r, d, Shift::Asr, register(r, m), by),
        Basic::Mov { d, m } => put_result(r, d, register(r, m)),
        Basic::AddRegister { d, n, m } => put_sum(r, d, sum(register(r, n), register(r, m))),
        Basic::SubRegister { d, n, m } => put_sum(r, d, difference(register(r, n), register(r, m))),
        Basic::AddSmall { d, n, imm } => put_sum(r, d, sum(register(r, n), imm)),
        Basic::SubSmall { d, n, imm } => put_sum(r, d, difference(register(r, n), imm)),
        Basic::MovByte { d, imm } => put_result(r, d, imm),
        Basic::CmpByte { n, imm } => compare(r, difference(register(r, n), imm)),
        Basic::AddByte { dn, imm } => put_sum(r, dn, sum(register(r, dn), imm)),
        Basic::SubByte { dn, imm } => put_sum(r, dn, difference(register(r, dn), imm)),
    }
}

// A shift of R[dn] by the low byte of R[m].
fn shift_by_register(r: &mut Registers, kind: Shift, dn: u8, m: u8)
    ensures { r.new ≡ shifted r.old dn (shift_c kind (reg r.old dn) (field_of (reg r.old m) 0 8) (carry r.old)) }
{
    let amount = word::field(register(r, m), 0, 8);
    shift(r, dn, kind, register(r, dn), amount);
}

// A logical operation on R[dn] and R[m].
fn combine(r: &mut Registers, logic: Logic, dn: u8, m: u8)
    ensures { r.new ≡ resulted r.old dn (logic_of logic (reg r.old dn) (reg r.old m)) }
{
    let result = word::logical(logic, register(r, dn), register(r, m));
    put_result(r, dn, result);
}

pub fn operate(r: &mut Registers, operation: Operation, dn: u8, m: u8)
    ensures { r.new ≡ operation_result operation dn m r.old }
{
    let carry = r.flags.c;
    match operation {
        Operation::And => combine(r, Logic::And, dn, m),
        Operation::Eor => combine(r, Logic::Eor, dn, m),
        Operation::Lsl => shift_by_register(r, Shift::Lsl, dn, m),
        Operation::Lsr => shift_by_register(r, Shift::Lsr, dn, m),
        Operation::Asr => shift_by_register(r, Shift::Asr, dn, m),
        Operation::Adc => put_sum(
            r,
            dn,
            word::add_with_carry(register(r, dn), register(r, m), carry),
        ),
        Operation::Sbc => put_sum(
            r,
            dn,
            word::add_with_carry(register(r, dn), word::not(register(r, m)), carry),
        ),
        Operation::Ror => shift_by_register(r, Shift::Ror, dn, m),
        Operation::Tst => r.flags = r
            .flags
            .with_result(word::logical(Logic::And, register(r, dn), register(r, m))),
        Operation::Rsb => put_sum(r, dn, difference(0, register(r, m))),
        Operation::Cmp => compare(r, difference(register(r, dn), register(r, m))),
        Operation::Cmn => compare(r, sum(register(r, dn), register(r, m))),
        Operation::Orr => combine(r, Logic::Orr, dn, m),
        Operation::Mul => put_result(r, dn, word::mul(register(r, dn), register(r, m))),
        Operation::Bic => combine(r, Logic::Bic, dn, m),
        Operation::Mvn => put_result(r, dn, word::not(register(r, m))),
    }
}

fn unary(operation: Unary, x: u32) -> u32
    ensures { result ≡ unary_value operation x }
{
    match operation {
        Unary::Sxth => word::sign_extend(x, 16),
        Unary::Sxtb => word::sign_extend(x, 8),
        Unary::Uxth => word::field(x, 0, 16),
        Unary::Uxtb => word::field(x, 0, 8),
        Unary::Rev => word::rev(x),
        Unary::Rev16 => word::rev16(x),
        Unary::Revsh => word::revsh(x),
    }
}

// Extensions and reversals of R[m] into R[d].
pub fn convert(r: &mut Registers, operation: Unary, d: u8, m: u8)
    ensures { r.new ≡ with_reg r.old d (unary_value operation (reg r.old m)) }
{
    let value = unary(operation, register(r, m));
    set_register(r, d, value);
}

// Sums, a comparison and a move of any registers, with what PC comes to.
pub fn special(r: &mut Registers, instruction: Special)
    ensures { r.new ≡ special_result instruction r.old }
{
    match instruction {
        Special::Add { dn, m } => write_to(r, dn, register(r, dn).wrapping_add(register(r, m))),
        Special::Cmp { n, m } => {
            compare(r, difference(register(r, n), register(r, m)));
            move_on(r, 2);
        }
        Special::Mov { d, m } => write_to(r, d, register(r, m)),
        Special::Adr { d, imm } => write_to(
            r,
            d,
            word::align(register(r, 15), 4).wrapping_add(imm),
        ),
        Special::AddSp { d, imm } => write_to(r, d, stack_pointer(r).wrapping_add(imm)),
        Special::RaiseSp { imm } => {
            set_stack_pointer(r, stack_pointer(r).wrapping_add(imm));
            move_on(r, 2);
        }
        Special::LowerSp { imm } => {
            set_stack_pointer(r, stack_pointer(r).wrapping_sub(imm));
            move_on(r, 2);
        }
    }
}
