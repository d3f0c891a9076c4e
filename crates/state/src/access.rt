// R[n], SP, PC and the mode, as the manual's pseudocode reads and writes them.
// Functions, since `Registers` stands in arch beside its definitions; a trait with one impl would only repeat each contract.
ghost use Rattle.std.specs.Prelude.{◌≡◌};
ghost use Rattle.arch.specs.Registers.{handler as is_handler, privileged as is_privileged, right_of, on_process, sp, with_sp, pc_value, reg, with_reg, moved_on, branch_to, interwork, with_pc};

use arch::Registers;
use bus::Right;

pub fn handler(r: &Registers) -> bool
    ensures { result ≡ is_handler r.now }
{
    r.current != 0
}

pub fn privileged(r: &Registers) -> bool
    ensures { result ≡ is_privileged r.now }
{
    handler(r) || !r.control.npriv
}

// The right of the accesses of the current mode.
pub fn right(r: &Registers) -> Right
    ensures { result ≡ right_of r.now }
{
    if privileged(r) {
        Right::Privileged
    } else {
        Right::Unprivileged
    }
}

// Whether SP is PSP.
pub fn on_process(r: &Registers) -> bool
    ensures { result ≡ on_process r.now }
{
    r.control.spsel && !handler(r)
}

pub fn stack_pointer(r: &Registers) -> u32
    ensures { result ≡ sp r.now }
{
    if on_process(r) { r.psp } else { r.msp }
}

// A stack pointer keeps no low two bits.
pub fn set_stack_pointer(r: &mut Registers, value: u32)
    ensures { r.new ≡ with_sp r.old value }
{
    if on_process(r) {
        r.psp = value / 4 * 4;
    } else {
        r.msp = value / 4 * 4;
    }
}

// R[n]; PC reads as the address of the instruction and 4.
pub fn register(r: &Registers, n: u8) -> u32
    ensures { result ≡ reg r.now n }
{
    match n {
        0..=12 => r.general[n as usize],
        13 => stack_pointer(r),
        14 => r.lr,
        _ => r.pc.wrapping_add(4),
    }
}

// R[n] = value; PC is not written so.
pub fn set_register(r: &mut Registers, n: u8, value: u32)
    ensures { r.new ≡ with_reg r.old n value }
{
    match n {
        0..=12 => r.general[n as usize] = value,
        13 => set_stack_pointer(r, value),
        14 => r.lr = value,
        _ => {}
    }
}

// On to the next instruction, after one of `size` bytes.
pub fn move_on(r: &mut Registers, size: u32)
    ensures { r.new ≡ moved_on size r.old }
{
    r.pc = r.pc.wrapping_add(size);
}

pub fn branch_to(r: &mut Registers, address: u32)
    ensures { r.new ≡ branch_to r.old address }
{
    r.pc = address / 2 * 2;
}

// A branch that takes T from bit 0 of the address.
pub fn interwork(r: &mut Registers, address: u32)
    ensures { r.new ≡ interwork r.old address }
{
    r.thumb = address % 2 == 1;
    branch_to(r, address);
}
