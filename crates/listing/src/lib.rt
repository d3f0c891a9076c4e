//! Armv6-M instructions as text, in the unified assembler syntax as objdump prints it.
#![tactic(auto)]

ghost use Rattle.std.specs.Prelude.{◌≡◌, ◌+◌, ◌%◌, ◌^◌};
ghost use Rattle.word.specs.Addresses.{align_to};

mod image;
mod names;

pub use image::{Line, Piece, print_image};
use names::{Constant, List, Register};
use std::fmt;
use thumb::instructions::{Address, Basic, Branch, Instruction, Multiple, Special, System};
use word::align;

/// An instruction at its address, from which branches and literals count.
#[derive(Clone, Copy, Debug, PartialEq, Eq)]
pub struct Listing {
    pub address: u32,
    pub instruction: Instruction,
}

impl fmt::Display for Listing {
    fn fmt<W: fmt::Write>(&self, f: &mut fmt::Formatter<W>) -> fmt::Result {
        let address = self.address;
        match self.instruction {
            Instruction::Basic(i) => basic(i, f),
            Instruction::Data { op, dn, m } => two(
                names::operation(op),
                Register(dn),
                Register(m),
                f,
            ),
            Instruction::Special(i) => special(i, address, f),
            Instruction::Unary { op, d, m } => two(names::unary(op), Register(d), Register(m), f),
            Instruction::Transfer { op, t, address: at } => {
                write!(f, "{} {}, ", names::transfer(op), Register(t))?;
                place(at, address, f)
            }
            Instruction::Multiple(i) => multiple(i, f),
            Instruction::Branch(i) => branch(i, address, f),
            Instruction::System(i) => system(i, f),
        }
    }
}

/// The address that an offset from the PC of an instruction names.
fn target(address: u32, offset: u32) -> u32
    ensures { result ≡ (address + 4 + offset) % 2 ^ 32 }
{
    address.wrapping_add(4).wrapping_add(offset)
}

/// The address that an offset from the aligned PC of an instruction names.
fn literal(address: u32, offset: u32) -> u32
    ensures { result ≡ (align_to ((address + 4) % 2 ^ 32) 4 + offset) % 2 ^ 32 }
{
    align(address.wrapping_add(4), 4).wrapping_add(offset)
}

/// A mnemonic and its operand.
fn one<A: fmt::Display + Copy, W: fmt::Write>(
    name: &str,
    a: A,
    f: &mut fmt::Formatter<W>,
) -> fmt::Result {
    write!(f, "{name} {a}")
}

/// A mnemonic and its two operands.
fn two<A: fmt::Display + Copy, B: fmt::Display + Copy, W: fmt::Write>(
    name: &str,
    a: A,
    b: B,
    f: &mut fmt::Formatter<W>,
) -> fmt::Result {
    write!(f, "{name} {a}, {b}")
}

/// A mnemonic, two registers and the last operand.
fn three<C: fmt::Display + Copy, W: fmt::Write>(
    name: &str,
    d: u8,
    n: u8,
    c: C,
    f: &mut fmt::Formatter<W>,
) -> fmt::Result {
    two(name, Register(d), Register(n), f)?;
    write!(f, ", {c}")
}

fn basic<W: fmt::Write>(i: Basic, f: &mut fmt::Formatter<W>) -> fmt::Result {
    match i {
        Basic::Lsl { d, m, by } => three("lsls", d, m, Constant(by), f),
        Basic::Lsr { d, m, by } => three("lsrs", d, m, Constant(by), f),
        Basic::Asr { d, m, by } => three("asrs", d, m, Constant(by), f),
        Basic::Mov { d, m } => two("movs", Register(d), Register(m), f),
        Basic::AddRegister { d, n, m } => three("adds", d, n, Register(m), f),
        Basic::SubRegister { d, n, m } => three("subs", d, n, Register(m), f),
        Basic::AddSmall { d, n, imm } => three("adds", d, n, Constant(imm), f),
        Basic::SubSmall { d, n, imm } => three("subs", d, n, Constant(imm), f),
        Basic::MovByte { d, imm } => two("movs", Register(d), Constant(imm), f),
        Basic::CmpByte { n, imm } => two("cmp", Register(n), Constant(imm), f),
        Basic::AddByte { dn, imm } => two("adds", Register(dn), Constant(imm), f),
        Basic::SubByte { dn, imm } => two("subs", Register(dn), Constant(imm), f),
    }
}

fn special<W: fmt::Write>(i: Special, address: u32, f: &mut fmt::Formatter<W>) -> fmt::Result {
    match i {
        Special::Add { dn, m } => two("add", Register(dn), Register(m), f),
        Special::Cmp { n, m } => two("cmp", Register(n), Register(m), f),
        Special::Mov { d, m } => two("mov", Register(d), Register(m), f),
        Special::Adr { d, imm } => {
            three("add", d, 15, Constant(imm), f)?;
            write!(f, " @ (adr {}, {:#x})", Register(d), literal(address, imm))
        }
        Special::AddSp { d, imm } => three("add", d, 13, Constant(imm), f),
        Special::RaiseSp { imm } => two("add", Register(13), Constant(imm), f),
        Special::LowerSp { imm } => two("sub", Register(13), Constant(imm), f),
    }
}

/// The place that a load or a store names.
fn place<W: fmt::Write>(at: Address, address: u32, f: &mut fmt::Formatter<W>) -> fmt::Result {
    match at {
        Address::Indexed { n, m } => write!(f, "[{}, {}]", Register(n), Register(m)),
        Address::Offset { n, imm } => write!(f, "[{}, {}]", Register(n), Constant(imm)),
        Address::Literal { imm } => write!(
            f,
            "[pc, {}] @ ({:#x})",
            Constant(imm),
            literal(address, imm)
        ),
    }
}

fn multiple<W: fmt::Write>(i: Multiple, f: &mut fmt::Formatter<W>) -> fmt::Result {
    match i {
        Multiple::Stm { n, list } => write!(f, "stmia {}!, {}", Register(n), List::low(list)),
        Multiple::Ldm { n, list } => {
            // a base that is loaded is not written back
            let back = if word::bit(u32::from(list), u32::from(n)) {
                ""
            } else {
                "!"
            };
            write!(f, "ldmia {}{back}, {}", Register(n), List::low(list))
        }
        Multiple::Push { list, lr } => one(
            "push",
            List {
                low: list,
                extra: lr.then_some(14),
            },
            f,
        ),
        Multiple::Pop { list, pc } => one(
            "pop",
            List {
                low: list,
                extra: pc.then_some(15),
            },
            f,
        ),
    }
}

fn branch<W: fmt::Write>(i: Branch, address: u32, f: &mut fmt::Formatter<W>) -> fmt::Result {
    match i {
        Branch::B { offset } => write!(f, "b.n {:#x}", target(address, offset)),
        Branch::If { condition, offset } => write!(
            f,
            "b{}.n {:#x}",
            names::condition(condition),
            target(address, offset)
        ),
        Branch::Bl { offset } => write!(f, "bl {:#x}", target(address, offset)),
        Branch::Bx { m } => one("bx", Register(m), f),
        Branch::Blx { m } => one("blx", Register(m), f),
    }
}

fn system<W: fmt::Write>(i: System, f: &mut fmt::Formatter<W>) -> fmt::Result {
    match i {
        System::Svc { imm } => one("svc", imm, f),
        System::Bkpt { imm } => write!(f, "bkpt 0x{imm:04x}"),
        System::Udf { imm } => one("udf", Constant(imm), f),
        System::UdfWide { imm } => one("udf.w", Constant(imm), f),
        System::Cps { disable } => one(if disable { "cpsid" } else { "cpsie" }, "i", f),
        System::Hint { number } => hint(number, f),
        System::Dsb { option } => barrier("dsb", option, f),
        System::Dmb { option } => barrier("dmb", option, f),
        System::Isb { option } => barrier("isb", option, f),
        System::Mrs { d, from } => two("mrs", Register(d), names::special_register(from), f),
        System::Msr { to, n } => two("msr", names::special_register(to), Register(n), f),
    }
}

fn hint<W: fmt::Write>(number: u32, f: &mut fmt::Formatter<W>) -> fmt::Result {
    match number {
        0 => f.write_str("nop"),
        1 => f.write_str("yield"),
        2 => f.write_str("wfe"),
        3 => f.write_str("wfi"),
        4 => f.write_str("sev"),
        _ => write!(f, "nop {{{number}}}"),
    }
}

/// A barrier; the options but 15 are reserved, and have no names.
fn barrier<W: fmt::Write>(name: &str, option: u32, f: &mut fmt::Formatter<W>) -> fmt::Result {
    if option == 15 {
        one(name, "sy", f)
    } else {
        one(name, Constant(option), f)
    }
}
