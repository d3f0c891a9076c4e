//! The instructions of Armv6-M, by group, with their operands as the encodings give them.
//!
//! A register is its number: R0 to R12, 13 for SP, 14 for LR, 15 for PC. An offset is in bytes, and modulo 2^32.
ghost use Rattle.std.specs.Prelude.{◌≡◌};
ghost use Rattle.thumb.specs.Operands.{special_register_of};
ghost use Rattle.thumb.specs.Refusals.{refusal_number};

use thiserror::Error;
use word::Condition;

/// An instruction, by group.
#[derive(Clone, Copy, Debug, PartialEq, Eq)]
pub enum Instruction {
    Basic(Basic),
    /// `dn = op(dn, m)` on low registers, with the flags; TST, CMP and CMN set the flags only.
    Data {
        op: Operation,
        dn: u8,
        m: u8,
    },
    Special(Special),
    /// `d = op(m)`, no flags.
    Unary {
        op: Unary,
        d: u8,
        m: u8,
    },
    /// A load or a store of `t`.
    Transfer {
        op: Transfer,
        t: u8,
        address: Address,
    },
    Multiple(Multiple),
    Branch(Branch),
    System(System),
}

/// Shift (immediate), add, subtract, move and compare, on low registers; all set the flags.
// A variant for each row of the diagrams, also where two have the same fields, so that the table names them one to one.
#[derive(Clone, Copy, Debug, PartialEq, Eq)]
pub enum Basic {
    /// By 1 to 31.
    Lsl { d: u8, m: u8, by: u32 },
    /// By 1 to 32.
    Lsr { d: u8, m: u8, by: u32 },
    /// By 1 to 32.
    Asr { d: u8, m: u8, by: u32 },
    /// MOV (register), encoding T2.
    Mov { d: u8, m: u8 },
    AddRegister { d: u8, n: u8, m: u8 },
    SubRegister { d: u8, n: u8, m: u8 },
    /// ADD (immediate), encoding T1: below 8.
    AddSmall { d: u8, n: u8, imm: u32 },
    /// SUB (immediate), encoding T1: below 8.
    SubSmall { d: u8, n: u8, imm: u32 },
    MovByte { d: u8, imm: u32 },
    CmpByte { n: u8, imm: u32 },
    /// ADD (immediate), encoding T2.
    AddByte { dn: u8, imm: u32 },
    /// SUB (immediate), encoding T2.
    SubByte { dn: u8, imm: u32 },
}

/// Data processing on two low registers, in the order of the opcodes.
#[derive(Clone, Copy, Debug, PartialEq, Eq)]
pub enum Operation {
    And,
    Eor,
    Lsl,
    Lsr,
    Asr,
    Adc,
    Sbc,
    Ror,
    Tst,
    Rsb,
    Cmp,
    Cmn,
    Orr,
    Mul,
    Bic,
    Mvn,
}

/// Sums, a comparison and a move of any registers, and sums with SP and PC; only CMP sets the flags.
#[derive(Clone, Copy, Debug, PartialEq, Eq)]
pub enum Special {
    /// ADD (register), encoding T2, and ADD (SP plus register).
    Add { dn: u8, m: u8 },
    /// CMP (register), encoding T2.
    Cmp { n: u8, m: u8 },
    /// MOV (register), encoding T1.
    Mov { d: u8, m: u8 },
    Adr { d: u8, imm: u32 },
    /// ADD (SP plus immediate), encoding T1.
    AddSp { d: u8, imm: u32 },
    /// ADD (SP plus immediate), encoding T2.
    RaiseSp { imm: u32 },
    /// SUB (SP minus immediate).
    LowerSp { imm: u32 },
}

/// Extensions and reversals.
#[derive(Clone, Copy, Debug, PartialEq, Eq)]
pub enum Unary {
    Sxth,
    Sxtb,
    Uxth,
    Uxtb,
    Rev,
    Rev16,
    Revsh,
}

/// Loads and stores of one register, in the order of the opcodes with a register offset.
#[derive(Clone, Copy, Debug, PartialEq, Eq)]
pub enum Transfer {
    Str,
    Strh,
    Strb,
    Ldrsb,
    Ldr,
    Ldrh,
    Ldrb,
    Ldrsh,
}

/// Where a load or a store goes.
#[derive(Clone, Copy, Debug, PartialEq, Eq)]
pub enum Address {
    /// `n + m`
    Indexed { n: u8, m: u8 },
    /// `n + imm`
    Offset { n: u8, imm: u32 },
    /// `Align(PC, 4) + imm`
    Literal { imm: u32 },
}

/// Loads and stores of several registers; bit `i` of a list stands for register `i`.
#[derive(Clone, Copy, Debug, PartialEq, Eq)]
pub enum Multiple {
    Stm { n: u8, list: u8 },
    Ldm { n: u8, list: u8 },
    Push { list: u8, lr: bool },
    Pop { list: u8, pc: bool },
}

/// Branches; an offset counts from the PC, which is the instruction's address plus 4.
#[derive(Clone, Copy, Debug, PartialEq, Eq)]
pub enum Branch {
    B { offset: u32 },
    If { condition: Condition, offset: u32 },
    Bl { offset: u32 },
    Bx { m: u8 },
    Blx { m: u8 },
}

/// Calls to the system, hints, barriers and special registers.
#[derive(Clone, Copy, Debug, PartialEq, Eq)]
pub enum System {
    Svc { imm: u32 },
    Bkpt { imm: u32 },
    /// UDF, encoding T1.
    Udf { imm: u32 },
    /// UDF, encoding T2.
    UdfWide { imm: u32 },
    /// CPSID, or else CPSIE.
    Cps { disable: bool },
    /// 0 NOP, 1 YIELD, 2 WFE, 3 WFI, 4 SEV, and unallocated hints up to 15, which have no other names.
    Hint { number: u32 },
    Dsb { option: u32 },
    Dmb { option: u32 },
    Isb { option: u32 },
    Mrs { d: u8, from: SpecialRegister },
    Msr { to: SpecialRegister, n: u8 },
}

/// What MRS reads and MSR writes.
#[derive(Clone, Copy, Debug, PartialEq, Eq)]
pub enum SpecialRegister {
    Apsr,
    Iapsr,
    Eapsr,
    Xpsr,
    Ipsr,
    Epsr,
    Iepsr,
    Msp,
    Psp,
    Primask,
    Control,
}

/// Of a SYSm value; the other values are reserved.
impl TryFrom<u32> for SpecialRegister {
    type Error = Refusal;

    ghost try_from_gives = { λ sysm r. r ≡ special_register_of sysm };

    fn try_from(sysm: u32) -> Result<SpecialRegister, Refusal> {
        match sysm {
            0 => Ok(SpecialRegister::Apsr),
            1 => Ok(SpecialRegister::Iapsr),
            2 => Ok(SpecialRegister::Eapsr),
            3 => Ok(SpecialRegister::Xpsr),
            5 => Ok(SpecialRegister::Ipsr),
            6 => Ok(SpecialRegister::Epsr),
            7 => Ok(SpecialRegister::Iepsr),
            8 => Ok(SpecialRegister::Msp),
            9 => Ok(SpecialRegister::Psp),
            16 => Ok(SpecialRegister::Primask),
            20 => Ok(SpecialRegister::Control),
            _ => Err(Refusal::Unpredictable),
        }
    }
}

/// Why an encoding is no instruction.
#[derive(Clone, Copy, Debug, PartialEq, Eq, Error)]
pub enum Refusal {
    #[error("undefined")]
    Undefined = 6,
    #[error("unpredictable")]
    Unpredictable = 7,
}

impl Refusal {
    /// The number that a fault bears for it.
    pub fn number(self) -> u32
        ensures { result ≡ refusal_number self }
    {
        self as u32
    }
}
