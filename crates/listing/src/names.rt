//! Names of operations and registers.
use std::fmt;
use thumb::instructions::{Operation, SpecialRegister, Transfer, Unary};
use word::Condition;

/// A register by its number, under the name that objdump gives it.
#[derive(Clone, Copy, Debug, PartialEq, Eq)]
pub struct Register(pub u8);

impl fmt::Display for Register {
    fn fmt<W: fmt::Write>(&self, f: &mut fmt::Formatter<W>) -> fmt::Result {
        match self.0 {
            10 => f.write_str("sl"),
            11 => f.write_str("fp"),
            12 => f.write_str("ip"),
            13 => f.write_str("sp"),
            14 => f.write_str("lr"),
            15 => f.write_str("pc"),
            n => write!(f, "r{n}"),
        }
    }
}

/// A constant as an operand.
#[derive(Clone, Copy, Debug, PartialEq, Eq)]
pub struct Constant(pub u32);

impl fmt::Display for Constant {
    fn fmt<W: fmt::Write>(&self, f: &mut fmt::Formatter<W>) -> fmt::Result {
        write!(f, "#{}", self.0)
    }
}

/// A list of low registers, and one more.
#[derive(Clone, Copy, Debug, PartialEq, Eq)]
pub struct List {
    pub low: u8,
    pub extra: Option<u8>,
}

impl List {
    pub fn low(low: u8) -> Self {
        List { low, extra: None }
    }
}

impl fmt::Display for List {
    fn fmt<W: fmt::Write>(&self, f: &mut fmt::Formatter<W>) -> fmt::Result {
        let low = u32::from(self.low);
        f.write_str("{")?;
        for (i, n) in (0..8u8)
            .filter(|n| word::bit(low, u32::from(*n)))
            .chain(self.extra)
            .enumerate()
        {
            if i > 0 {
                f.write_str(", ")?;
            }
            write!(f, "{}", Register(n))?;
        }
        f.write_str("}")
    }
}

// The names below are objdump's, so they stand here, and not as `Display` with the types in thumb and word.

/// The mnemonic of a data processing instruction.
pub fn operation(op: Operation) -> &'static str {
    match op {
        Operation::And => "ands",
        Operation::Eor => "eors",
        Operation::Lsl => "lsls",
        Operation::Lsr => "lsrs",
        Operation::Asr => "asrs",
        Operation::Adc => "adcs",
        Operation::Sbc => "sbcs",
        Operation::Ror => "rors",
        Operation::Tst => "tst",
        Operation::Rsb => "negs",
        Operation::Cmp => "cmp",
        Operation::Cmn => "cmn",
        Operation::Orr => "orrs",
        Operation::Mul => "muls",
        Operation::Bic => "bics",
        Operation::Mvn => "mvns",
    }
}

/// The mnemonic of an extension or a reversal.
pub fn unary(op: Unary) -> &'static str {
    match op {
        Unary::Sxth => "sxth",
        Unary::Sxtb => "sxtb",
        Unary::Uxth => "uxth",
        Unary::Uxtb => "uxtb",
        Unary::Rev => "rev",
        Unary::Rev16 => "rev16",
        Unary::Revsh => "revsh",
    }
}

/// The mnemonic of a load or a store.
pub fn transfer(op: Transfer) -> &'static str {
    match op {
        Transfer::Str => "str",
        Transfer::Strh => "strh",
        Transfer::Strb => "strb",
        Transfer::Ldrsb => "ldrsb",
        Transfer::Ldr => "ldr",
        Transfer::Ldrh => "ldrh",
        Transfer::Ldrb => "ldrb",
        Transfer::Ldrsh => "ldrsh",
    }
}

/// The suffix of a condition.
pub fn condition(condition: Condition) -> &'static str {
    match condition {
        Condition::Eq => "eq",
        Condition::Ne => "ne",
        Condition::Cs => "cs",
        Condition::Cc => "cc",
        Condition::Mi => "mi",
        Condition::Pl => "pl",
        Condition::Vs => "vs",
        Condition::Vc => "vc",
        Condition::Hi => "hi",
        Condition::Ls => "ls",
        Condition::Ge => "ge",
        Condition::Lt => "lt",
        Condition::Gt => "gt",
        Condition::Le => "le",
    }
}

/// The name of a special register.
pub fn special_register(register: SpecialRegister) -> &'static str {
    match register {
        SpecialRegister::Apsr => "APSR",
        SpecialRegister::Iapsr => "IAPSR",
        SpecialRegister::Eapsr => "EAPSR",
        SpecialRegister::Xpsr => "PSR",
        SpecialRegister::Ipsr => "IPSR",
        SpecialRegister::Epsr => "EPSR",
        SpecialRegister::Iepsr => "IEPSR",
        SpecialRegister::Msp => "MSP",
        SpecialRegister::Psp => "PSP",
        SpecialRegister::Primask => "PRIMASK",
        SpecialRegister::Control => "CONTROL",
    }
}
