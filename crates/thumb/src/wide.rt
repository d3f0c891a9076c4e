//! The 32-bit encodings, as one number: the first halfword stands above the second.
ghost use Rattle.std.specs.Prelude.{◌≡◌, ◌/◌, ◌%◌, ◌^◌, Ok};
ghost use Rattle.thumb.specs.Decoded.{IsControl, decoded_wide};

use super::instructions::{Branch, Instruction, Refusal, SpecialRegister, System};
use word::{field, sign_extend};

/// A 32-bit encoding, told apart by the bits that Branch and miscellaneous control has fixed.
pub(crate) fn wide(x: u32) -> Result<Instruction, Refusal>
    ensures { result ≡ decoded_wide x }
{
    if x >> 27 != 0b11110 {
        return Err(Refusal::Undefined);
    }
    match field(x, 12, 4) {
        0b1000 | 0b1010 => control(x),
        0b1101 | 0b1111 => Ok(Instruction::Branch(link(x))),
        _ => Err(Refusal::Undefined),
    }
}

/// BL.
fn link(x: u32) -> Branch
    requires { (x / 2 ^ 27 ≡ 30) × ((x / 2 ^ 14 % 2 ^ 2 ≡ 3) × (x / 2 ^ 12 % 2 ^ 1 ≡ 1)) }
    ensures { Ok (Instruction.Branch result) ≡ decoded_wide x }
{
    let s = field(x, 26, 1);
    let i1 = u32::from(field(x, 13, 1) == s);
    let i2 = u32::from(field(x, 11, 1) == s);
    let imm = (((s * 2 + i1) * 2 + i2) * 1024 + field(x, 16, 10)) * 2048 + field(x, 0, 11);
    Branch::Bl {
        offset: sign_extend(imm * 2, 25),
    }
}

/// Moves to and from special registers, barriers and UDF.
fn control(x: u32) -> Result<Instruction, Refusal>
    requires { IsControl x 27 30 }
    ensures { result ≡ decoded_wide x }
{
    match x >> 21 {
        0b11110_011100 => move_to_special(x),
        0b11110_011101 => barrier(x),
        0b11110_011111 => move_from_special(x),
        0b11110_111111 => undefined_for_good(x),
        _ => Err(Refusal::Undefined),
    }
}

// MSR and MRS each test the fields of their own diagram; what they share is the conversion.

/// MSR.
fn move_to_special(x: u32) -> Result<Instruction, Refusal>
    requires { IsControl x 21 1948 }
    ensures { result ≡ decoded_wide x }
{
    let n = field(x, 16, 4) as u8;
    let proper = field(x, 20, 1) == 0 && field(x, 13, 1) == 0 && field(x, 8, 4) == 0b1000;
    if !proper || n == 13 || n == 15 {
        return Err(Refusal::Unpredictable);
    }
    let to = SpecialRegister::try_from(field(x, 0, 8))?;
    Ok(Instruction::System(System::Msr { to, n }))
}

/// MRS.
fn move_from_special(x: u32) -> Result<Instruction, Refusal>
    requires { IsControl x 21 1951 }
    ensures { result ≡ decoded_wide x }
{
    let d = field(x, 8, 4) as u8;
    let proper = field(x, 16, 5) == 0b01111 && field(x, 13, 1) == 0;
    if !proper || d == 13 || d == 15 {
        return Err(Refusal::Unpredictable);
    }
    let from = SpecialRegister::try_from(field(x, 0, 8))?;
    Ok(Instruction::System(System::Mrs { d, from }))
}

/// DSB, DMB and ISB.
fn barrier(x: u32) -> Result<Instruction, Refusal>
    requires { IsControl x 21 1949 }
    ensures { result ≡ decoded_wide x }
{
    let option = field(x, 0, 4);
    let proper = field(x, 16, 4) == 0b1111 && field(x, 13, 1) == 0 && field(x, 8, 4) == 0b1111;
    if x >> 20 != 0b11110_0111011 {
        return Err(Refusal::Undefined);
    }
    let barrier = match field(x, 4, 4) {
        0b0100 => System::Dsb { option },
        0b0101 => System::Dmb { option },
        0b0110 => System::Isb { option },
        _ => return Err(Refusal::Undefined),
    };
    if proper {
        Ok(Instruction::System(barrier))
    } else {
        Err(Refusal::Unpredictable)
    }
}

/// UDF, encoding T2.
fn undefined_for_good(x: u32) -> Result<Instruction, Refusal>
    requires { IsControl x 21 1983 }
    ensures { result ≡ decoded_wide x }
{
    let imm = field(x, 16, 4) * 4096 + field(x, 0, 12);
    if x >> 20 == 0b11110_1111111 && field(x, 13, 1) == 1 {
        Ok(Instruction::System(System::UdfWide { imm }))
    } else {
        Err(Refusal::Undefined)
    }
}
