//! The 16-bit encodings.
// Each `match` is a table of the manual: an arm for a row says more than a conversion of the opcode's number would.
ghost use Rattle.std.specs.Prelude.{◌≡◌, ◌+◌, ◌*◌, ◌/◌, ◌%◌, ◌^◌, ◌<◌, ◌≤◌, Ok};
ghost use Rattle.thumb.specs.Decoded.{decoded_narrow};
ghost use Rattle.thumb.specs.Operands.{shift_amount};

use super::instructions::{
    Address, Basic, Branch, Instruction, Multiple, Operation, Refusal, Special, System, Transfer,
    Unary,
};
use word::{Condition, field, sign_extend};

/// A 16-bit encoding, told apart by its top six bits.
pub(crate) fn narrow(x: u32) -> Result<Instruction, Refusal>
    requires { x / 2 ^ 11 < 29 }
    ensures { result ≡ decoded_narrow x }
{
    match x >> 10 {
        0b000000..=0b001111 => Ok(Instruction::Basic(basic(x))),
        0b010000 => Ok(data(x)),
        0b010001 => special(x),
        0b010010..=0b010011 => Ok(literal(x)),
        0b010100..=0b010111 => Ok(indexed(x)),
        0b011000..=0b100111 => Ok(offset(x)),
        0b101000..=0b101011 => Ok(Instruction::Special(address(x))),
        0b101100..=0b101111 => miscellaneous(x),
        0b110000..=0b110011 => multiple(x),
        0b110100..=0b110111 => Ok(conditional(x)),
        _ => Ok(Instruction::Branch(branch(x))),
    }
}

/// A field of at most eight bits: a register or a list of registers.
fn byte(x: u32, from: u32, count: u32) -> u8
    requires { count ≤ 8 }
    ensures { result ≡ x / 2 ^ from % 2 ^ count }
{
    field(x, from, count) as u8
}

/// The low register whose number begins at bit `from`.
fn low(x: u32, from: u32) -> u8
    ensures { result ≡ x / 2 ^ from % 2 ^ 3 }
{
    byte(x, from, 3)
}

/// The register of which bit 7 is the highest bit and bits 2 to 0 are the others.
fn split(x: u32) -> u8
    ensures { result ≡ x / 2 ^ 7 % 2 * 2 ^ 3 + x / 2 ^ 0 % 2 ^ 3 }
{
    byte(x, 7, 1) * 8 + low(x, 0)
}

/// DecodeImmShift for LSR and ASR.
fn shift_amount(imm5: u32) -> u32
    ensures { result ≡ shift_amount imm5 }
{
    if imm5 == 0 { 32 } else { imm5 }
}

/// Shift (immediate), add, subtract, move and compare: 00xxxx.
fn basic(x: u32) -> Basic
    requires { x / 2 ^ 14 ≡ 0 }
    ensures { Ok (Instruction.Basic result) ≡ decoded_narrow x }
{
    let d = low(x, 0);
    let m = low(x, 3);
    let by = field(x, 6, 5);
    let dn = low(x, 8);
    let imm = field(x, 0, 8);
    match x >> 11 {
        0b00000 => if by == 0 {
            Basic::Mov { d, m }
        } else {
            Basic::Lsl { d, m, by }
        },
        0b00001 => Basic::Lsr {
            d,
            m,
            by: shift_amount(by),
        },
        0b00010 => Basic::Asr {
            d,
            m,
            by: shift_amount(by),
        },
        0b00011 => add_subtract(x),
        0b00100 => Basic::MovByte { d: dn, imm },
        0b00101 => Basic::CmpByte { n: dn, imm },
        0b00110 => Basic::AddByte { dn, imm },
        _ => Basic::SubByte { dn, imm },
    }
}

/// Sums and differences of three operands: 00011.
fn add_subtract(x: u32) -> Basic
    requires { x / 2 ^ 11 ≡ 3 }
    ensures { Ok (Instruction.Basic result) ≡ decoded_narrow x }
{
    let d = low(x, 0);
    let n = low(x, 3);
    let m = low(x, 6);
    let imm = field(x, 6, 3);
    match x >> 9 {
        0b0001100 => Basic::AddRegister { d, n, m },
        0b0001101 => Basic::SubRegister { d, n, m },
        0b0001110 => Basic::AddSmall { d, n, imm },
        _ => Basic::SubSmall { d, n, imm },
    }
}

/// Data processing: 010000.
fn data(x: u32) -> Instruction
    requires { x / 2 ^ 10 ≡ 16 }
    ensures { Ok result ≡ decoded_narrow x }
{
    let op = match x >> 6 {
        0b010000_0000 => Operation::And,
        0b010000_0001 => Operation::Eor,
        0b010000_0010 => Operation::Lsl,
        0b010000_0011 => Operation::Lsr,
        0b010000_0100 => Operation::Asr,
        0b010000_0101 => Operation::Adc,
        0b010000_0110 => Operation::Sbc,
        0b010000_0111 => Operation::Ror,
        0b010000_1000 => Operation::Tst,
        0b010000_1001 => Operation::Rsb,
        0b010000_1010 => Operation::Cmp,
        0b010000_1011 => Operation::Cmn,
        0b010000_1100 => Operation::Orr,
        0b010000_1101 => Operation::Mul,
        0b010000_1110 => Operation::Bic,
        _ => Operation::Mvn,
    };
    Instruction::Data {
        op,
        dn: low(x, 0),
        m: low(x, 3),
    }
}

/// Special data instructions, and branch and exchange: 010001.
fn special(x: u32) -> Result<Instruction, Refusal>
    requires { x / 2 ^ 10 ≡ 17 }
    ensures { result ≡ decoded_narrow x }
{
    let n = split(x);
    let m = byte(x, 3, 4);
    match x >> 8 {
        0b010001_00 => if n == 15 && m == 15 {
            Err(Refusal::Unpredictable)
        } else {
            Ok(Instruction::Special(Special::Add { dn: n, m }))
        },
        0b010001_01 => if n < 8 && m < 8 || n == 15 || m == 15 {
            Err(Refusal::Unpredictable)
        } else {
            Ok(Instruction::Special(Special::Cmp { n, m }))
        },
        0b010001_10 => Ok(Instruction::Special(Special::Mov { d: n, m })),
        _ => exchange(x),
    }
}

/// Branch and exchange: 01000111.
fn exchange(x: u32) -> Result<Instruction, Refusal>
    requires { x / 2 ^ 8 ≡ 71 }
    ensures { result ≡ decoded_narrow x }
{
    let m = byte(x, 3, 4);
    let should_be_zero = field(x, 0, 3);
    match x >> 7 {
        _ if should_be_zero != 0 || m == 15 => Err(Refusal::Unpredictable),
        0b010001_110 => Ok(Instruction::Branch(Branch::Bx { m })),
        _ => Ok(Instruction::Branch(Branch::Blx { m })),
    }
}

/// LDR (literal): 01001x.
fn literal(x: u32) -> Instruction
    requires { x / 2 ^ 11 ≡ 9 }
    ensures { Ok result ≡ decoded_narrow x }
{
    Instruction::Transfer {
        op: Transfer::Ldr,
        t: low(x, 8),
        address: Address::Literal {
            imm: field(x, 0, 8) * 4,
        },
    }
}

/// Loads and stores with a register offset: 0101xx.
fn indexed(x: u32) -> Instruction
    requires { x / 2 ^ 12 ≡ 5 }
    ensures { Ok result ≡ decoded_narrow x }
{
    let op = match x >> 9 {
        0b0101_000 => Transfer::Str,
        0b0101_001 => Transfer::Strh,
        0b0101_010 => Transfer::Strb,
        0b0101_011 => Transfer::Ldrsb,
        0b0101_100 => Transfer::Ldr,
        0b0101_101 => Transfer::Ldrh,
        0b0101_110 => Transfer::Ldrb,
        _ => Transfer::Ldrsh,
    };
    Instruction::Transfer {
        op,
        t: low(x, 0),
        address: Address::Indexed {
            n: low(x, 3),
            m: low(x, 6),
        },
    }
}

/// Loads and stores with an immediate offset: 011xxx and 100xxx.
fn offset(x: u32) -> Instruction
    requires { (12 ≤ x / 2 ^ 11) × (x / 2 ^ 11 < 20) }
    ensures { Ok result ≡ decoded_narrow x }
{
    match x >> 11 {
        0b01100 => beside(x, Transfer::Str, 4),
        0b01101 => beside(x, Transfer::Ldr, 4),
        0b01110 => beside(x, Transfer::Strb, 1),
        0b01111 => beside(x, Transfer::Ldrb, 1),
        0b10000 => beside(x, Transfer::Strh, 2),
        0b10001 => beside(x, Transfer::Ldrh, 2),
        0b10010 => beside_sp(x, Transfer::Str),
        _ => beside_sp(x, Transfer::Ldr),
    }
}

/// A transfer at a multiple of `scale` above a low register.
// Called with constants: one transfer behind a match of operation and scale took a decoder an eighth more machine instructions.
fn beside(x: u32, op: Transfer, scale: u32) -> Instruction
    requires { scale ≤ 4 }
    ensures { result ≡ Instruction.Transfer op (x / 2 ^ 0 % 2 ^ 3) (Address.Offset (x / 2 ^ 3 % 2 ^ 3) (x / 2 ^ 6 % 2 ^ 5 * scale)) }
{
    Instruction::Transfer {
        op,
        t: low(x, 0),
        address: Address::Offset {
            n: low(x, 3),
            imm: field(x, 6, 5) * scale,
        },
    }
}

/// A transfer at a multiple of 4 above SP.
fn beside_sp(x: u32, op: Transfer) -> Instruction
    ensures { result ≡ Instruction.Transfer op (x / 2 ^ 8 % 2 ^ 3) (Address.Offset 13 (x / 2 ^ 0 % 2 ^ 8 * 4)) }
{
    Instruction::Transfer {
        op,
        t: low(x, 8),
        address: Address::Offset {
            n: 13,
            imm: field(x, 0, 8) * 4,
        },
    }
}

/// Sums with PC and SP: 1010xx.
fn address(x: u32) -> Special
    requires { x / 2 ^ 12 ≡ 10 }
    ensures { Ok (Instruction.Special result) ≡ decoded_narrow x }
{
    let d = low(x, 8);
    let imm = field(x, 0, 8) * 4;
    match x >> 11 {
        0b10100 => Special::Adr { d, imm },
        _ => Special::AddSp { d, imm },
    }
}

/// Miscellaneous 16-bit instructions: 1011xx.
fn miscellaneous(x: u32) -> Result<Instruction, Refusal>
    requires { x / 2 ^ 12 ≡ 11 }
    ensures { result ≡ decoded_narrow x }
{
    match x >> 8 {
        0b1011_0000 => Ok(Instruction::Special(adjust(x))),
        0b1011_0010 | 0b1011_1010 => convert(x),
        0b1011_0100 | 0b1011_0101 => push(x),
        0b1011_0110 => change_state(x),
        0b1011_1100 | 0b1011_1101 => pop(x),
        0b1011_1110 => Ok(Instruction::System(System::Bkpt {
            imm: field(x, 0, 8),
        })),
        0b1011_1111 => hint(x),
        _ => Err(Refusal::Undefined),
    }
}

/// SP moved by a constant: 10110000.
fn adjust(x: u32) -> Special
    requires { x / 2 ^ 8 ≡ 176 }
    ensures { Ok (Instruction.Special result) ≡ decoded_narrow x }
{
    let imm = field(x, 0, 7) * 4;
    match x >> 7 {
        0b1011_00000 => Special::RaiseSp { imm },
        _ => Special::LowerSp { imm },
    }
}

/// Extensions and reversals: 1011x010.
fn convert(x: u32) -> Result<Instruction, Refusal>
    requires { (x / 2 ^ 12 ≡ 11) × (x / 2 ^ 8 % 2 ^ 3 ≡ 2) }
    ensures { result ≡ decoded_narrow x }
{
    let op = match x >> 6 {
        0b1011_001000 => Unary::Sxth,
        0b1011_001001 => Unary::Sxtb,
        0b1011_001010 => Unary::Uxth,
        0b1011_001011 => Unary::Uxtb,
        0b1011_101000 => Unary::Rev,
        0b1011_101001 => Unary::Rev16,
        0b1011_101010 => return Err(Refusal::Undefined),
        _ => Unary::Revsh,
    };
    Ok(Instruction::Unary {
        op,
        d: low(x, 0),
        m: low(x, 3),
    })
}

// PUSH and POP apart: one decoder for both took fifteen machine instructions more for each of them.

/// PUSH: 1011010.
fn push(x: u32) -> Result<Instruction, Refusal>
    requires { x / 2 ^ 9 ≡ 90 }
    ensures { result ≡ decoded_narrow x }
{
    let list = byte(x, 0, 8);
    let lr = field(x, 8, 1) == 1;
    if list == 0 && !lr {
        Err(Refusal::Unpredictable)
    } else {
        Ok(Instruction::Multiple(Multiple::Push { list, lr }))
    }
}

/// POP: 1011110.
fn pop(x: u32) -> Result<Instruction, Refusal>
    requires { x / 2 ^ 9 ≡ 94 }
    ensures { result ≡ decoded_narrow x }
{
    let list = byte(x, 0, 8);
    let pc = field(x, 8, 1) == 1;
    if list == 0 && !pc {
        Err(Refusal::Unpredictable)
    } else {
        Ok(Instruction::Multiple(Multiple::Pop { list, pc }))
    }
}

/// CPS: 10110110.
fn change_state(x: u32) -> Result<Instruction, Refusal>
    requires { x / 2 ^ 8 ≡ 182 }
    ensures { result ≡ decoded_narrow x }
{
    let disable = field(x, 4, 1) == 1;
    if x >> 5 != 0b1011_0110_011 {
        Err(Refusal::Undefined)
    } else if field(x, 0, 4) != 0b0010 {
        Err(Refusal::Unpredictable)
    } else {
        Ok(Instruction::System(System::Cps { disable }))
    }
}

/// Hints: 10111111.
fn hint(x: u32) -> Result<Instruction, Refusal>
    requires { x / 2 ^ 8 ≡ 191 }
    ensures { result ≡ decoded_narrow x }
{
    let number = field(x, 4, 4);
    if field(x, 0, 4) == 0 {
        Ok(Instruction::System(System::Hint { number }))
    } else {
        Err(Refusal::Undefined)
    }
}

/// Store and load multiple registers: 1100xx.
fn multiple(x: u32) -> Result<Instruction, Refusal>
    requires { x / 2 ^ 12 ≡ 12 }
    ensures { result ≡ decoded_narrow x }
{
    let n = low(x, 8);
    let list = byte(x, 0, 8);
    match x >> 11 {
        _ if list == 0 => Err(Refusal::Unpredictable),
        0b11000 => Ok(Instruction::Multiple(Multiple::Stm { n, list })),
        _ => Ok(Instruction::Multiple(Multiple::Ldm { n, list })),
    }
}

/// Conditional branch, and Supervisor Call: 1101xx.
fn conditional(x: u32) -> Instruction
    requires { x / 2 ^ 12 ≡ 13 }
    ensures { Ok result ≡ decoded_narrow x }
{
    let imm = field(x, 0, 8);
    match Condition::from_number(field(x, 8, 4)) {
        Some(condition) => Instruction::Branch(Branch::If {
            condition,
            offset: sign_extend(imm * 2, 9),
        }),
        None if x >> 8 == 0b1101_1110 => Instruction::System(System::Udf { imm }),
        None => Instruction::System(System::Svc { imm }),
    }
}

/// Unconditional branch: 11100x.
fn branch(x: u32) -> Branch
    requires { x / 2 ^ 11 ≡ 28 }
    ensures { Ok (Instruction.Branch result) ≡ decoded_narrow x }
{
    Branch::B {
        offset: sign_extend(field(x, 0, 11) * 2, 12),
    }
}
