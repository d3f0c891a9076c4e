// A case: one instruction with the core and the data before and after it.
use crate::hexadecimal::number;
use bus::Refusal;
use std::num::TryFromIntError;
use thiserror::Error;

// What a line says of the core and the data, in the order of its numbers.
#[derive(Clone, Copy, Debug, Default, PartialEq, Eq)]
pub struct Row {
    pub general: [u32; 13],
    pub sp: u32,
    pub lr: u32,
    pub pc: u32,
    // N is bit 3
    pub nzcv: u32,
    pub primask: u32,
    pub data: [u32; 12],
}

#[derive(Clone, Copy, Debug, PartialEq, Eq)]
pub struct Case {
    // the halfwords at PC and PC + 2
    pub first: u16,
    pub second: u16,
    // where the data lies
    pub base: u32,
    pub before: Row,
    pub after: Row,
}

// Why a line is no case.
#[derive(Clone, Copy, Debug, PartialEq, Eq, Error)]
pub enum Mistake {
    #[error("too few fields")]
    TooShort,
    #[error("too many fields")]
    TooLong,
    #[error("a field is no hexadecimal number of 32 bits")]
    NotANumber,
    // a halfword, a flag nibble or a PRIMASK that does not fit
    #[error("a field is too large")]
    TooLarge,
    // the core or the memory cannot be as the line says
    #[error("no core or memory can be so")]
    Refused,
}

impl From<TryFromIntError> for Mistake {
    fn from(_: TryFromIntError) -> Mistake {
        Mistake::TooLarge
    }
}

impl From<Refusal> for Mistake {
    fn from(_: Refusal) -> Mistake {
        Mistake::Refused
    }
}

// All numbers of a line in their order: two halfwords, the base, the row before the step, and the row after it, where
// `-` stands for the number before. One loop calls `number` at one place, so that the compiler puts it inline.
fn numbers(line: &str) -> Result<[u32; 63], Mistake> {
    let mut fields = line.split(' ');
    let mut numbers = [0; 63];
    for index in 0..63usize {
        let field = fields.next().ok_or(Mistake::TooShort)?;
        numbers[index] = match field {
            "-" if index >= 33 => numbers[index - 30],
            field => number(field)?,
        };
    }
    if fields.next().is_some() {
        return Err(Mistake::TooLong);
    }
    Ok(numbers)
}

impl Row {
    // From its numbers in the order of a line.
    fn from_numbers(numbers: &[u32; 30]) -> Row {
        let (general, _) = numbers.as_chunks();
        let (others, _) = numbers[13..].as_chunks::<5>();
        let (data, _) = numbers[18..].as_chunks();
        let [sp, lr, pc, nzcv, primask] = others[0];
        Row {
            general: general[0],
            sp,
            lr,
            pc,
            nzcv,
            primask,
            data: data[0],
        }
    }
}

impl Case {
    pub fn parse(line: &str) -> Result<Case, Mistake> {
        let numbers = numbers(line)?;
        let [first, second, base, ..] = numbers;
        let (rows, _) = numbers[3..].as_chunks();
        let before = Row::from_numbers(&rows[0]);
        let after = Row::from_numbers(&rows[1]);
        if before.nzcv > 15 || before.primask > 1 {
            return Err(Mistake::TooLarge);
        }
        Ok(Case {
            first: first.try_into()?,
            second: second.try_into()?,
            base,
            before,
            after,
        })
    }
}
