// One step of a case.
use crate::case::{Case, Mistake, Row};
use arch::{Answer, Registers};
use bus::Refusal;
use cpu::Core;
use parts::{Limit, Split, Strip};
use word::Flags;

// how many bytes of data, and of the two words that an instruction lies in
const DATA_SIZE: usize = 48;

const CODE_SIZE: usize = 8;

// What a step came to, beside what the line says.
#[derive(Clone, Copy, Debug, PartialEq, Eq)]
pub struct Outcome {
    pub answer: Answer,
    pub before: Registers,
    pub after: Registers,
    pub expected: Row,
    pub found: Row,
}

// Four bits as flags, and back: apart from exec's, so that a wrong bit there would differ here.
fn flags(nzcv: u32) -> Flags {
    Flags {
        n: word::bit(nzcv, 3),
        z: word::bit(nzcv, 2),
        c: word::bit(nzcv, 1),
        v: word::bit(nzcv, 0),
    }
}

fn nibble(flags: Flags) -> u32 {
    u32::from(flags.n) * 8 + u32::from(flags.z) * 4 + u32::from(flags.c) * 2 + u32::from(flags.v)
}

// Privileged Thread mode on the main stack, T set, nothing pending or active.
fn registers(row: &Row) -> Registers {
    Registers {
        general: row.general,
        lr: row.lr,
        msp: row.sp,
        pc: row.pc,
        flags: flags(row.nzcv),
        thumb: true,
        primask: row.primask == 1,
        ..Registers::default()
    }
}

// What the registers and the data are after a step.
fn row(r: &Registers, data: [u32; 12]) -> Row {
    Row {
        general: r.general,
        sp: r.msp,
        lr: r.lr,
        pc: r.pc,
        nzcv: nibble(r.flags),
        primask: u32::from(r.primask),
        data,
    }
}

// The two words that the instruction lies in, with zeros beside it.
fn code(case: &Case) -> [u8; CODE_SIZE] {
    let [a, b] = case.first.to_le_bytes();
    let [c, d] = case.second.to_le_bytes();
    if case.before.pc % 4 == 0 {
        [a, b, c, d, 0, 0, 0, 0]
    } else {
        [0, 0, a, b, c, d, 0, 0]
    }
}

// The data can be written, the instruction cannot; they lie apart.
fn step(case: &Case, core: &mut Core, data: &mut [u8]) -> Result<Answer, Refusal> {
    let mut code = code(case);
    let at = case.before.pc / 4 * 4;
    let limit = Limit::new(at.max(case.base))?;
    let data = Strip::new(data, case.base, 0)?;
    let code = Strip::new(&mut code, at, CODE_SIZE as u32)?;
    // two calls: of a pair that either branch fills, what the two strips own is not proved where they join
    if u64::from(case.base) + DATA_SIZE as u64 <= u64::from(at) {
        let mut memory = Split::new(limit, data, code);
        return core.step(&mut memory);
    }
    if u64::from(at) + CODE_SIZE as u64 <= u64::from(case.base) {
        let mut memory = Split::new(limit, code, data);
        return core.step(&mut memory);
    }
    Err(Refusal::BadSetting)
}

pub fn attempt(line: &str) -> Result<Outcome, Mistake> {
    let case = Case::parse(line)?;
    let before = registers(&case.before);
    let mut core = Core::with_registers(before)?;
    let mut data = case.before.data.map(|word| word.to_le_bytes());
    let answer = step(&case, &mut core, data.as_flattened_mut())?;
    let after = *core.registers();
    Ok(Outcome {
        answer,
        before,
        after,
        expected: case.after,
        found: row(&after, data.map(|bytes| u32::from_le_bytes(bytes))),
    })
}
