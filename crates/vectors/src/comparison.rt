// Whether a step agrees with what the emulator made of it.
use crate::case::Row;
use crate::report::Report;
use crate::trial::Outcome;
use arch::{Answer, Registers};
use std::io;

const GENERAL: [&str; 13] = [
    "R0", "R1", "R2", "R3", "R4", "R5", "R6", "R7", "R8", "R9", "R10", "R11", "R12",
];

const DATA: [&str; 12] = [
    "W0", "W1", "W2", "W3", "W4", "W5", "W6", "W7", "W8", "W9", "W10", "W11",
];

pub fn compare(rt: &HostRuntime, report: &mut Report, outcome: &Outcome) -> io::Result<()> {
    let differences = report.differences();
    compare_rows(rt, report, &outcome.expected, &outcome.found)?;
    report.hold(rt, "answer", Answer::Ran.number(), outcome.answer.number())?;
    compare_rest(rt, report, &outcome.before, &outcome.after)?;
    report.count(report.differences() == differences);
    Ok(())
}

fn compare_words(
    rt: &HostRuntime,
    report: &mut Report,
    names: &[&str],
    expected: &[u32],
    found: &[u32],
) -> io::Result<()> {
    for ((name, expected), found) in names.iter().zip(expected).zip(found) {
        report.hold(rt, name, *expected, *found)?;
    }
    Ok(())
}

fn compare_rows(
    rt: &HostRuntime,
    report: &mut Report,
    expected: &Row,
    found: &Row,
) -> io::Result<()> {
    compare_words(rt, report, &GENERAL, &expected.general, &found.general)?;
    report.hold(rt, "SP", expected.sp, found.sp)?;
    report.hold(rt, "LR", expected.lr, found.lr)?;
    report.hold(rt, "PC", expected.pc, found.pc)?;
    report.hold(rt, "NZCV", expected.nzcv, found.nzcv)?;
    report.hold(rt, "PRIMASK", expected.primask, found.primask)?;
    compare_words(rt, report, &DATA, &expected.data, &found.data)
}

// What has to stay.
fn compare_rest(
    rt: &HostRuntime,
    report: &mut Report,
    before: &Registers,
    after: &Registers,
) -> io::Result<()> {
    let old = before.exceptions;
    let new = after.exceptions;
    report.hold(rt, "PSP", before.psp, after.psp)?;
    report.hold(rt, "T", before.thumb, after.thumb)?;
    report.hold(rt, "nPRIV", before.control.npriv, after.control.npriv)?;
    report.hold(rt, "SPSEL", before.control.spsel, after.control.spsel)?;
    report.hold(rt, "IPSR", before.current, after.current)?;
    report.hold(rt, "pending", old.pending, new.pending)?;
    report.hold(rt, "active", old.active, new.active)?;
    report.hold(rt, "armed", old.armed, new.armed)?;
    report.hold(rt, "ranked", ranked(&old.ranks), ranked(&new.ranks))?;
    report.hold(rt, "locked", before.locked, after.locked)
}

// How many exceptions have a rank above 0.
fn ranked(ranks: &[u8]) -> u64 {
    ranks.iter().filter(|rank| **rank != 0).count() as u64
}
