//! Reads single instructions from its input, each with what an emulator that is not ours made of it, makes one step of
//! each, and prints how many of each form agree and what differs. Anything that differs ends it with an error.
#![tactic(auto)]

mod case;
mod comparison;
mod hexadecimal;
mod report;
mod trial;

use crate::comparison::compare;
use crate::report::Report;
use crate::trial::attempt;
use anyhow::anyhow;
use std::io;
use std::io::Read;

fn play(rt: &HostRuntime, report: &mut Report, line: &str) -> io::Result<()> {
    match attempt(line) {
        Ok(outcome) => compare(rt, report, &outcome),
        Err(mistake) => report.mistake(rt, mistake),
    }
}

// A line `# NAME` names the form of the cases below it.
fn play_all<'a>(
    rt: &HostRuntime,
    report: &mut Report,
    text: &'a str,
    unnamed: &'a str,
) -> io::Result<()> {
    let mut form = unnamed;
    for line in text.lines() {
        report.begin_line();
        match line.strip_prefix("# ") {
            Some(name) => {
                report.end_form(rt, form)?;
                form = name;
            }
            None => play(rt, report, line)?,
        }
    }
    report.end_form(rt, form)
}

fn run(rt: &HostRuntime) -> anyhow::Result<()> {
    let mut text = String::new(rt.alloc());
    rt.stdin().read_to_string(&mut text)?;
    let mut report = Report::default();
    play_all(rt, &mut report, text.as_str(), "unnamed")?;
    report.end(rt)?;
    if !report.is_clean() {
        return Err(anyhow!("not all cases agree"));
    }
    Ok(())
}

fn main(rt: HostRuntime) -> anyhow::Result<()> {
    run(&rt)
}
