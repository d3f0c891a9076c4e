//! `disassemble [FILE [BASE]]` prints a raw Thumb image that begins at BASE, 0 unless it is given in hexadecimal:
//! a line for each encoding, with its address, its halfwords, and its text or why it is refused.
//! Without FILE it prints a heating schedule, which stands at 0x1000.
#![tactic(auto)]

mod schedule;

use listing::print_image;
use schedule::SCHEDULE;
use std::{env, fs};

const SCHEDULE_BASE: u32 = 0x1000;

/// A hexadecimal address, with or without 0x before it.
fn address(text: &str) -> anyhow::Result<u32> {
    let digits = text.strip_prefix("0x").unwrap_or(text);
    Ok(u32::from_str_radix(digits, 16)?)
}

fn run(rt: &HostRuntime) -> anyhow::Result<()> {
    let mut args = env::args(rt)?.skip(1);
    let Some(file) = args.next() else {
        print_image(rt, &SCHEDULE, SCHEDULE_BASE)?;
        return Ok(());
    };
    let base = match args.next() {
        Some(text) => address(text.as_str())?,
        None => 0,
    };
    let image = fs::read(rt, file.as_str())?;
    print_image(rt, image.as_slice(), base)?;
    Ok(())
}

fn main(rt: HostRuntime) -> anyhow::Result<()> {
    run(&rt)
}
