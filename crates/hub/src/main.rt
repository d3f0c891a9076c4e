// A cellar hub's memory: builds it, plays a script of accesses on it, and reports.
#![tactic(auto)]

mod error;

use crate::error::HubError;
use bus::{Bus, Right, Width};
use memory::{ERASED, FLASH_BASE, FLASH_SIZE, Trouble};
use parts::Strip;
use script::PanelLines;
use std::process::ExitCode;
use std::{env, fs};

// Each program's own, with its name and its errors.
fn main(rt: HostRuntime) -> ExitCode {
    match run(&rt) {
        Ok(()) => ExitCode::SUCCESS,
        Err(error) => {
            let _ = eprintln!(rt; "hub: {error}");
            ExitCode::FAILURE
        }
    }
}

// Plays the script that the first argument names, or else the story.
fn run(rt: &HostRuntime) -> Result<(), HubError> {
    let mut args = env::args(rt).map_err(Trouble::from)?;
    match args.nth(1) {
        Some(path) => {
            let text = read_script(rt, path)?;
            show(rt, text.as_str())
        }
        None => show(rt, script::STORY),
    }
}

fn read_script(rt: &HostRuntime, path: String) -> Result<String, HubError> {
    let text = fs::read_to_string(rt, path.as_str());
    text.map_err(|error| HubError::Unreadable(path, error))
}

fn show(rt: &HostRuntime, script: &str) -> Result<(), HubError> {
    let image = image()?;
    script::show_with_lines(rt, &image, script, PanelLines::Numbered)?;
    Ok(())
}

// The words of the image that are not erased, with their addresses.
const WORDS: [(u32, u32); 7] = [
    // the vectors: the end of the RAM, and the supervisor's first instruction (bit 0 says Thumb)
    (0x000, 0x2000_2000),
    (0x004, 0x0000_0101),
    // the supervisor: nop, and a branch to itself
    (0x100, 0xe7fe_bf00),
    // both schedules: ldr r0, [r1]; str r0, [r2]; nop; back to the first
    (0x400, 0x6010_6808),
    (0x404, 0xe7fb_bf00),
    (0x800, 0x6010_6808),
    (0x804, 0xe7fb_bf00),
];

// The image, as flash that is not yet read-only takes its words.
fn image() -> Result<[u8; FLASH_SIZE as usize], HubError> {
    let mut image = [ERASED; FLASH_SIZE as usize];
    let mut blank = Strip::new(&mut image, FLASH_BASE, 0)?;
    for (address, word) in WORDS {
        blank.write(Width::Word, Right::Privileged, address, word)?;
    }
    Ok(image)
}
