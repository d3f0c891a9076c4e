// A cellar hub: runs its image turn by turn, or plays a script of accesses on its memory.
#![tactic(auto)]

ghost use Rattle.std.specs.Prelude.{◌≤◌, IfOk, vec_len};

mod error;
mod run;

use crate::error::HubError;
use image::IMAGE;
use memory::FLASH_SIZE;
use options::{Asked, Options};
use std::process::ExitCode;
use std::{env, fs, io};

const HELP: &str = "\
hub                        run the built-in image
hub run [IMAGE] [OPTIONS]  run the raw image in the file IMAGE, or the built-in one
hub script [FILE]          play the script of accesses in FILE, or the built-in one
hub --help                 print this

    --turns N    turns, which the flats take in order: 1 to 1000, 4 unless given
    --steps N    steps of a turn: 1 to 100000, 500 unless given
    --tick N     steps from one SysTick to the next: 1 to 100000, 150 unless given
    --trace      print every step";

// Each program's own, with its name and its errors.
fn main(rt: HostRuntime) -> ExitCode {
    match answer(&rt) {
        Ok(()) => ExitCode::SUCCESS,
        Err(error) => {
            let _ = eprintln!(rt; "hub: {error}");
            ExitCode::FAILURE
        }
    }
}

// Does what the command line asks for.
fn answer(rt: &HostRuntime) -> Result<(), HubError> {
    let words: Vec<String> = env::args(rt)?.skip(1).collect(rt.alloc())?;
    match options::parse(&words) {
        Ok(Asked::Help) => {
            println!(rt; "{HELP}")?;
            Ok(())
        }
        Ok(Asked::Run(options)) => run_image(rt, options),
        Ok(Asked::Script(file)) => play_script(rt, file),
        Err(mistake) => Err(HubError::Usage(format!(in rt.alloc(); "{mistake}")?)),
    }
}

fn run_image(rt: &HostRuntime, options: Options<'_>) -> Result<(), HubError> {
    match options.image {
        None => run::run(rt, &IMAGE, options)?,
        Some(path) => {
            let image = read_image(rt, path)?;
            run::run(rt, &image, options)?;
        }
    }
    Ok(())
}

fn read_image(rt: &HostRuntime, path: &str) -> Result<Vec<u8>, HubError>
    ensures { IfOk result (λ image. vec_len image ≤ 4096) }
{
    let image = fs::read(rt, path).map_err(|error| unreadable(rt, path, error))?;
    if image.len() > FLASH_SIZE as usize {
        return Err(HubError::TooLong(String::from_str(rt.alloc(), path)?, image.len()));
    }
    Ok(image)
}

fn play_script(rt: &HostRuntime, file: Option<&str>) -> Result<(), HubError> {
    match file {
        None => script::show(rt, &IMAGE, script::STORY)?,
        Some(path) => {
            let text = fs::read_to_string(rt, path).map_err(|error| unreadable(rt, path, error))?;
            script::show(rt, &IMAGE, text.as_str())?;
        }
    }
    Ok(())
}

fn unreadable(rt: &HostRuntime, path: &str, error: io::Error) -> HubError {
    match String::from_str(rt.alloc(), path) {
        Ok(path) => HubError::Unreadable(path, error),
        Err(full) => HubError::from(full),
    }
}
