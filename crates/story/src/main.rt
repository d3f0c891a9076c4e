// Plays the built-in script of accesses, as `hub script` does.
#![tactic(auto)]

use image::IMAGE;
use std::process::ExitCode;

// Each program's own, with its name and its errors.
fn main(rt: HostRuntime) -> ExitCode {
    match script::show(&rt, &IMAGE, script::STORY) {
        Ok(()) => ExitCode::SUCCESS,
        Err(trouble) => {
            let _ = eprintln!(rt; "story: {trouble}");
            ExitCode::FAILURE
        }
    }
}
