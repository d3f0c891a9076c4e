//! Prints a raw Thumb image that it reads from its input: the stored sample of encodings and their texts.
#![tactic(auto)]

use listing::print_image;
use std::io::Read;

fn run(rt: &HostRuntime) -> anyhow::Result<()> {
    let mut image = Vec::new(rt.alloc());
    rt.stdin().read_to_end(&mut image)?;
    print_image(rt, image.as_slice(), 0)?;
    Ok(())
}

fn main(rt: HostRuntime) -> anyhow::Result<()> {
    run(&rt)
}
