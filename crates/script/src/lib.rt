// Scripts of accesses: read, played on a hub's memory, and reported.
#![tactic(auto)]

ghost use Rattle.std.specs.Fn.{FnOnceReturnsAtMut};
ghost use Rattle.std.specs.Prelude.{◌≤◌, length, Ok, IfOk};

mod play;
mod report;
mod story;
#[cfg(test)]
mod tests;

use memory::{FLASH_BASE, FLASH_SIZE, Memory, PANEL_BASE, RAM_BASE, RAM_SIZE, Trouble};
use parts::RegionCheck;
pub use story::STORY;

// With what a line of the panel begins.
#[derive(Clone, Copy, Debug, PartialEq, Eq)]
pub enum PanelLines {
    // the address of its first word
    Addressed,
    // the number of its first word
    Numbered,
}

// Plays a script on a hub with this image, and reports.
pub fn show(rt: &HostRuntime, image: &[u8], script: &str) -> Result<(), Trouble>
    ensures { IfOk result (λ _. length image.now ≤ 4096) }
{
    show_with_lines(rt, image, script, PanelLines::Addressed)
}

// The same, with the panel's lines as they are asked for. An image that is longer than the flash is not played on.
pub fn show_with_lines(
    rt: &HostRuntime,
    image: &[u8],
    script: &str,
    lines: PanelLines,
) -> Result<(), Trouble>
    ensures { IfOk result (λ _. length image.now ≤ 4096) }
{
    let heap = rt.alloc();
    let mut flash = vec![in heap; 0u8; FLASH_SIZE as usize]?;
    let mut ram = vec![in heap; 0u8; RAM_SIZE as usize]?;
    memory::burn(&mut flash, image)?;
    let flash_before = flash.clone()?;
    let ram_before = ram.clone()?;
    let mut hub = memory::build(&mut flash, &mut ram)?;
    report::print_map(rt)?;
    let tally = play::play(rt, &mut hub, script)?;
    println!(rt)?;
    report::print_tally(rt, tally)?;
    println!(rt; "\nPanel")?;
    match lines {
        PanelLines::Addressed => memory::print_words(rt, &mut hub, PANEL_BASE, 4)?,
        PanelLines::Numbered => memory::print_panel(rt, &mut hub)?,
    }
    println!(rt; "\nBytes that changed")?;
    report::print_changes(rt, FLASH_BASE, &flash_before, &flash)?;
    report::print_changes(rt, RAM_BASE, &ram_before, &ram)?;
    if flash == flash_before && ram == ram_before {
        println!(rt; "  none")?;
    }
    Ok(())
}

// The same, with the panel printed by `print_panel`, called once, on the hub as the script left it. The body stands again:
// the programs print the panel in one of the two ways above, and so call no closure.
pub fn show_with<P>(
    rt: &HostRuntime,
    image: &[u8],
    script: &str,
    print_panel: P,
) -> Result<(), Trouble>
where
    P: FnOnce(&mut RegionCheck<Memory<'_>>) -> Result<(), Trouble>,
    requires { P.IsAlwaysCallable print_panel }
    ensures fits { IfOk result (λ _. length image.now ≤ 4096) }
    ensures printed { IfOk result (λ _. (before : _) × (after : _) × FnOnceReturnsAtMut P.FnOnce print_panel before (Ok tt) after) }
{
    let heap = rt.alloc();
    let mut flash_now = vec![in heap; 0u8; FLASH_SIZE as usize]?;
    let mut ram_now = vec![in heap; 0u8; RAM_SIZE as usize]?;
    memory::burn(&mut flash_now, image)?;
    let flash_before = flash_now.clone()?;
    let ram_before = ram_now.clone()?;
    let mut hub = memory::build(&mut flash_now, &mut ram_now)?;
    report::print_map(rt)?;
    let tally = play::play(rt, &mut hub, script)?;
    println!(rt)?;
    report::print_tally(rt, tally)?;
    println!(rt; "\nPanel")?;
    print_panel(&mut hub)?;
    println!(rt; "\nBytes that changed")?;
    report::print_changes(rt, FLASH_BASE, &flash_before, &flash_now)?;
    report::print_changes(rt, RAM_BASE, &ram_before, &ram_now)?;
    if flash_now == flash_before && ram_now == ram_before {
        println!(rt; "  none")?;
    }
    Ok(())
}
