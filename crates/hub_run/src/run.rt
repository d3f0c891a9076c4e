// Runs an image: in each turn the regions are one flat's, and the core is reset and makes the turn's calls.
ghost use Rattle.std.specs.Prelude.{◌≡◌};
ghost use Rattle.memory.specs.Flats.{neighbour, Spare, Shut};

use arch::Call;
use bus::Bus;
use cpu::Core;
use machine::Played;
use memory::{FLASH_SIZE, Flat, PANEL_BASE, RAM_SIZE, Trouble};
use options::Options;
use parts::{Panel, RegionCheck, Split};
use runs::{Outcome, Tally};
use std::io;
use turns::Tallies;

// How many steps the core is left alone for at the end.
const ALONE: u32 = 100;

// Runs the turns that the options ask for, and prints what came of each and the panel at the end.
pub fn run(rt: &HostRuntime, image: &[u8], options: Options<'_>) -> Result<(), Trouble> {
    let heap = rt.alloc();
    let mut flash = vec![in heap; 0u8; FLASH_SIZE as usize]?;
    let mut ram = vec![in heap; 0u8; RAM_SIZE as usize]?;
    memory::burn(&mut flash, image)?;
    let mut hub = memory::build(&mut flash, &mut ram)?;
    let calls = turns::plan(heap, options.steps, options.tick)?;
    let mut core = Core::new();
    let mut tallies = <Tallies as Tally>::empty();
    print_heading(rt, image.len(), options)?;
    for turn in 1..=options.turns {
        let flat = turns::flat_of(turn);
        print_turn(rt, turn, flat)?;
        let played = take_turn(rt, &mut core, &mut hub, flat, &calls, options.trace)?;
        tallies = tallies.join(print_played(rt, &played)?);
        print_view(rt, &mut hub, flat)?;
    }
    println!(rt; "\nAll turns")?;
    turns::print_tallies(rt, tallies)?;
    leave_alone(rt, &mut core, &mut hub)?;
    println!(rt; "\nPanel")?;
    memory::print_words(rt, &mut hub, PANEL_BASE, 4)?;
    println!(rt; "\nPanel in degrees")?;
    print_panel(rt, &hub)?;
    Ok(())
}

// After the last turn nobody raises anything any more, and the core runs on.
fn leave_alone<B: Bus>(rt: &HostRuntime, core: &mut Core, bus: &mut B) -> Result<(), Trouble> {
    let outcome: Outcome<Tallies> = runs::run(core, bus, ALONE)?;
    let steps = outcome.steps;
    println!(rt; "\nLeft alone for {ALONE} steps, of which it made {steps}")?;
    turns::print_tallies(rt, outcome.tally)?;
    Ok(())
}

// The words of the hub's panel as temperatures.
fn print_panel<F: Bus, R: Bus>(
    rt: &HostRuntime,
    hub: &RegionCheck<Split<F, Split<R, Panel>>>,
) -> io::Result<()> {
    turns::print_degrees(rt, &hub.below.upper.upper)
}

fn print_heading(rt: &HostRuntime, length: usize, options: Options<'_>) -> io::Result<()> {
    let name = options.image.unwrap_or("built in");
    let turns = options.turns;
    let steps = options.steps;
    let tick = options.tick;
    println!(rt; "A hub for two flats")?;
    println!(rt; "  image  {length} bytes, {name}")?;
    println!(rt; "  turns  {turns}, each of {steps} steps with a SysTick after every {tick}")
}

fn print_turn(rt: &HostRuntime, turn: u32, flat: Flat) -> io::Result<()> {
    let number = flat.number();
    println!(rt; "\nTurn {turn}, of flat {number}")
}

// A turn on a hub whose regions 6 and 7 are off: the neighbour's RAM and code are shut while it lasts.
fn take_turn<B: Bus>(
    rt: &HostRuntime,
    core: &mut Core,
    hub: &mut RegionCheck<B>,
    flat: Flat,
    calls: &[Call],
    trace: bool,
) -> Result<Played, Trouble>
    requires { Spare hub.old.table.regions }
    ensures shut { Shut (neighbour flat) hub.new.table.regions }
    ensures spare { Spare hub.new.table.regions }
{
    machine::play_turn(rt, core, hub, flat, calls, trace)
}

// Prints what a turn came to, and answers the tallies of its steps.
fn print_played(rt: &HostRuntime, played: &Played) -> io::Result<Tallies> {
    match played {
        Ok(answers) => {
            turns::print_summary(rt, answers)?;
            let tallies: Tallies = runs::tally_of(answers);
            turns::print_tallies(rt, tallies)?;
            Ok(tallies)
        }
        Err(fault) => {
            turns::print_refused_reset(rt, *fault)?;
            Ok(<Tallies as Tally>::empty())
        }
    }
}

// What the flat sees at the end of its turn: the first words of its RAM, and its panel words.
fn print_view<B: Bus>(rt: &HostRuntime, hub: &mut RegionCheck<B>, flat: Flat) -> Result<(), Trouble>
    ensures regions { hub.new.table.regions ≡ hub.old.table.regions }
{
    println!(rt; "  RAM")?;
    memory::print_words(rt, hub, flat.ram_base(), 1)?;
    println!(rt; "  panel words")?;
    memory::print_words(rt, hub, PANEL_BASE + 4 * flat.panel_word(), 2)
}
