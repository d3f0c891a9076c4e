// A core on a hub's memory: one flat's turn, made by a list of calls or call by call.
#![tactic(auto)]

ghost use Rattle.std.specs.Prelude.{◌≡◌, IfOk};
ghost use Rattle.bus.specs.Made.{Makes};
ghost use Rattle.arch.specs.Step.{answer_to};
ghost use Rattle.cpu.specs.Performed.{machine, machine_on};
ghost use Rattle.memory.specs.Flats.{neighbour, handed_to, Spare, Shut};
ghost use Rattle.memory.specs.Prepared.{hub_world, prepared_world};
ghost use Rattle.machine.specs.Turn.{CameTo};

use arch::{Call, Completed, Response};
use bus::{Bus, Fault};
use cpu::{Core, Failure};
use memory::{Flat, Trouble};
use parts::RegionCheck;
use std::io;

#[cfg(test)]
mod tests;

// What a turn came to: the answers to its calls, or why the core could not be reset and no call was made.
pub type Played = Result<Vec<Response>, Fault>;

// The turn begins in a world whose regions are the flat's and whose first word of RAM is its number, and comes to what
// the calls come to there. Where the regions that no flat has are off, no unprivileged access to the neighbour's RAM or
// code passes while a flat has its turn, nor after it.
//
// A struct of the three loans would live for one call, so the handle, the core and the hub go as they are.
pub fn play_turn<B: Bus>(
    rt: &HostRuntime,
    core: &mut Core,
    hub: &mut RegionCheck<B>,
    flat: Flat,
    calls: &[Call],
    trace: bool,
) -> Result<Played, Trouble>
    ensures came { CameTo result calls.now (machine core.old.registers (prepared_world hub.old.table.regions hub.old.background (B.Bus.bytes hub.old.below) (B.Bus.verdict hub.old.below) flat)) (machine core.new.registers (hub_world hub.new.table.regions hub.new.background (B.Bus.bytes hub.new.below) (B.Bus.verdict hub.new.below))) }
    ensures regions { hub.new.table.regions ≡ handed_to hub.old.table.regions flat }
    ensures shut { Spare hub.old.table.regions → Shut (neighbour flat) hub.new.table.regions × Spare hub.new.table.regions }
{
    memory::prepare(hub, flat)?;
    make(rt, core, hub, calls, trace)
}

// Resets the core and makes the calls, as one list or one by one with a line for each: it comes to the same.
fn make<B: Bus>(
    rt: &HostRuntime,
    core: &mut Core,
    bus: &mut B,
    calls: &[Call],
    trace: bool,
) -> Result<Played, Trouble>
    ensures came { CameTo result calls.now (machine_on B.Bus core.old bus.old) (machine_on B.Bus core.new bus.new) }
    ensures settled { B.Bus.settings bus.new ≡ B.Bus.settings bus.old }
{
    if trace {
        return make_traced(rt, core, bus, calls);
    }
    match cpu::perform(rt.alloc(), core, bus, calls) {
        Ok(answers) => {
            let played: Played = Ok(answers);
            Ok(played)
        }
        Err(Failure::ResetRefused(fault)) => Ok(Err(fault)),
        Err(Failure::OutOfMemory(error)) => Err(Trouble::OutOfMemory(error)),
    }
}

fn make_traced<B: Bus>(
    rt: &HostRuntime,
    core: &mut Core,
    bus: &mut B,
    calls: &[Call],
) -> Result<Played, Trouble>
    ensures came { CameTo result calls.now (machine_on B.Bus core.old bus.old) (machine_on B.Bus core.new bus.new) }
    ensures settled { B.Bus.settings bus.new ≡ B.Bus.settings bus.old }
{
    let mut answers = Vec::with_capacity(rt.alloc(), calls.len())?;
    if let Err(fault) = core.reset(bus) {
        return Ok(Err(fault));
    }
    // counts the responses that are steps, so it is no index of the loop
    let mut steps = 0u64;
    for call in calls {
        let answer = call_traced(rt, core, bus, &mut steps, *call)?;
        answers.push(answer)?;
    }
    let played: Played = Ok(answers);
    Ok(played)
}

// One call, with its line. `steps` counts the steps that were answered.
fn call_traced<B: Bus>(
    rt: &HostRuntime,
    core: &mut Core,
    bus: &mut B,
    steps: &mut u64,
    call: Call,
) -> io::Result<Response>
    ensures made { IfOk result (λ response. Makes B.Bus bus.old bus.new (answer_to call core.old.registers) (response, core.new.registers)) }
    ensures settled { B.Bus.settings bus.new ≡ B.Bus.settings bus.old }
{
    let seen = trace::look(bus, core.registers());
    let response = core.call(bus, call);
    if let Ok(Completed::Stepped(_)) = response {
        *steps = steps.saturating_add(1);
    }
    trace::print_call(rt, *steps, call, &seen, response, core.registers())?;
    Ok(response)
}
