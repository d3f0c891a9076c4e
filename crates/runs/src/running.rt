// Runs of many steps.
ghost use Rattle.std.specs.Prelude.{◌≡◌, ◌+◌, ◌<◌, max, ◌&&◌, leb, IfOk, if◌then◌else◌, Ok, Err, nat_le};
ghost use Rattle.bus.specs.declared.refusal.Refusal.TheVariants.{OutOfRange};
ghost use Rattle.cpu.specs.Performed.{machine_on};
ghost use Rattle.runs.specs.Run.{longest, answers, left, Stepwise};
ghost use Rattle.runs.specs.Outcome.{outcome_of};

use crate::outcome::{Outcome, join_runs};
use crate::tally::Tally;
use bus::{Bus, Refusal};
use cpu::Core;

// The longest run.
const LONGEST: u32 = 65535;

// At most `limit` steps; a locked core makes none, so the run ends after one that locks. A run is no single program of
// accesses, so what it leaves and `settled` stand apart.
fn make_steps<B: Bus, T: Tally>(core: &mut Core, bus: &mut B, limit: u32) -> Outcome<T>
    ensures value { result ≡ outcome_of T.Tally (answers limit (machine_on B.Bus core.old bus.old)) }
    ensures leaves { machine_on B.Bus core.new bus.new ≡ left limit (machine_on B.Bus core.old bus.old) }
    ensures settled { B.Bus.settings bus.new ≡ B.Bus.settings bus.old }
{
    let mut tally = T::empty();
    for steps in 0..limit {
        let Ok(answer) = core.step(bus) else {
            return Outcome { steps, tally };
        };
        tally = tally.join(T::of(answer));
    }
    Outcome {
        steps: limit,
        tally,
    }
}

// A run of at most `n` steps, `n` from 0 to 65535; it ends early after a step that locks.
pub fn run<B: Bus, T: Tally>(core: &mut Core, bus: &mut B, n: u32) -> Result<Outcome<T>, Refusal>
    ensures value { result ≡ (if leb n longest then Ok (outcome_of T.Tally (answers n (machine_on B.Bus core.old bus.old))) else Err OutOfRange) }
    ensures leaves { machine_on B.Bus core.new bus.new ≡ (if leb n longest then left n (machine_on B.Bus core.old bus.old) else machine_on B.Bus core.old bus.old) }
    ensures stepwise { IfOk result (λ x. Stepwise n (machine_on B.Bus core.old bus.old) x.steps) }
    ensures says { IfOk result (λ x. T.Tally.Says x.tally (answers n (machine_on B.Bus core.old bus.old))) }
    ensures settled { B.Bus.settings bus.new ≡ B.Bus.settings bus.old }
    ensures refused { longest < n → bus.new ≡ bus.old }
{
    if n > LONGEST {
        return Err(Refusal::OutOfRange);
    }
    Ok(make_steps(core, bus, n))
}

// A run in two parts: what one of `first + second` steps would be.
pub fn run_twice<B: Bus, T: Tally>(
    core: &mut Core,
    bus: &mut B,
    first: u32,
    second: u32,
) -> Result<Outcome<T>, Refusal>
    ensures value { result ≡ (if leb first longest && nat_le second longest then Ok (outcome_of T.Tally (answers (first + second) (machine_on B.Bus core.old bus.old))) else Err OutOfRange) }
    ensures leaves { machine_on B.Bus core.new bus.new ≡ (if leb first longest && nat_le second longest then left (first + second) (machine_on B.Bus core.old bus.old) else machine_on B.Bus core.old bus.old) }
    ensures settled { B.Bus.settings bus.new ≡ B.Bus.settings bus.old }
    ensures refused { longest < max first second → bus.new ≡ bus.old }
{
    if first > LONGEST || second > LONGEST {
        return Err(Refusal::OutOfRange);
    }
    let front = make_steps(core, bus, first);
    let back = make_steps(core, bus, second);
    Ok(join_runs(front, back))
}
