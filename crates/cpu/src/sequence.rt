// A list of calls on a machine that is reset first.
ghost use Rattle.std.specs.Prelude.{◌≡◌, MatchResult};
ghost use Rattle.cpu.specs.Performed.{Performed, Unmade, machine_on};
ghost use Rattle.cpu.specs.declared.sequence.Failure.TheVariants.{OutOfMemory, ResetRefused};

use crate::processor::Core;
use arch::{Call, Response};
use bus::{Bus, Fault};
use std::alloc::{AllocError, Global};
use thiserror::Error;

// Why no call was made.
#[derive(Clone, Copy, Debug, PartialEq, Eq, Error)]
pub enum Failure {
    // there is no memory for the answers
    #[error("out of memory")]
    OutOfMemory(AllocError),
    // a read of the reset was refused
    #[error("the reset was refused")]
    ResetRefused(Fault),
}

// by hand, so that a contract says which failure
impl From<AllocError> for Failure {
    ghost from_gives = { λ error failure. failure ≡ OutOfMemory error };

    fn from(error: AllocError) -> Failure {
        Failure::OutOfMemory(error)
    }
}

// by hand, so that a contract says which failure
impl From<Fault> for Failure {
    ghost from_gives = { λ fault failure. failure ≡ ResetRefused fault };

    fn from(fault: Fault) -> Failure {
        Failure::ResetRefused(fault)
    }
}

// Resets the machine, makes the calls in their order, and hands back every answer.
pub fn perform<B: Bus>(
    heap: Global,
    core: &mut Core,
    bus: &mut B,
    calls: &[Call],
) -> Result<Vec<Response>, Failure>
    ensures performed { MatchResult result (λ answers. Performed answers.items calls.now (machine_on B.Bus core.old bus.old) (machine_on B.Bus core.new bus.new)) (λ failure. Unmade failure (machine_on B.Bus core.old bus.old) (machine_on B.Bus core.new bus.new)) }
    ensures settled { B.Bus.settings bus.new ≡ B.Bus.settings bus.old }
{
    let mut answers = Vec::with_capacity(heap, calls.len())?;
    core.reset(bus)?;
    // no `collect`: it would make room while calls are made
    for call in calls {
        let answer = core.call(bus, *call);
        // there is room: it was made before the reset
        answers.push(answer).unwrap();
    }
    Ok(answers)
}
