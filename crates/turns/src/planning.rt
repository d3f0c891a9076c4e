// The host's calls in a turn.
ghost use Rattle.std.specs.Prelude.{◌≡◌, IfOk};
ghost use Rattle.turns.specs.Plan.{flat_of, tick_due, step_with_due, turn_calls};

use arch::Call;
use memory::Flat;
use std::alloc::{AllocError, Global};

// The exception of the window's contact.
const WINDOW: u32 = 16;

const SYSTICK: u32 = 15;

const SVCALL: u32 = 11;

// Ahead of the first step: the window comes before the tick, the tick before the schedule's own calls.
const OPENING: [Call; 4] = [
    Call::Rank(SVCALL, 3),
    Call::Rank(SYSTICK, 2),
    Call::Rank(WINDOW, 1),
    Call::Arm(WINDOW, true),
];

// The flats take turns, the first has the first.
pub fn flat_of(turn: u32) -> Flat
    ensures { result ≡ flat_of turn }
{
    if turn % 2 == 1 { Flat::One } else { Flat::Two }
}

// The calls of a turn: the steps, with a SysTick after every `tick` of them (none for 0), and the window moved halfway.
pub fn plan(heap: Global, steps: u32, tick: u32) -> Result<Vec<Call>, AllocError>
    ensures { IfOk result (λ calls. calls.items ≡ turn_calls steps tick) }
{
    let mut calls = Vec::new(heap);
    calls.extend_from_slice(&OPENING)?;
    for made in 1..=steps {
        calls.extend_from_slice(step_with_due(made, tick, steps / 2))?;
    }
    Ok(calls)
}

fn tick_due(made: u32, tick: u32) -> bool
    ensures { result ≡ tick_due made tick }
{
    tick != 0 && made % tick == 0
}

// The step that makes it `made` of them, and what is due after it.
fn step_with_due(made: u32, tick: u32, middle: u32) -> &'static [Call]
    ensures { result.now ≡ step_with_due made tick middle }
{
    // a table: a row says what is due
    match (tick_due(made, tick), made == middle) {
        (false, false) => &[Call::Step],
        (true, false) => &[Call::Step, Call::Raise(SYSTICK)],
        (false, true) => &[Call::Step, Call::Raise(WINDOW)],
        (true, true) => &[Call::Step, Call::Raise(SYSTICK), Call::Raise(WINDOW)],
    }
}
