// What a run came to, and runs in parts.
ghost use Rattle.std.specs.Prelude.{◌≡◌};
ghost use Rattle.runs.specs.Outcome.{joined_outcomes};

use crate::tally::Tally;

// How many steps a run made, and what their answers tally.
#[derive(Debug, Drop, PartialEq, Eq)]
pub struct Outcome<T> {
    pub steps: u32,
    pub tally: T,
}

// A run and the one that goes on from where it ended, as one.
pub fn join_runs<T: Tally>(first: Outcome<T>, second: Outcome<T>) -> Outcome<T>
    ensures { result ≡ joined_outcomes T.Tally.joined first second }
{
    let Outcome { steps, tally } = first;
    let Outcome {
        steps: more,
        tally: later,
    } = second;
    Outcome {
        steps: steps.saturating_add(more),
        tally: tally.join(later),
    }
}
