// Theorems about runs. Each function's contract is the theorem it is named for.
ghost use Rattle.runs.specs.Counts.{CountsAreSteps};
ghost use Rattle.runs.specs.Run.{RunsJoin};

// A run of n steps and then of k more is a run of n + k, wherever it stops.
pub fn runs_join()
    ensures { RunsJoin }
{}

// The five counts of a run are together its steps.
pub fn counts_are_steps()
    ensures { CountsAreSteps }
{}
