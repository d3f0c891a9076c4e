// What a run keeps of the answers of its steps.
ghost use Rattle.std.specs.Prelude.{◌≡◌, List};
ghost use Rattle.arch.specs.declared.answers.Answer.{Answer as StepAnswer};
ghost use Rattle.runs.specs.Tally.{Laws, Commuting, tally};

use arch::Answer;

pub trait Tally: Sized {
    ghost none: { Self };

    ghost one: { StepAnswer → Self };

    ghost joined: { Self → Self → Self };

    // What a tally says of the answers that it is made of.
    ghost Says: { Self → List StepAnswer → Type 0 };

    // The tally of no answer.
    fn empty() -> Self
        ensures { result ≡ none };

    // The tally of one answer.
    fn of(answer: Answer) -> Self
        ensures { result ≡ one answer };

    // The tally of the answers of `self` and then of those of `later`.
    fn join(self, later: Self) -> Self
        ensures { result ≡ joined self later };

    // Associative, and nothing joined on either side changes nothing.
    ghost laws: { Laws none joined };

    ghost commutes: { Commuting joined };

    ghost says: { (answers : List StepAnswer) → Says (tally none one joined answers) answers };
}
