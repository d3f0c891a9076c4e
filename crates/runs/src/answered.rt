// What the answers to a list of calls tally.
ghost use Rattle.std.specs.Prelude.{◌≡◌};
ghost use Rattle.runs.specs.Outcome.{tally_by};
ghost use Rattle.runs.specs.Run.{answer_in, answers_in};

use crate::tally::Tally;
use arch::{Completed, Response};

#[tactic(auto, unfolding(crate::specs::Tally::tally))]
fn tally_of_one<T: Tally>(response: Response) -> T
    ensures { result ≡ tally_by T.Tally (answer_in response) }
{
    match response {
        Ok(Completed::Stepped(answer)) => T::of(answer),
        // two arms: one for both leaves open which of them it was, and the clause is not found
        Ok(Completed::Accepted) => T::empty(),
        Err(_) => T::empty(),
    }
}

// The tally of the steps among them.
pub fn tally_of<T: Tally>(responses: &[Response]) -> T
    ensures value { result ≡ tally_by T.Tally (answers_in responses.now) }
    ensures says { T.Tally.Says result (answers_in responses.now) }
{
    let mut sum = T::empty();
    // a loop of one line: a fold would need the same lemma
    for response in responses {
        sum = sum.join(tally_of_one(*response));
    }
    sum
}
