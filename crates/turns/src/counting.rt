// How many calls of a turn were answered, accepted and refused.
ghost use Rattle.std.specs.Prelude.{◌≡◌};
ghost use Rattle.turns.specs.Counts.{none, counted, counted_all};

use arch::{Completed, Response};

#[derive(Clone, Copy, Debug, Default, PartialEq, Eq)]
pub struct Counts {
    // steps that were answered
    pub stepped: u64,
    // other calls that were carried out
    pub accepted: u64,
    // calls that were turned away
    pub refused: u64,
}

impl Counts {
    fn note(&mut self, response: Response)
        ensures { self.new ≡ counted self.old response }
    {
        match response {
            Ok(Completed::Stepped(_)) => self.stepped = self.stepped.saturating_add(1),
            Ok(Completed::Accepted) => self.accepted = self.accepted.saturating_add(1),
            Err(_) => self.refused = self.refused.saturating_add(1),
        }
    }
}

pub fn count(responses: &[Response]) -> Counts
    ensures { result ≡ counted_all none responses.now }
{
    let mut counts = Counts::default();
    // a loop of one line: a fold would need the same lemma
    for response in responses {
        counts.note(*response);
    }
    counts
}
