// How many steps gave each of the five answers.
ghost use Rattle.runs.specs.Counts.{no_counts, count_of, added, Counted};
ghost use Rattle.runs.specs.Counting.{counts_laws, counts_commute, counted};

use crate::tally::Tally;
use arch::Answer;

#[derive(Clone, Copy, Debug, Default, PartialEq, Eq)]
pub struct Counts {
    pub ran: u64,
    pub entered: u64,
    pub returned: u64,
    pub faulted: u64,
    pub locked: u64,
}

impl Tally for Counts {
    ghost none = { no_counts };

    ghost one = { count_of };

    ghost joined = { added };

    ghost Says = { Counted };

    ghost laws = { counts_laws };

    ghost commutes = { counts_commute };

    ghost says = { counted };

    fn empty() -> Counts {
        Counts::default()
    }

    fn of(answer: Answer) -> Counts {
        let mut counts = Counts::default();
        match answer {
            Answer::Ran => counts.ran = 1,
            Answer::Entered(_) => counts.entered = 1,
            Answer::Returned => counts.returned = 1,
            Answer::Faulted(_) => counts.faulted = 1,
            Answer::Locked(_) => counts.locked = 1,
        }
        counts
    }

    // Each count is held at its maximum.
    fn join(self, later: Counts) -> Counts {
        Counts {
            ran: self.ran.saturating_add(later.ran),
            entered: self.entered.saturating_add(later.entered),
            returned: self.returned.saturating_add(later.returned),
            faulted: self.faulted.saturating_add(later.faulted),
            locked: self.locked.saturating_add(later.locked),
        }
    }
}
