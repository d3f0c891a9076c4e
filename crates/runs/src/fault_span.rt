// Between which addresses the faults of a run lie.
ghost use Rattle.std.specs.Prelude.{◌≡◌};
ghost use Rattle.runs.specs.FaultSpan.{no_span, span_of, hull, spanning_both, Spans};
ghost use Rattle.runs.specs.Spanning.{span_laws, span_commutes, spanned};

use crate::tally::Tally;
use arch::Answer;

// The least fault address and the greatest.
#[derive(Clone, Copy, Debug, PartialEq, Eq)]
pub struct FaultSpan {
    pub least: u32,
    pub greatest: u32,
}

impl FaultSpan {
    // The least span that has both in it.
    fn hull(self, other: FaultSpan) -> FaultSpan
        ensures { result ≡ spanning_both self other }
    {
        FaultSpan {
            least: self.least.min(other.least),
            greatest: self.greatest.max(other.greatest),
        }
    }
}

// None where there is no fault.
impl Tally for Option<FaultSpan> {
    ghost none = { no_span };

    ghost one = { span_of };

    ghost joined = { hull };

    ghost Says = { Spans };

    ghost laws = { span_laws };

    ghost commutes = { span_commutes };

    ghost says = { spanned };

    fn empty() -> Option<FaultSpan> {
        None
    }

    fn of(answer: Answer) -> Option<FaultSpan> {
        match answer {
            Answer::Ran | Answer::Entered(_) | Answer::Returned => None,
            Answer::Faulted(fault) | Answer::Locked(fault) => Some(FaultSpan {
                least: fault.address,
                greatest: fault.address,
            }),
        }
    }

    fn join(self, later: Option<FaultSpan>) -> Option<FaultSpan> {
        match (self, later) {
            (Some(first), Some(second)) => Some(first.hull(second)),
            (span, None) | (None, span) => span,
        }
    }
}
