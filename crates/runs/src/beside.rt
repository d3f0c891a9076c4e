// Two kinds of tally side by side, as one kind.
ghost use Rattle.runs.specs.Beside.{beside, SayBoth, laws_beside, commute_beside, say_both};

use crate::tally::Tally;
use arch::Answer;

impl<A: Tally + Copy, B: Tally + Copy> Tally for (A, B) {
    ghost none = { (A.Tally.none, B.Tally.none) };

    ghost one = { λ answer. (A.Tally.one answer, B.Tally.one answer) };

    ghost joined = { beside A.Tally.joined B.Tally.joined };

    ghost Says = { SayBoth A.Tally.Says B.Tally.Says };

    ghost laws = { laws_beside A.Tally.laws B.Tally.laws };

    ghost commutes = { commute_beside A.Tally.commutes B.Tally.commutes };

    ghost says = { say_both _ _ _ _ _ _ A.Tally.Says B.Tally.Says A.Tally.says B.Tally.says };

    fn empty() -> (A, B) {
        (A::empty(), B::empty())
    }

    fn of(answer: Answer) -> (A, B) {
        (A::of(answer), B::of(answer))
    }

    fn join(self, later: (A, B)) -> (A, B) {
        (self.0.join(later.0), self.1.join(later.1))
    }
}
