// How an instruction ends.
ghost use Rattle.std.specs.Prelude.{◌≡◌};
ghost use Rattle.exec.specs.Flow.{answer_of};

use arch::Answer;

// no bool: two names say more
#[derive(Clone, Copy, Debug, PartialEq, Eq)]
pub enum Flow {
    Ran,
    Returned,
}

// What a step answers then.
impl From<Flow> for Answer {
    ghost from_gives = { λ flow answer. answer ≡ answer_of flow };

    fn from(flow: Flow) -> Answer {
        match flow {
            Flow::Ran => Answer::Ran,
            Flow::Returned => Answer::Returned,
        }
    }
}
