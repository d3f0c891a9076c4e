ghost use Rattle.std.specs.Prelude.{◌≡◌, ◌≤◌, MatchOption};
ghost use Rattle.word.specs.Conditions.{condition_of, number, passes};

use super::flags::Flags;

/// The conditions of a branch, in the order of their numbers.
#[derive(Clone, Copy, Debug, PartialEq, Eq)]
pub enum Condition {
    Eq,
    Ne,
    Cs,
    Cc,
    Mi,
    Pl,
    Vs,
    Vc,
    Hi,
    Ls,
    Ge,
    Lt,
    Gt,
    Le,
}

impl Condition {
    /// The condition of a number; the numbers from 14 up have none.
    // as `char::from_u32`: a number with none is no error, since branches leave two for UDF and SVC
    pub fn from_number(n: u32) -> Option<Condition>
        ensures value { result ≡ condition_of n }
        ensures inverse { MatchOption result (14 ≤ n) (λ c. number c ≡ n) }
    {
        match n {
            0 => Some(Condition::Eq),
            1 => Some(Condition::Ne),
            2 => Some(Condition::Cs),
            3 => Some(Condition::Cc),
            4 => Some(Condition::Mi),
            5 => Some(Condition::Pl),
            6 => Some(Condition::Vs),
            7 => Some(Condition::Vc),
            8 => Some(Condition::Hi),
            9 => Some(Condition::Ls),
            10 => Some(Condition::Ge),
            11 => Some(Condition::Lt),
            12 => Some(Condition::Gt),
            13 => Some(Condition::Le),
            _ => None,
        }
    }

    pub fn number(self) -> u32
        ensures { result ≡ number self }
    {
        self as u32
    }

    /// ConditionPassed.
    pub fn passed(self, flags: Flags) -> bool
        ensures { result ≡ passes self flags }
    {
        match self {
            Condition::Eq => flags.z,
            Condition::Ne => !flags.z,
            Condition::Cs => flags.c,
            Condition::Cc => !flags.c,
            Condition::Mi => flags.n,
            Condition::Pl => !flags.n,
            Condition::Vs => flags.v,
            Condition::Vc => !flags.v,
            Condition::Hi => flags.c && !flags.z,
            Condition::Ls => !flags.c || flags.z,
            Condition::Ge => flags.n == flags.v,
            Condition::Lt => flags.n != flags.v,
            Condition::Gt => !flags.z && flags.n == flags.v,
            Condition::Le => flags.z || flags.n != flags.v,
        }
    }
}
