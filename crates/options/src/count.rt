// The options that take a number.
ghost use Rattle.std.specs.Prelude.{◌≡◌, ◌≤◌, IfSome};
ghost use Rattle.options.specs.Counts.{most_of, option_of};

#[derive(Clone, Copy, Debug, PartialEq, Eq)]
pub enum Count {
    // steps in a turn
    Steps,
    // steps from one SysTick to the next
    Tick,
    Turns,
}

impl Count {
    // a table: its contract says the words
    pub fn option(self) -> &'static str
        ensures { result.now ≡ option_of self }
    {
        match self {
            Count::Steps => "--steps",
            Count::Tick => "--tick",
            Count::Turns => "--turns",
        }
    }

    // The greatest number that it takes; the least is 1.
    pub fn most(self) -> u32
        ensures { result ≡ most_of self }
    {
        match self {
            Count::Steps | Count::Tick => 100_000,
            Count::Turns => 1000,
        }
    }

    // The number that a word says, if it is in the range.
    pub(crate) fn value(self, word: &str) -> Option<u32>
        ensures { IfSome result (λ n. (1 ≤ n) × (n ≤ most_of self)) }
    {
        // from_str_radix would take a sign
        if word.starts_with('+') {
            return None;
        }
        let number = u32::from_str_radix(word, 10).ok();
        number.filter(|n| 1 <= *n && *n <= self.most())
    }
}
