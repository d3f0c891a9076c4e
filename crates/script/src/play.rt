// Plays a script on the hub, and counts what came of its lines.
ghost use Rattle.std.specs.Prelude.{◌≡◌, ◌+◌, ◌-◌, ◌^◌, min};
ghost use Rattle.bus.specs.Meaning.{answer, after, replied, written};
ghost use Rattle.script.specs.Play.{answered, outcome_of, counted};

use crate::report;
use bus::{Bus, Fault, Use, Width};
use commands::{Command, Request, is_remark, read_line};
use memory::Trouble;
use parts::RegionCheck;

// What a read or a fetch answered.
#[derive(Clone, Copy, Debug, PartialEq, Eq)]
pub struct Value {
    pub width: Width,
    pub value: u32,
}

// What an access came to: a write that passes has no value.
pub type Answer = Result<Option<Value>, Fault>;

// What a line came to: four counts, where a bool would name two.
#[derive(Clone, Copy, Debug, PartialEq, Eq)]
pub enum Outcome {
    Allowed,
    Refused,
    Handed,
    Bad,
}

fn outcome_of(answer: Answer) -> Outcome
    ensures { result ≡ outcome_of answer }
{
    match answer {
        Ok(_) => Outcome::Allowed,
        Err(_) => Outcome::Refused,
    }
}

#[derive(Clone, Copy, Debug, PartialEq, Eq, Default)]
pub struct Tally {
    pub allowed: u64,
    pub refused: u64,
    pub handed: u64,
    pub bad: u64,
}

impl Tally {
    fn count(&mut self, outcome: Outcome)
        ensures { self.new ≡ counted self.old outcome }
    {
        match outcome {
            Outcome::Allowed => self.allowed = self.allowed.saturating_add(1),
            Outcome::Refused => self.refused = self.refused.saturating_add(1),
            Outcome::Handed => self.handed = self.handed.saturating_add(1),
            Outcome::Bad => self.bad = self.bad.saturating_add(1),
        }
    }

    // All lines but the bad ones.
    pub fn played(&self) -> u64
        ensures { result ≡ min (self.now.allowed + self.now.refused + self.now.handed) (2 ^ 64 - 1) }
    {
        self.allowed
            .saturating_add(self.refused)
            .saturating_add(self.handed)
    }
}

pub fn play<B: Bus>(
    rt: &HostRuntime,
    hub: &mut RegionCheck<B>,
    text: &str,
) -> Result<Tally, Trouble> {
    let mut tally = Tally::default();
    // lines count from 1
    for (index, line) in text.lines().enumerate() {
        if !is_remark(line) {
            let outcome = play_line(rt, hub, index.saturating_add(1), line)?;
            tally.count(outcome);
        }
    }
    Ok(tally)
}

fn play_line<B: Bus>(
    rt: &HostRuntime,
    hub: &mut RegionCheck<B>,
    number: usize,
    line: &str,
) -> Result<Outcome, Trouble> {
    match read_line(line) {
        Ok(Command::Ask(request)) => {
            let answer = ask(hub, request);
            report::print_request(rt, number, request, answer)?;
            Ok(outcome_of(answer))
        }
        Ok(Command::HandTo(flat)) => {
            memory::hand_to(hub, flat)?;
            report::print_handing(rt, number, flat)?;
            Ok(Outcome::Handed)
        }
        Err(mistake) => {
            report::print_mistake(rt, number, mistake)?;
            Ok(Outcome::Bad)
        }
    }
}

fn ask<B: Bus>(bus: &mut B, request: Request) -> Answer
    ensures value { result ≡ answered request.access.usage (answer (B.Bus.verdict bus.old request.access) (replied (B.Bus.bytes bus.old) request.access)) }
    ensures contents { B.Bus.bytes bus.new ≡ after (B.Bus.verdict bus.old request.access) (written (B.Bus.bytes bus.old) request.access request.value) (B.Bus.bytes bus.old) }
{
    let value = bus.access(request.access, request.value)?;
    match request.access.usage {
        Use::Write(_) => Ok(None),
        Use::Read(width) => Ok(Some(Value { width, value })),
        Use::Fetch => Ok(Some(Value {
            width: Width::Half,
            value,
        })),
    }
}
