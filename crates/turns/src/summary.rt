// What came of a turn's calls: the entries, returns, faults and refusals, each with the step that it came at.
use crate::counting::{Counts, count};
use arch::{Answer, Completed, Response};
use bus::{Fault, Refusal};
use std::{fmt, io};
use terms::{ExceptionText, FaultAt, RefusalText};

// Prints what a turn's responses tell, and how many there were.
pub fn print_summary(rt: &HostRuntime, responses: &[Response]) -> io::Result<()> {
    let mut open = Vec::new(rt.alloc());
    // counts the responses that are steps, so it is no index of the loop
    let mut step = 0u64;
    let mut locked = false;
    for response in responses {
        match *response {
            Ok(Completed::Stepped(answer)) => {
                step = step.saturating_add(1);
                print_answer(rt, &mut open, step, answer)?;
            }
            Ok(Completed::Accepted) => {}
            // it refuses every step of the turn: that is told once
            Err(Refusal::CoreLocked) if locked => {}
            Err(refusal) => {
                locked = locked || refusal == Refusal::CoreLocked;
                print_event(rt, step, "refused", RefusalText(refusal))?;
            }
        }
    }
    print_counts(rt, responses)
}

// A line with the step, where a trace's tells what the registers became. `open` has the exceptions that were entered and not returned from, the last at the end.
fn print_answer(rt: &HostRuntime, open: &mut Vec<u8>, step: u64, answer: Answer) -> io::Result<()> {
    match answer {
        Answer::Ran => Ok(()),
        Answer::Entered(number) => {
            open.push(number)?;
            print_event(rt, step, "entered", ExceptionText(number))
        }
        Answer::Returned => {
            let number = open.pop().unwrap_or(0);
            print_event(rt, step, "returned from", ExceptionText(number))
        }
        Answer::Faulted(fault) => print_event(rt, step, "faulted", FaultAt(fault)),
        Answer::Locked(fault) => print_event(rt, step, "locked", FaultAt(fault)),
    }
}

// A line: the step, what happened, and of what.
fn print_event<T: fmt::Display + Drop>(
    rt: &HostRuntime,
    step: u64,
    what: &str,
    of: T,
) -> io::Result<()> {
    println!(rt; "  {step:>6}  {what} {of}")
}

// A turn in which no call was made.
pub fn print_refused_reset(rt: &HostRuntime, fault: Fault) -> io::Result<()> {
    print_event(rt, 0, "reset refused", FaultAt(fault))
}

// The end of a turn's summary. What else is to be told of all its responses belongs here.
fn print_counts(rt: &HostRuntime, responses: &[Response]) -> io::Result<()> {
    let Counts {
        stepped,
        accepted,
        refused,
    } = count(responses);
    println!(rt; "  {stepped} steps answered, {accepted} other calls accepted, {refused} refused")
}
