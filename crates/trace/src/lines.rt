// The lines of a trace.
use crate::changes::print_changes;
use crate::seen::Seen;
use arch::{Answer, Call, Completed, Registers, Response};
use listing::Line;
use std::{fmt, io};
use terms::{ExceptionText, FaultAt, RefusalText};

// A call that was made on a core as it was seen, what it was answered, and the core after it. `step` is how many steps
// were answered by then.
pub fn print_call(
    rt: &HostRuntime,
    step: u64,
    call: Call,
    before: &Seen,
    response: Response,
    after: &Registers,
) -> io::Result<()> {
    print!(rt; "  {step:>6}  ")?;
    print_asked(rt, call, before, response)?;
    print_response(rt, before.registers.current, response)?;
    print_changes(rt, &before.registers, after)
}

// What was asked; for a step, the instruction, unless an exception was taken up in its place.
fn print_asked(rt: &HostRuntime, call: Call, before: &Seen, response: Response) -> io::Result<()> {
    match call {
        Call::Step => match response {
            Ok(Completed::Stepped(Answer::Entered(_))) => Ok(()),
            _ => print_instruction(rt, before),
        },
        Call::Raise(number) => print!(rt; "host raises {number}"),
        Call::Arm(number, true) => print!(rt; "host arms {number}"),
        Call::Arm(number, false) => print!(rt; "host disarms {number}"),
        Call::Rank(number, rank) => print!(rt; "host ranks {number} at {rank}"),
    }
}

fn print_instruction(rt: &HostRuntime, before: &Seen) -> io::Result<()> {
    let address = before.registers.pc;
    match before.piece {
        Some(piece) => {
            let line = Line { address, piece };
            let text = format!(in rt.alloc(); "{line}")?;
            print!(rt; "{text:<48}")
        }
        None => print!(rt; "{address:8x}: nothing to fetch"),
    }
}

// `current` is the exception that was current before the call.
fn print_response(rt: &HostRuntime, current: u8, response: Response) -> io::Result<()> {
    match response {
        Ok(Completed::Stepped(answer)) => print_answer(rt, current, answer),
        Ok(Completed::Accepted) => Ok(()),
        Err(refusal) => print_event(rt, "  refused", RefusalText(refusal)),
    }
}

// A part of a line that goes on with the registers, where a summary's is a line with the step.
fn print_answer(rt: &HostRuntime, current: u8, answer: Answer) -> io::Result<()> {
    match answer {
        Answer::Ran => Ok(()),
        Answer::Entered(number) => print_event(rt, "entered", ExceptionText(number)),
        Answer::Returned => print_event(rt, "  returned from", ExceptionText(current)),
        Answer::Faulted(fault) => print_event(rt, "  faulted", FaultAt(fault)),
        Answer::Locked(fault) => print_event(rt, "  locked", FaultAt(fault)),
    }
}

fn print_event<T: fmt::Display + Drop>(rt: &HostRuntime, what: &str, of: T) -> io::Result<()> {
    print!(rt; "{what} {of}")
}
