// The architecture: what a core holds, what is asked of it, what it answers, and what its steps mean.
#![tactic(auto)]

mod answers;
mod registers;
mod theorems;

pub use answers::{Answer, Call, Completed, Response};
pub use registers::{Control, Exceptions, Frame, Registers};
pub use theorems::{
    calls_are_sound, frames_are_unprivileged, machines_are_isolated, special_registers_are_hidden,
};
