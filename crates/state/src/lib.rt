// The registers of a core as instructions use them, and the instructions that need no bus.
#![tactic(auto)]

mod access;
mod data;
mod priorities;
mod results;

pub use access::{
    branch_to, handler, interwork, move_on, on_process, privileged, register, right, set_register,
    set_stack_pointer, stack_pointer,
};
pub use data::{basic, convert, operate, special};
pub use priorities::{chosen, execution_priority, priority};
