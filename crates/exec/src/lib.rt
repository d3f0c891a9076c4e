// The instructions that use the bus or the special registers: loads and stores, branches, the return from an exception,
// calls to the system. Each is proved to make the accesses of its definition, in that order, over every bus.
#![tactic(auto)]

mod branches;
mod flow;
mod multiples;
mod returns;
mod systems;
mod transfers;

pub use branches::{branch, bx_write_pc};
pub use flow::Flow;
pub use multiples::multiple;
pub use returns::{exception_return, fault};
pub use systems::{flags_word, pend, system};
pub use transfers::{address_of, transfer};
