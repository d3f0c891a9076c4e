// What a bus is: accesses, faults, and the rules that every bus keeps.
#![tactic(auto)]

mod access;
mod fault;
mod guarded;
mod interface;
mod refusal;

pub use access::{Access, Right, Use, Width};
pub use fault::{Cause, Fault};
pub use guarded::programs_are_isolated;
pub use interface::Bus;
pub use refusal::Refusal;
