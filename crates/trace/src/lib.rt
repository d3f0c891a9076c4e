// A line for each call on a core: what was asked, the instruction that ran, what came of it, and what it changed.
#![tactic(auto)]

mod changes;
mod lines;
mod seen;

pub use lines::print_call;
pub use seen::{Seen, look};
