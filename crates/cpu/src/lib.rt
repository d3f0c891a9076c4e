// The core: its registers with what every core keeps, one step over any bus, the host's calls, and a list of them.
#![tactic(auto)]

mod entry;
mod processor;
mod sequence;
mod step;

pub use processor::Core;
pub use sequence::{Failure, perform};
