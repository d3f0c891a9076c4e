// Runs of steps and what they come to: tallies of the answers, and the panel's temperatures in tenths.
#![tactic(auto)]

mod answered;
mod beside;
mod counts;
mod fault_span;
mod outcome;
mod running;
mod tally;
mod tenths;
mod theorems;

pub use answered::tally_of;
pub use counts::Counts;
pub use fault_span::FaultSpan;
pub use outcome::{Outcome, join_runs};
pub use running::{run, run_twice};
pub use tally::Tally;
pub use tenths::{panel_tenths, sum_of_tenths, tenths_of};
pub use theorems::{counts_are_steps, runs_join};
