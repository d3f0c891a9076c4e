// Turns: what the host asks of the core in one, whose it is, and what came of it.
#![tactic(auto)]

mod counting;
mod degrees;
mod planning;
mod summary;
mod tallies;

pub use counting::{Counts, count};
pub use degrees::print_degrees;
pub use planning::{flat_of, plan};
pub use summary::{print_refused_reset, print_summary};
pub use tallies::{Tallies, print_tallies};
