// The words of the hub's command line.
#![tactic(auto)]

mod asked;
mod command;
mod count;
mod mistake;

pub use asked::{Asked, Options};
pub use command::parse;
pub use count::Count;
pub use mistake::Mistake;
