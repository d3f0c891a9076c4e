// The lines of a script, as commands.
#![tactic(auto)]

mod parse;
mod request;

pub use parse::{Command, Mistake, Request, is_remark, read_line};
pub use request::digits;
