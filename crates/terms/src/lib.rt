// What the hub's programs call things.
#![tactic(auto)]

mod calls;
mod faults;

pub use calls::{ExceptionText, RefusalText};
pub use faults::{FaultAt, FaultText};
