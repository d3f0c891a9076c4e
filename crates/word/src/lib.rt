//! What Armv6-M instructions compute: pure functions on words, flags and sets of bits.
#![tactic(auto)]

mod addresses;
mod bitwise;
mod compare;
mod conditions;
mod extend;
mod fields;
mod flags;
mod products;
mod reverse;
mod sets;
mod shifts;
mod sums;
#[cfg(test)]
mod tests;

pub use addresses::align;
pub use bitwise::{Logic, logical, not};
pub use compare::{compared, difference};
pub use conditions::Condition;
pub use extend::{sign_extend, zero_extend};
pub use fields::{bit, field};
pub use flags::Flags;
pub use products::mul;
pub use reverse::{rev, rev16, revsh};
pub use sets::{has, least, with, without};
pub use shifts::{Shift, Shifted, shift_c};
pub use sums::{Sum, add_with_carry};
