// The memory parts: each is a bus, proved against the meaning of one.
#![tactic(auto)]

mod hop;
mod little_endian;
mod panel;
mod region;
mod region_check;
mod split;
mod strip;

pub use panel::Panel;
pub use region::Setting;
pub use region_check::RegionCheck;
pub use split::{Limit, Split};
pub use strip::Strip;
