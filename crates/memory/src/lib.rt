// The memory of a hub for two flats, and the regions that wall them off from each other.
#![tactic(auto)]

mod flats;
mod pile;
mod regions;
mod trouble;
mod view;

pub use flats::Flat;
pub use pile::{
    ERASED, FLASH_BASE, FLASH_SIZE, Memory, PANEL_BASE, RAM_BASE, RAM_SIZE, build, burn,
};
pub use regions::{hand_to, prepare, start};
pub use trouble::Trouble;
pub use view::{print_panel, print_words};
