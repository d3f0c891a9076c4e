// What ends the program early.
use bus::{Fault, Refusal};
use memory::Trouble;
use std::io;
use thiserror::Error;

#[derive(Debug, Drop, Error)]
pub enum HubError {
    // a part cannot be built, or a region set, as it was asked for
    #[error("the memory cannot be built (refusal {number})", number = .0.number())]
    Refused(#[from] Refusal),
    // the image cannot be put into the flash
    #[error("the flash takes no image at 0x{address:08x} (cause {cause})", address = .0.address, cause = .0.cause.number())]
    Unwritable(#[from] Fault),
    #[error("cannot read the script `{0}`: {1}")]
    Unreadable(String, io::Error),
    #[error(transparent)]
    Trouble(Trouble),
}

// Of what can befall a hub, the program has words of its own for a refusal.
impl From<Trouble> for HubError {
    fn from(trouble: Trouble) -> HubError {
        match trouble {
            Trouble::Refused(refusal) => HubError::Refused(refusal),
            other => HubError::Trouble(other),
        }
    }
}
