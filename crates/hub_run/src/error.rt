// What ends the program early.
use memory::Trouble;
use std::alloc::AllocError;
use std::io;
use thiserror::Error;

#[derive(Debug, Drop, Error)]
pub enum HubError {
    // the command line, in the words of its mistake
    #[error("{0}; see `hub --help`")]
    Usage(String),
    #[error("cannot read `{0}`: {1}")]
    Unreadable(String, io::Error),
    // an image with so many bytes
    #[error("`{0}` has {1} bytes: an image has at most 4096")]
    TooLong(String, usize),
    #[error(transparent)]
    Trouble(#[from] Trouble),
}

// The program runs out of memory, or fails to print, as work on a hub does.
impl From<AllocError> for HubError {
    fn from(error: AllocError) -> HubError {
        HubError::Trouble(Trouble::from(error))
    }
}

impl From<io::Error> for HubError {
    fn from(error: io::Error) -> HubError {
        HubError::Trouble(Trouble::from(error))
    }
}
