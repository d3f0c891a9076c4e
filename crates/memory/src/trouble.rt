// What ends work on a hub early.
use bus::{Fault, Refusal};
use std::alloc::AllocError;
use std::io;
use thiserror::Error;

#[derive(Debug, Drop, Error)]
pub enum Trouble {
    // a part cannot be built, or a region set, as it was asked for
    #[error("the memory cannot be set up so (refusal {number})", number = .0.number())]
    Refused(#[from] Refusal),
    // the host's own access was refused
    #[error("the host has no access to 0x{address:08x} (cause {cause})", address = .0.address, cause = .0.cause.number())]
    Faulted(#[from] Fault),
    #[error("out of memory")]
    OutOfMemory(#[from(alloc)] AllocError),
    // nothing can be printed
    #[error("cannot print: {0}")]
    Silent(#[from] io::Error),
}
