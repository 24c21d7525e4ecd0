//! Why a measure didn't run.
use apex_disk::OpenWhy;
use row_store::{CommitWhy, StoreWhy};
use std::alloc::AllocError;
use std::io;

#[derive(Debug, Drop)]
pub enum Why {
    Usage,
    NoMemory,
    Outside(io::Error),
    NoDisk(OpenWhy),
    NoStore(StoreWhy),
    NoCommit(CommitWhy),

    /// The last number was given to a batch.
    NoNumber,
}

impl From<AllocError> for Why {
    fn from(_: AllocError) -> Self {
        Why::NoMemory
    }
}

impl From<io::Error> for Why {
    fn from(error: io::Error) -> Self {
        Why::Outside(error)
    }
}
