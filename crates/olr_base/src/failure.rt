//! The errors that any crate may meet.

use std::alloc::{AllocError, AllocFailed};

/// The allocator refused the memory that a call asked for.
#[derive(Clone, Copy, Debug, PartialEq, Eq)]
pub struct NoMemory;

impl From<AllocError> for NoMemory {
    fn from(_error: AllocError) -> NoMemory {
        NoMemory
    }
}

impl<T: Drop> From<AllocFailed<T>> for NoMemory {
    fn from(_error: AllocFailed<T>) -> NoMemory {
        NoMemory
    }
}

/// A call on a device, as a file or a terminal, failed. The cause is not kept.
#[derive(Clone, Copy, Debug, PartialEq, Eq)]
pub struct Failed;
