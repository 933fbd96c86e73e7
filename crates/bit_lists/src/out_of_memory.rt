//! Want of memory, the one answer that no clause ties to its cause.
use std::alloc::{AllocError, AllocFailed};

/// Memory was wanted and refused.
#[derive(Clone, Copy, Debug, PartialEq, Eq)]
pub struct OutOfMemory;

impl From<AllocError> for OutOfMemory {
    ghost from_gives = { λ _ _. Unit {0} };

    fn from(_: AllocError) -> Self {
        OutOfMemory
    }
}

impl<T: Drop> From<AllocFailed<T>> for OutOfMemory {
    ghost from_gives = { λ _ _. Unit {0} };

    fn from(_: AllocFailed<T>) -> Self {
        OutOfMemory
    }
}
