//! The refusal of memory.
use std::alloc::{AllocError, AllocFailed};
use thiserror::Error;

/// Memory was refused: the one answer that may come from any call that allocates.
#[derive(Clone, Copy, Debug, PartialEq, Eq, Error)]
#[error("memory was refused: try a machine or a limit with more of it")]
pub struct NoMemory;

impl<T: Drop> From<AllocFailed<T>> for NoMemory {
    fn from(_refused: AllocFailed<T>) -> NoMemory {
        NoMemory
    }
}

impl From<AllocError> for NoMemory {
    fn from(_refused: AllocError) -> NoMemory {
        NoMemory
    }
}
