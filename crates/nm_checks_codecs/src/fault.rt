//! Why a line has no answer.
use std::alloc::{AllocError, AllocFailed};

/// Why a line has no answer.
#[derive(Clone, Copy)]
pub(crate) enum Fault {
    /// It is no case.
    NoCase,
    /// An allocation failed.
    Memory,
}

impl From<AllocError> for Fault {
    fn from(_: AllocError) -> Fault {
        Fault::Memory
    }
}

impl<T: Drop> From<AllocFailed<T>> for Fault {
    fn from(_: AllocFailed<T>) -> Fault {
        Fault::Memory
    }
}

impl From<nm_types::Memory> for Fault {
    fn from(_: nm_types::Memory) -> Fault {
        Fault::Memory
    }
}
