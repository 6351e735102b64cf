//! What is wrong with a line that is no case.
use nm_types::Memory;
use std::alloc::AllocError;

/// What is wrong with a line.
#[derive(Clone, Copy)]
pub(crate) enum Fault {
    /// A word isn't one of those that may stand there, or there are more or fewer words.
    Word,
    /// A number isn't one, or is past its bounds.
    Number,
    /// An allocation failed.
    Memory,
}

impl Fault {
    /// The word that is printed of it.
    pub(crate) fn text(self) -> &'static [u8] {
        match self {
            Fault::Word => b"word",
            Fault::Number => b"number",
            Fault::Memory => b"memory",
        }
    }
}

impl From<Memory> for Fault {
    fn from(_: Memory) -> Self {
        Fault::Memory
    }
}

impl From<AllocError> for Fault {
    fn from(_: AllocError) -> Self {
        Fault::Memory
    }
}
