//! Why a call changed nothing.
use crate::{Memory, OpStatus};

/// Why a call changed nothing: the status that is its answer, or want of memory.
#[derive(Clone, Copy, Debug)]
pub enum Refusal {
    /// The operation is refused with this status.
    Status(OpStatus),
    /// An allocation failed.
    Memory,
}

impl From<Memory> for Refusal {
    ghost use Rattle.std.specs.Prelude.{◌≡◌};
    ghost use Rattle.nm_types.specs.declared.refusal.Refusal.TheVariants.{Memory as OutOfMemory};

    ghost from_gives = { λ _ refusal. refusal ≡ OutOfMemory };

    fn from(_: Memory) -> Self {
        Refusal::Memory
    }
}
