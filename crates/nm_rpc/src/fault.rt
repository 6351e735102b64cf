//! Why a piece of a stream isn't taken.

use nm_types::Memory;

/// Why a piece of a stream of records isn't taken.
#[derive(Clone, Copy, Debug)]
pub enum RecordFault {
    /// A record is longer than the limit.
    TooLong {
        /// How many bytes it would have with the fragment that was announced last.
        got: u64,
    },
    /// There was no memory for what the piece adds.
    Memory,
}

impl From<Memory> for RecordFault {
    ghost use Rattle.std.specs.Prelude.{◌≡◌};
    ghost use Rattle.nm_rpc.specs.declared.fault.RecordFault.TheVariants.{Memory as OutOfMemory};

    ghost from_gives = { λ _ fault. fault ≡ OutOfMemory };

    fn from(_: Memory) -> Self {
        RecordFault::Memory
    }
}
