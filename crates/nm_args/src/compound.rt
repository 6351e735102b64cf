//! What a COMPOUND asks, and why its arguments aren't read.
ghost use Rattle.std.specs.Prelude.{◌≡◌};

use crate::Ops;
use nm_items::ReadFault;
use nm_types::{Bytes, Memory};

/// The arguments of a COMPOUND (RFC 7530, 15.2).
#[derive(Drop)]
pub struct Compound {
    /// The client's tag, of at most 1,024 bytes.
    pub tag: Bytes,
    /// The minor version that is asked.
    pub minor: u32,
    /// The operations, as far as they are read.
    pub ops: Ops,
    /// How they end.
    pub end: CompoundEnd,
}

/// How the operations of a COMPOUND end.
#[derive(Clone, Copy, Debug)]
pub enum CompoundEnd {
    /// All are read, and nothing follows them.
    Clean,
    /// The minor version isn't 0. No operation is read.
    Minor,
    /// There are more than 64 operations. None is read.
    TooMany {
        /// How many there are.
        count: u32,
    },
    /// The arguments of the next operation can't be read. What follows isn't looked at.
    BadXdr {
        /// Its number.
        op: u32,
    },
    /// No operation has the next number. What follows isn't looked at.
    Illegal {
        /// The number.
        number: u32,
    },
}

/// Why bytes aren't the arguments of a COMPOUND.
#[derive(Clone, Copy, Debug)]
pub enum ArgsFault {
    /// The tag, the minor version, the count or an operation's number can't be read, or bytes follow the last operation.
    GarbageAt {
        /// The place of the first byte of the item that can't be read, or of the first that is left over.
        at: usize,
    },
    /// There was no memory for what is kept.
    Memory,
}

impl From<ReadFault> for ArgsFault {
    ghost use Rattle.nm_args.specs.Compounds.{as_garbage};

    ghost from_gives = { λ e fault. fault ≡ as_garbage e };

    fn from(fault: ReadFault) -> Self {
        match fault {
            ReadFault::Xdr(fault) => ArgsFault::GarbageAt { at: fault.place() },
            ReadFault::Memory => ArgsFault::Memory,
        }
    }
}

impl From<Memory> for ArgsFault {
    ghost use Rattle.nm_args.specs.declared.compound.ArgsFault.TheVariants.{Memory as OutOfMemory};

    ghost from_gives = { λ _ fault. fault ≡ OutOfMemory };

    fn from(_: Memory) -> Self {
        ArgsFault::Memory
    }
}
