//! Why an item of a message isn't read.
ghost use Rattle.std.specs.Prelude.{◌≡◌};

use nm_types::Memory;
use nm_xdr::XdrFault;

/// Why an item of a message isn't read.
#[derive(Clone, Copy, Debug)]
pub enum ReadFault {
    /// The bytes aren't the item's.
    Xdr(XdrFault),
    /// There was no memory for what the item keeps.
    Memory,
}

impl From<XdrFault> for ReadFault {
    ghost use Rattle.nm_items.specs.declared.fault.ReadFault.TheVariants.{Xdr};

    ghost from_gives = { λ e fault. fault ≡ Xdr e };

    fn from(fault: XdrFault) -> Self {
        ReadFault::Xdr(fault)
    }
}

impl From<Memory> for ReadFault {
    ghost use Rattle.nm_items.specs.declared.fault.ReadFault.TheVariants.{Memory as OutOfMemory};

    ghost from_gives = { λ _ fault. fault ≡ OutOfMemory };

    fn from(_: Memory) -> Self {
        ReadFault::Memory
    }
}
