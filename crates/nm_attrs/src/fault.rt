//! Why the attributes of a file aren't read.
ghost use Rattle.std.specs.Prelude.{◌≡◌};

use nm_items::ReadFault;
use nm_xdr::XdrFault;

/// Why attributes aren't read: the first that holds.
#[derive(Clone, Copy, Debug)]
pub enum AttrFault {
    /// An attribute isn't supported.
    Unsupported {
        /// The least number of such an attribute.
        bit: u32,
    },
    /// The bytes aren't the values of the attributes, or they go on behind them.
    Xdr(XdrFault),
    /// There was no memory for what is kept.
    Memory,
}

impl From<ReadFault> for AttrFault {
    ghost use Rattle.nm_attrs.specs.Takes.{as_attr_fault};

    ghost from_gives = { λ e fault. fault ≡ as_attr_fault e };

    fn from(fault: ReadFault) -> Self {
        match fault {
            ReadFault::Xdr(fault) => AttrFault::Xdr(fault),
            ReadFault::Memory => AttrFault::Memory,
        }
    }
}
