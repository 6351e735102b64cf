//! Why bytes aren't results.
ghost use Rattle.std.specs.Prelude.{◌≡◌};

use nm_items::ReadFault;

/// Why results aren't read.
#[derive(Clone, Copy, Debug)]
pub enum ResultsFault {
    /// The bytes aren't results.
    At {
        /// The place of the first item that isn't all there or is outside the layout, or of the first byte left over.
        at: usize,
    },
    /// There was no memory for what is kept.
    Memory,
}

impl From<ReadFault> for ResultsFault {
    ghost use Rattle.nm_results.specs.Results.{as_results_fault};

    ghost from_gives = { λ e fault. fault ≡ as_results_fault e };

    fn from(fault: ReadFault) -> Self {
        match fault {
            ReadFault::Xdr(fault) => ResultsFault::At { at: fault.place() },
            ReadFault::Memory => ResultsFault::Memory,
        }
    }
}
