//! What a server asks of a client, and why bytes aren't that.
ghost use Rattle.std.specs.Prelude.{◌≡◌};

use nm_types::{Handle, StateId};
use nm_xdr::XdrFault;

/// The version of a client's program (RFC 7531, NFS4_CALLBACK).
pub(crate) const VERSION: u32 = 1;

/// A call from a server to a client (RFC 7530, 15.3 and 16). Each has the xid, the number that the reply will have.
#[derive(Clone, Copy, Debug)]
pub enum Callback {
    /// CB_NULL, which asks for nothing but a reply.
    Null {
        xid: u32,
    },
    /// CB_RECALL: the client is to give a delegation back (RFC 7530, 16.2.6).
    Recall {
        xid: u32,
        /// The number by which the client named this path for callbacks.
        ident: u32,
        /// The delegation's stateid, of any 16 bytes.
        state: StateId,
        /// The file.
        handle: Handle,
    },
    /// CB_GETATTR: the client is asked for attributes of a file (RFC 7530, 16.2.5).
    GetAttr {
        xid: u32,
    },
    /// An operation with another number than 3 and 4 (RFC 7530, 16.2.7).
    Illegal {
        xid: u32,
    },
}

/// Why bytes aren't a callback.
#[derive(Clone, Copy, Debug)]
pub enum CallbackFault {
    /// An item isn't all there or has another value than it must, or bytes are left over.
    At {
        /// The place of the first byte of the first such item, else of the first byte left over.
        at: usize,
    },
    /// There was no memory. Reading a callback takes none, so [`crate::read_callback`] never answers this.
    Memory,
}

impl From<XdrFault> for CallbackFault {
    ghost use Rattle.nm_callback.specs.Callbacks.{as_callback_fault};

    ghost from_gives = { λ e fault. fault ≡ as_callback_fault e };

    fn from(fault: XdrFault) -> Self {
        CallbackFault::At { at: fault.place() }
    }
}
