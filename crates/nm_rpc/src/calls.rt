//! What calls are, and what they are refused with.
ghost use Rattle.std.specs.Prelude.{◌≡◌};

use nm_types::{Bytes, Memory, Principal};

/// A program that is served, in one version, with the procedures from 0 to the greatest.
#[derive(Clone, Copy, Debug)]
pub struct Service {
    pub program: u32,
    pub version: u32,
    /// The number of its last procedure.
    pub greatest: u32,
}

/// What stands before a call's body (RFC 5531, 9).
#[derive(Debug, Drop)]
pub struct CallHead {
    /// The number that the reply will have.
    pub xid: u32,
    pub program: u32,
    pub version: u32,
    pub procedure: u32,
    /// Who calls. Without a name its flavor and its uid are 0.
    pub principal: Principal,
    /// The machine that AUTH_SYS names, of at most 255 bytes. Without a name it is empty.
    pub machine: Bytes,
    /// How many bytes of the message stand before the body.
    pub body: usize,
}

/// Why bytes aren't a call that is served: the first that holds, of those for which the items that can be read stand.
#[derive(Clone, Copy, Debug)]
pub enum CallFault {
    /// The xid or the kind of message can't be read, or it isn't a call. Nothing is answered.
    NotCall,
    /// The version of RPC isn't 2.
    RpcVersion {
        xid: u32,
    },
    /// The flavor of the credential is neither 0 (AUTH_NONE) nor 1 (AUTH_SYS), or a credential of AUTH_SYS isn't of its
    /// layout (RFC 5531, appendix A).
    Auth {
        xid: u32,
    },
    /// There is no service of the program.
    Program {
        xid: u32,
    },
    /// The program is served, in another version.
    Version {
        xid: u32,
        /// The lowest version that is served.
        low: u32,
        /// The highest version that is served.
        high: u32,
    },
    /// The procedure is past the greatest of the service.
    Proc {
        xid: u32,
    },
    /// Another item of the header can't be read.
    Garbage {
        xid: u32,
        /// The place of its first byte.
        at: usize,
    },
    /// There was no memory for the machine's name.
    Memory,
}

impl From<Memory> for CallFault {
    ghost use Rattle.nm_rpc.specs.declared.calls.CallFault.TheVariants.{Memory as OutOfMemory};

    ghost from_gives = { λ _ fault. fault ≡ OutOfMemory };

    fn from(_: Memory) -> Self {
        CallFault::Memory
    }
}
