//! What the calls on a roll take and answer.
ghost use Rattle.std.specs.Prelude.{◌≡◌, IfOk};

use nm_types::{Bytes, Ended, Instance, LeasePass, Memory, MoveNum};

/// Where a server calls a client back (RFC 7530, 16.33: cb_client4 and callback_ident).
#[derive(Drop)]
pub struct CallbackPath {
    /// The RPC program of the client's callbacks.
    pub program: u32,
    /// The kind of network, as r_netid (RFC 5665).
    pub netid: Bytes,
    /// The address, as r_addr (RFC 5665).
    pub addr: Bytes,
    /// What the client is to find in each callback.
    pub ident: u32,
}

impl CallbackPath {
    /// The same path once more.
    pub fn copy(&self) -> Result<CallbackPath, Memory>
        ensures { IfOk result (λ path. path ≡ self.now) }
    {
        Ok(CallbackPath {
            program: self.program,
            netid: self.netid.copy()?,
            addr: self.addr.copy()?,
            ident: self.ident,
        })
    }
}

/// What a client is answered that gives its string (SETCLIENTID, RFC 7530, 16.33).
#[derive(Drop)]
pub enum SetAnswer {
    /// The client is to confirm this pair.
    Given {
        /// The server's tag in the upper 16 bits, and below it a counter from 1.
        clientid: u64,
        /// The server's number in the upper 16 bits, and below it a counter from 1.
        confirm: u64,
    },
    /// The string belongs to another principal (NFS4ERR_CLID_INUSE), whose address of callbacks this is. Both are empty where its
    /// lease has lapsed or there is no such address.
    InUse {
        netid: Bytes,
        addr: Bytes,
    },
    /// 4,096 strings are known and this isn't one, or a counter is at its end, 2^48 - 1 (NFS4ERR_RESOURCE).
    Full,
}

/// What a client is answered that confirms a pair (SETCLIENTID_CONFIRM, RFC 7530, 16.34).
#[derive(Clone, Copy)]
pub enum ConfirmAnswer {
    /// It is confirmed. Where a start of the client ended by that, it is told.
    Done { ended: Option<Ended> },
    /// The pair isn't known (NFS4ERR_STALE_CLIENTID).
    Stale,
    /// The pair was given to another principal (NFS4ERR_CLID_INUSE).
    InUse,
}

/// What the roll says of a client that has come.
#[derive(Clone, Copy)]
pub enum Touch {
    /// Its lease stands, and is renewed.
    Pass(LeasePass),
    /// So it does, and a file system where it has state has moved away (NFS4ERR_LEASE_MOVED).
    Moved(LeasePass),
    /// No confirmed record of it is known (NFS4ERR_STALE_CLIENTID).
    Stale,
    /// Its lease has lapsed (NFS4ERR_EXPIRED).
    Expired,
}

/// What comes of reserving the leases of those who have state in a file system that is to come.
#[derive(Drop)]
pub enum Reserve {
    /// Each of them has a record here, with a lease that doesn't lapse until the move is settled or given up. The passes are in
    /// the order of the instances.
    Passes(Vec<LeasePass>),
    /// A later move of the file system, of that number, has reserved them.
    Old { known: MoveNum },
    /// Another start of a client than the one that has state there, or another principal, is known here.
    Differs { here: Instance, there: Instance },
    /// 4,096 strings are known and a further one would be needed, or the counter of clientids is at its end, 2^48 - 1.
    Full,
}
