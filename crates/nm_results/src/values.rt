//! What the results of operations tell.
use nm_types::{
    AccessOk, Bytes, ChangeInfo, CreateOk, Fattr, Items, LockKind, OpStatus, OpenOk, ReadOk,
    StateId, Words, WriteOk,
};

/// The lock that is in the way of another (RFC 7531, LOCK4denied).
#[derive(Debug, Drop)]
pub struct LockDenied {
    pub offset: u64,
    /// Its length. All ones reach to the end of the file.
    pub length: u64,
    pub kind: LockKind,
    /// The client that holds it.
    pub clientid: u64,
    /// The text of the owner that holds it, of at most 1,024 bytes.
    pub owner: Bytes,
}

/// An entry of a directory (RFC 7531, entry4).
#[derive(Debug, Drop)]
pub struct DirEntry {
    /// Where a further READDIR goes on behind it.
    pub cookie: u64,
    /// At most 1,048,576 bytes.
    pub name: Bytes,
    pub attrs: Fattr,
}

/// Entries of a directory, in the order in which they are told.
pub type DirEntries = Items<DirEntry>;

/// What an OK of READDIR tells (RFC 7531, READDIR4resok).
#[derive(Debug, Drop)]
pub struct ReadDirOk {
    /// The verifier of the cookies.
    pub cookieverf: u64,
    pub entries: DirEntries,
    /// Whether the directory ends with these entries.
    pub eof: bool,
}

/// What an OK of SETCLIENTID tells (RFC 7531, SETCLIENTID4resok).
#[derive(Clone, Copy, Debug)]
pub struct SetClientIdOk {
    pub clientid: u64,
    /// The verifier by which it is confirmed.
    pub confirm: u64,
}

/// Where a client is called back (RFC 7531, clientaddr4), each of at most 1,024 bytes.
#[derive(Debug, Drop)]
pub struct ClientAddress {
    pub netid: Bytes,
    pub addr: Bytes,
}

/// The value of a result: that of the operation with its status (RFC 7530, 16; RFC 7531, nfs_resop4).
#[derive(Debug, Drop)]
pub enum ResultValue {
    /// The operation has no value with this status.
    Nothing,
    Access(AccessOk),
    Close(StateId),
    /// The verifier of what was written.
    Commit(u64),
    Create(CreateOk),
    GetAttr(Fattr),
    /// A filehandle of at most 128 bytes.
    GetFh(Bytes),
    Lock(StateId),
    /// LOCK and LOCKT with DENIED.
    Denied(LockDenied),
    LockU(StateId),
    Open(OpenOk),
    OpenConfirm(StateId),
    OpenDowngrade(StateId),
    Read(ReadOk),
    ReadDir(ReadDirOk),
    /// The change of the directory.
    Remove(ChangeInfo),
    /// The attributes that were set. SETATTR has them with every status.
    SetAttr(Words),
    SetClientId(SetClientIdOk),
    /// SETCLIENTID with CLID_INUSE: the client that uses the name.
    ClientInUse(ClientAddress),
    Write(WriteOk),
}

/// The result of one operation.
#[derive(Debug, Drop)]
pub struct OpResult {
    /// The operation's number: one of 3 to 39, or 10044 for one that isn't known.
    pub op: u32,
    pub status: OpStatus,
    pub value: ResultValue,
}

/// The results of operations, in their order.
pub type ResultList = Items<OpResult>;

/// The results of a compound (RFC 7531, COMPOUND4res).
#[derive(Debug, Drop)]
pub struct Results {
    /// The status of the whole.
    pub status: OpStatus,
    /// What the request gave as its tag, of at most 1,024 bytes.
    pub tag: Bytes,
    pub items: ResultList,
}
