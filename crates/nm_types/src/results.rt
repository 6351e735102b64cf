//! Values of results that a file system's replies share (RFC 7530, 16; RFC 7531).
use crate::{Bytes, Instance, Items, StateId};

/// What an OK of ACCESS tells (RFC 7531, ACCESS4resok): rights, by their bits.
#[derive(Clone, Copy, Debug)]
pub struct AccessOk {
    /// Those of the asked rights that can be told.
    pub supported: u32,
    /// Those of them that the caller has.
    pub access: u32,
}

/// The change numbers of a directory around a change of it (RFC 7531, change_info4). Here they are always atomic.
#[derive(Clone, Copy, Debug)]
pub struct ChangeInfo {
    pub before: u64,
    pub after: u64,
}

/// What an OK of CREATE tells (RFC 7531, CREATE4resok).
#[derive(Debug, Drop)]
pub struct CreateOk {
    /// That of the directory.
    pub cinfo: ChangeInfo,
    /// The words of a bitmap, at most 8: the attributes that were set.
    pub attrset: Items<u32>,
}

/// What an OK of CREATE leaves: what it tells, and the directory that was made, which becomes the current file.
#[derive(Debug, Drop)]
pub struct Created {
    pub ok: CreateOk,
    pub file: u64,
}

/// The attributes of a file that change from file to file.
#[derive(Clone, Copy, Debug)]
pub struct FileAttrs {
    /// Its type (RFC 7531, nfs_ftype4): 1 a regular file, 2 a directory.
    pub kind: u32,
    pub mode: u32,
    /// In bytes. A directory's is 0.
    pub size: u64,
    /// Its change number: that of its file system at its latest change.
    pub change: u64,
    /// Its number.
    pub file: u64,
}

/// What an OK of GETATTR tells (RFC 7531, GETATTR4resok): the file's attributes, and the words of the bitmap that was asked.
#[derive(Debug, Drop)]
pub struct GetAttrOk {
    pub attributes: FileAttrs,
    pub words: Items<u32>,
}

/// The delegation that an OPEN grants (RFC 7531, open_delegation4), by its stateid.
#[derive(Clone, Copy, Debug)]
pub enum OpenDelegation {
    None,
    Read(StateId),
    Write(StateId),
}

/// What an OK of OPEN tells (RFC 7531, OPEN4resok).
#[derive(Debug, Drop)]
pub struct OpenOk {
    pub stateid: StateId,
    /// That of the directory.
    pub cinfo: ChangeInfo,
    /// Bits: 2 where the owner has to confirm, 4 where locks follow POSIX.
    pub rflags: u32,
    /// The words of a bitmap, at most 8: the attributes that were set.
    pub attrset: Items<u32>,
    pub delegation: OpenDelegation,
}

/// What an OK of OPEN leaves: what it tells, and the file that is open, which becomes the current one.
#[derive(Debug, Drop)]
pub struct Opened {
    pub ok: OpenOk,
    pub file: u64,
}

/// An entry of a directory (RFC 7531, entry4). Its cookie is its file's number.
#[derive(Debug, Drop)]
pub struct DirEntry {
    pub cookie: u64,
    pub name: Bytes,
    /// Where an attribute was asked.
    pub attributes: Option<FileAttrs>,
}

/// What an OK of READDIR tells (RFC 7531, READDIR4resok). The verifier of its cookies is 0.
#[derive(Debug, Drop)]
pub struct ReadDirOk {
    /// The words of the bitmap that was asked.
    pub words: Items<u32>,
    /// By rising cookie.
    pub entries: Items<DirEntry>,
    /// Whether the directory ends with these entries.
    pub eof: bool,
}

/// What an OK of READ tells (RFC 7531, READ4resok).
#[derive(Debug, Drop)]
pub struct ReadOk {
    /// Whether the file ends with these bytes.
    pub eof: bool,
    /// At most 65,536 bytes.
    pub data: Bytes,
}

/// What an OK of WRITE tells (RFC 7531, WRITE4resok).
#[derive(Clone, Copy, Debug)]
pub struct WriteOk {
    /// How many bytes were written.
    pub count: u32,
    /// How far they came: 2 is to stable storage, with all that belongs to the file.
    pub committed: u32,
    /// What stands for the server's run: a new one tells that what wasn't committed may be lost.
    pub writeverf: u64,
}

/// The kind of a byte-range lock (RFC 7531, nfs_lock_type4).
#[derive(Clone, Copy, Debug)]
pub enum LockKind {
    Read,
    Write,
}

/// A range of bytes that a byte-range lock holds (RFC 7530, 9.2).
#[derive(Clone, Copy, Debug)]
pub struct LockRange {
    pub kind: LockKind,
    /// Its first byte.
    pub first: u64,
    /// Its last byte, which isn't before the first. 2^64 - 1 reaches to the end of every file.
    pub last: u64,
}

/// What is in the way of a lock (RFC 7531, LOCK4denied).
#[derive(Debug, Drop)]
pub struct Denied {
    pub range: LockRange,
    /// The text of the owner that holds it.
    pub owner: Bytes,
    /// The instance of that owner. A client isn't told it.
    pub instance: Option<Instance>,
}

/// What LOCK tells (RFC 7531, LOCK4res).
#[derive(Debug, Drop)]
pub enum LockOutcome {
    /// The lock stands: the stateid of the lock owner, as the lock left it.
    Locked(StateId),
    /// Another owner's lock is in the way.
    Denied(Denied),
}
