//! The arguments of operations as requests give them (RFC 7530, 16; RFC 7531). Clientids stand beside them.
use crate::{Bytes, Items, StateRef};

/// Words of a bitmap (RFC 7531, bitmap4): at most 8.
pub type Words = Items<u32>;

/// Attributes as they came (RFC 7531, fattr4): the words of their bitmap, and the bytes of their values, of which there are at
/// most 65,536. Whether these are values of the attributes isn't known.
#[derive(Debug, PartialEq, Eq, Drop)]
pub struct Fattr {
    pub words: Words,
    pub values: Bytes,
}

/// The arguments of ACCESS (RFC 7530, 16.1).
#[derive(Clone, Copy, Debug)]
pub struct AccessArgs {
    /// The rights that are asked, by their bits.
    pub access: u32,
}

/// The arguments of CLOSE (RFC 7530, 16.2).
#[derive(Clone, Copy, Debug, PartialEq, Eq)]
pub struct CloseArgs {
    /// The open owner's next number.
    pub seqid: u32,
    /// The open that is closed.
    pub stateid: StateRef,
}

/// The arguments of COMMIT (RFC 7530, 16.3).
#[derive(Clone, Copy, Debug)]
pub struct CommitArgs {
    pub offset: u64,
    pub count: u32,
}

/// The two numbers of a device (RFC 7531, specdata4).
#[derive(Clone, Copy, Debug)]
pub struct Device {
    pub major: u32,
    pub minor: u32,
}

/// What CREATE makes (RFC 7530, 16.4; RFC 7531, createtype4).
#[derive(Debug, Drop)]
pub enum CreateType {
    File,
    Directory,
    Block(Device),
    Character(Device),
    /// A symbolic link, with its text of at most 1,048,576 bytes.
    Link(Bytes),
    Socket,
    Fifo,
    AttributeDirectory,
    NamedAttribute,
}

/// The arguments of CREATE (RFC 7530, 16.4).
#[derive(Debug, Drop)]
pub struct CreateArgs {
    pub kind: CreateType,
    pub name: Bytes,
    pub attributes: Fattr,
}

/// The arguments of DELEGRETURN (RFC 7530, 16.6).
#[derive(Clone, Copy, Debug)]
pub struct DelegReturnArgs {
    pub stateid: StateRef,
}

/// The arguments of GETATTR (RFC 7530, 16.7).
#[derive(Debug, Drop)]
pub struct GetAttrArgs {
    pub words: Words,
}

/// The type of a lock that is asked (RFC 7530, 16.10; RFC 7531, nfs_lock_type4).
#[derive(Clone, Copy, Debug, PartialEq, Eq)]
pub enum LockType {
    Read,
    Write,
    /// READW_LT: the client will ask again.
    ReadWait,
    /// WRITEW_LT: the client will ask again.
    WriteWait,
}

/// Who locks (RFC 7530, 16.10; RFC 7531, locker4).
#[derive(Debug, PartialEq, Eq, Drop)]
pub enum Locker {
    /// An owner that has no lock stateid on the file yet.
    New {
        /// The open owner's next number.
        open_seqid: u32,
        /// The open's stateid.
        stateid: StateRef,
        /// The lock owner's first number.
        lock_seqid: u32,
        /// The lock owner's text, of at most 1,024 bytes.
        owner: Bytes,
    },
    /// An owner that has one.
    Known {
        /// The lock's stateid.
        stateid: StateRef,
        /// The lock owner's next number.
        lock_seqid: u32,
    },
}

/// The arguments of LOCK (RFC 7530, 16.10), without the clientid.
#[derive(Debug, PartialEq, Eq, Drop)]
pub struct LockArgs {
    pub kind: LockType,
    pub reclaim: bool,
    pub offset: u64,
    pub length: u64,
    pub locker: Locker,
}

/// The arguments of LOCKT (RFC 7530, 16.11), without the clientid.
#[derive(Debug, Drop)]
pub struct LockTestArgs {
    pub kind: LockType,
    pub offset: u64,
    pub length: u64,
    /// The lock owner's text, of at most 1,024 bytes.
    pub owner: Bytes,
}

/// The arguments of LOCKU (RFC 7530, 16.12).
#[derive(Clone, Copy, Debug, PartialEq, Eq)]
pub struct UnlockArgs {
    pub kind: LockType,
    /// The lock owner's next number.
    pub seqid: u32,
    /// The lock's stateid.
    pub stateid: StateRef,
    pub offset: u64,
    pub length: u64,
}

/// The arguments of LOOKUP (RFC 7530, 16.13).
#[derive(Debug, Drop)]
pub struct LookupArgs {
    pub name: Bytes,
}

/// Whether an OPEN makes the file, and how (RFC 7530, 16.16; RFC 7531, openflag4).
#[derive(Debug, PartialEq, Eq, Drop)]
pub enum OpenType {
    NoCreate,
    /// UNCHECKED4, with attributes for a file that is made.
    Unchecked(Fattr),
    /// GUARDED4, with attributes for the file that is made.
    Guarded(Fattr),
    /// EXCLUSIVE4, with the verifier by which the file is known as made.
    Exclusive(u64),
}

/// By what an OPEN names its file (RFC 7530, 16.16; RFC 7531, open_claim4).
#[derive(Debug, PartialEq, Eq, Drop)]
pub enum Claim {
    /// CLAIM_NULL: by its name in the current directory.
    Null(Bytes),
    /// CLAIM_PREVIOUS: the current file, with the type of delegation that was held.
    Previous(u32),
    /// CLAIM_DELEGATE_CUR: by a delegation and the file's name.
    DelegateCur { stateid: StateRef, name: Bytes },
    /// CLAIM_DELEGATE_PREV: by the file's name, of a delegation from before the client's restart.
    DelegatePrev(Bytes),
}

/// The arguments of OPEN (RFC 7530, 16.16), without the clientid.
#[derive(Debug, Drop)]
pub struct OpenArgs {
    /// The open owner's next number.
    pub seqid: u32,
    /// What the opener will do: 1 reads, 2 writes, 3 both.
    pub access: u32,
    /// What others may not do meanwhile: 0 nothing is denied, 1 reading, 2 writing, 3 both.
    pub deny: u32,
    /// The open owner's text, of at most 1,024 bytes.
    pub owner: Bytes,
    pub opentype: OpenType,
    pub claim: Claim,
}

/// The arguments of OPEN_CONFIRM (RFC 7530, 16.18).
#[derive(Clone, Copy, Debug, PartialEq, Eq)]
pub struct OpenConfirmArgs {
    pub stateid: StateRef,
    /// The open owner's next number.
    pub seqid: u32,
}

/// The arguments of OPEN_DOWNGRADE (RFC 7530, 16.19).
#[derive(Clone, Copy, Debug, PartialEq, Eq)]
pub struct OpenDowngradeArgs {
    pub stateid: StateRef,
    /// The open owner's next number.
    pub seqid: u32,
    pub access: u32,
    pub deny: u32,
}

/// The arguments of READ (RFC 7530, 16.23).
#[derive(Clone, Copy, Debug)]
pub struct ReadArgs {
    pub stateid: StateRef,
    pub offset: u64,
    pub count: u32,
}

/// The arguments of READDIR (RFC 7530, 16.24).
#[derive(Debug, Drop)]
pub struct ReadDirArgs {
    pub cookie: u64,
    /// The verifier of the cookie.
    pub verifier: u64,
    pub dircount: u32,
    pub maxcount: u32,
    /// The attributes that are asked of each entry.
    pub words: Words,
}

/// The arguments of REMOVE (RFC 7530, 16.26).
#[derive(Debug, Drop)]
pub struct RemoveArgs {
    pub name: Bytes,
}

/// The arguments of SETATTR (RFC 7530, 16.32).
#[derive(Debug, Drop)]
pub struct SetAttrArgs {
    pub stateid: StateRef,
    pub attributes: Fattr,
}

/// How far a WRITE has to reach before it is answered (RFC 7530, 16.36; RFC 7531, stable_how4).
#[derive(Clone, Copy, Debug)]
pub enum Stable {
    Unstable,
    DataSync,
    FileSync,
}

/// The arguments of WRITE (RFC 7530, 16.36).
#[derive(Debug, Drop)]
pub struct WriteArgs {
    pub stateid: StateRef,
    pub offset: u64,
    pub stable: Stable,
    /// At most 1,048,576 bytes.
    pub data: Bytes,
}

/// The arguments of RELEASE_LOCKOWNER (RFC 7530, 16.37), without the clientid.
#[derive(Debug, Drop)]
pub struct ReleaseLockOwnerArgs {
    /// The lock owner's text, of at most 1,024 bytes.
    pub owner: Bytes,
}
