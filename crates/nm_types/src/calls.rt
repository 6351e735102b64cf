//! Calls that reach a file system, their replies, and the entries that they leave.
ghost use Rattle.std.specs.Prelude.{◌≡◌, ◌↔◌, IfOk, IsTrue};
ghost use Rattle.nm_types.specs.Owners.{same_owner};
ghost use Rattle.nm_types.specs.Calls.{locker_seqid, seqid_of};

use crate::{
    AccessArgs, AccessOk, Bytes, ChangeInfo, CloseArgs, CommitArgs, CreateArgs, Created, Denied,
    GetAttrArgs, GetAttrOk, Instance, Items, LockArgs, LockOutcome, LockTestArgs, Locker,
    LookupArgs, Memory, OpStatus, OpenArgs, OpenConfirmArgs, OpenDowngradeArgs, Opened, ReadArgs,
    ReadDirArgs, ReadDirOk, ReadOk, ReleaseLockOwnerArgs, RemoveArgs, SetAttrArgs, UnlockArgs,
    Words, WriteArgs, WriteOk,
};

/// What an owner owns (RFC 7530, 9.1.4): opens, or byte-range locks.
#[derive(Clone, Copy, Debug, PartialEq, Eq)]
pub enum OwnerKind {
    Opens,
    Locks,
}

/// An open owner or a lock owner of one client instance (RFC 7530, 9.1.4). In each file system it is an owner of
/// its own.
#[derive(PartialEq, Eq)]
pub struct Owner {
    /// The client's instance.
    pub instance: Instance,
    /// What it owns.
    pub kind: OwnerKind,
    /// The text that the client chose, of at most 1,024 bytes.
    pub text: Bytes,
}

impl Drop for Owner {
    fn drop(self) {
        let Owner {
            instance: _,
            kind: _,
            text: _,
        } = self;
    }
}

impl Owner {
    /// Whether both are the same owner: instance, kind and text are equal.
    pub fn is_same(&self, other: &Owner) -> bool
        ensures value { result ≡ same_owner self.now other.now }
        ensures same { IsTrue result ↔ (self.now ≡ other.now) }
    {
        self == other
    }

    /// The same owner once more.
    pub fn copy(&self) -> Result<Owner, Memory>
        ensures { IfOk result (λ owner. owner ≡ self.now) }
    {
        Ok(Owner {
            instance: self.instance,
            kind: self.kind,
            text: self.text.copy()?,
        })
    }
}

/// A stateid as this server makes it (RFC 7530, 9.1.4): its seqid, from 1, and behind it the file system and a
/// counter, from 1.
#[derive(Clone, Copy, Debug, PartialEq, Eq)]
pub struct StateId {
    pub seqid: u32,
    pub fs: u32,
    pub counter: u64,
}

/// A stateid as a request gives it: the special ones of all zeros or all ones (RFC 7530, 9.1.4.3), or one that a
/// server made.
#[derive(Clone, Copy, Debug, PartialEq, Eq)]
pub enum StateRef {
    Zeros,
    Ones,
    Named(StateId),
}

/// An operation that reaches a file system, with its arguments.
pub enum Deed {
    Access(AccessArgs),
    Close(CloseArgs),
    Commit(CommitArgs),
    Create(CreateArgs),
    GetAttr(GetAttrArgs),
    Lock(LockArgs),
    LockTest(LockTestArgs),
    Lookup(LookupArgs),
    LookupP,
    Open(OpenArgs),
    OpenConfirm(OpenConfirmArgs),
    OpenDowngrade(OpenDowngradeArgs),
    Read(ReadArgs),
    ReadDir(ReadDirArgs),
    ReleaseLockOwner(ReleaseLockOwnerArgs),
    Remove(RemoveArgs),
    SetAttr(SetAttrArgs),
    Unlock(UnlockArgs),
    Write(WriteArgs),
}

impl Drop for Deed {
    fn drop(self) {
        match self {
            Deed::Access(_) => {}
            Deed::Close(_) => {}
            Deed::Commit(_) => {}
            Deed::Create(_) => {}
            Deed::GetAttr(_) => {}
            Deed::Lock(_) => {}
            Deed::LockTest(_) => {}
            Deed::Lookup(_) => {}
            Deed::LookupP => {}
            Deed::Open(_) => {}
            Deed::OpenConfirm(_) => {}
            Deed::OpenDowngrade(_) => {}
            Deed::Read(_) => {}
            Deed::ReadDir(_) => {}
            Deed::ReleaseLockOwner(_) => {}
            Deed::Remove(_) => {}
            Deed::SetAttr(_) => {}
            Deed::Unlock(_) => {}
            Deed::Write(_) => {}
        }
    }
}

impl Locker {
    /// The seqid of the owner by which it is judged: a new lock owner's lock by that of its open owner.
    pub fn seqid(&self) -> u32
        ensures { result ≡ locker_seqid self.now }
    {
        match self {
            Locker::New { open_seqid, .. } => *open_seqid,
            Locker::Known { lock_seqid, .. } => *lock_seqid,
        }
    }
}

impl Deed {
    /// The seqid of its owner that an operation takes (RFC 7530, 9.1.7). The others take none: 0.
    #[tactic(auto, unfolding(crate::specs::Calls::seqid_of))]
    pub fn seqid(&self) -> u32
        ensures { result ≡ seqid_of self.now }
    {
        match self {
            Deed::Close(args) => args.seqid,
            Deed::Lock(args) => args.locker.seqid(),
            Deed::Open(args) => args.seqid,
            Deed::OpenConfirm(args) => args.seqid,
            Deed::OpenDowngrade(args) => args.seqid,
            Deed::Unlock(args) => args.seqid,
            _ => 0,
        }
    }
}

/// One operation, as it reaches a file system.
pub struct Call {
    /// The client instance that calls. `None` where the request names none.
    pub caller: Option<Instance>,
    /// The current file: for OPEN by name, CREATE, LOOKUP, READDIR and REMOVE the directory. The root is file 1.
    pub file: u64,
    pub deed: Deed,
}

impl Drop for Call {
    fn drop(self) {
        let Call {
            caller: _,
            file: _,
            deed: _,
        } = self;
    }
}

/// What the server's roll of clients says of the caller's lease before the operation.
#[derive(Clone, Copy, Debug)]
pub enum Verdict {
    /// It stands.
    Pass,
    /// It stands, and a file system of the client has moved away (RFC 7931, on NFS4ERR_LEASE_MOVED).
    LeaseMoved,
}

/// What happens to a file system's state.
pub enum Event {
    /// An operation is asked for.
    Asked(Call, Verdict),
    /// A client instance has ended, by a lapse of its lease or a restart: all that it holds goes.
    Ended(Instance),
}

impl Drop for Event {
    fn drop(self) {
        match self {
            Event::Asked(_, _) => {}
            Event::Ended(_) => {}
        }
    }
}

/// A delegation that has to come back before an operation can go on: whose it is, its stateid and its file.
#[derive(Clone, Copy, Debug)]
pub struct Recall {
    pub instance: Instance,
    pub stateid: StateId,
    pub file: u64,
}

/// Delegations to recall, by rising counter of the stateid.
pub type Recalls = Items<Recall>;

/// The value of a reply: that of the operation, where its status has one.
#[derive(Debug, Drop)]
pub enum ReplyValue {
    /// The reply to the end of an instance.
    Nothing,
    Access(Option<AccessOk>),
    /// The stateid as it was closed.
    Close(Option<StateId>),
    /// The verifier of the server's run.
    Commit(Option<u64>),
    Create(Option<Created>),
    GetAttr(Option<GetAttrOk>),
    Lock(Option<LockOutcome>),
    /// What is in the way of the lock that is asked for.
    LockTest(Option<Denied>),
    /// The file that becomes the current one.
    Lookup(Option<u64>),
    /// The file that becomes the current one.
    LookupP(Option<u64>),
    Open(Option<Opened>),
    /// The stateid as it was confirmed.
    OpenConfirm(Option<StateId>),
    /// The stateid as it was narrowed.
    OpenDowngrade(Option<StateId>),
    Read(Option<ReadOk>),
    ReadDir(Option<ReadDirOk>),
    /// Whether the owner was released.
    ReleaseLockOwner(bool),
    /// The change numbers of the directory.
    Remove(Option<ChangeInfo>),
    /// The words of a bitmap, with every status: the attributes that were set.
    SetAttr(Words),
    /// The stateid as the unlock left it.
    Unlock(Option<StateId>),
    Write(Option<WriteOk>),
}

/// The answer to an event.
#[derive(Debug)]
pub struct Reply {
    pub status: OpStatus,
    pub value: ReplyValue,
    /// The delegations that stand in the way.
    pub recalls: Recalls,
}

impl Reply {
    /// Its value.
    pub fn into_value(self) -> ReplyValue
        ensures { result ≡ self.value }
    {
        let Reply {
            status: _,
            value,
            recalls: _,
        } = self;
        value
    }
}

impl Drop for Reply {
    fn drop(self) {
        let Reply {
            status: _,
            value: _,
            recalls: _,
        } = self;
    }
}

/// An event and the reply to it. A file system is the list of its entries.
pub struct Entry {
    pub event: Event,
    pub reply: Reply,
}

impl Drop for Entry {
    fn drop(self) {
        let Entry { event: _, reply: _ } = self;
    }
}
