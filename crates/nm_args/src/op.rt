//! Operations with their arguments, one variant for each (RFC 7530, 16; RFC 7531, nfs_argop4).
ghost use Rattle.std.specs.Prelude.{◌≡◌};
ghost use Rattle.nm_args.specs.Operations.{number_of, code_of_number, code_of};
ghost use Rattle.nm_args.specs.Deeds.{has_deed, deed_of};

use nm_types::{
    AccessArgs, Bytes, CloseArgs, CommitArgs, CreateArgs, Deed, DelegReturnArgs, Fattr,
    GetAttrArgs, LockArgs, LockTestArgs, Locker, LookupArgs, OpenArgs, OpenConfirmArgs,
    OpenDowngradeArgs, ReadArgs, ReadDirArgs, ReleaseLockOwnerArgs, RemoveArgs, SetAttrArgs,
    UnlockArgs, WriteArgs,
};

/// OPEN's arguments, and the clientid of its owner.
#[derive(Debug, Drop)]
pub struct OwnedOpen {
    pub clientid: u64,
    pub args: OpenArgs,
}

/// LOCK's arguments, and the clientid of its owner where it is new, else 0.
#[derive(Debug, Drop)]
pub struct OwnedLock {
    pub clientid: u64,
    pub args: LockArgs,
}

/// Who locks, and the clientid where the owner is new, else 0.
#[derive(Debug, Drop)]
pub struct OwnedLocker {
    pub clientid: u64,
    pub locker: Locker,
}

/// LOCKT's arguments, and the clientid of its owner.
#[derive(Debug, Drop)]
pub struct OwnedLockTest {
    pub clientid: u64,
    pub args: LockTestArgs,
}

/// RELEASE_LOCKOWNER's arguments, and the clientid of its owner.
#[derive(Debug, Drop)]
pub struct OwnedRelease {
    pub clientid: u64,
    pub args: ReleaseLockOwnerArgs,
}

/// The arguments of RENAME (RFC 7530, 16.27): the old name in the saved directory, and the new one in the current.
#[derive(Debug, Drop)]
pub struct RenameArgs {
    pub from: Bytes,
    pub to: Bytes,
}

/// The arguments of SETCLIENTID (RFC 7530, 16.33).
#[derive(Debug, Drop)]
pub struct SetClientIdArgs {
    /// The verifier of this start of the client, its 8 bytes as a number.
    pub verifier: u64,
    /// The client's string, of at most 1,024 bytes.
    pub id: Bytes,
    /// The program of its callbacks.
    pub program: u32,
    /// The kind of its callbacks' address, of at most 1,024 bytes.
    pub netid: Bytes,
    /// Its callbacks' address, of at most 1,024 bytes.
    pub addr: Bytes,
    /// The number that its callbacks have.
    pub ident: u32,
}

/// The arguments of SETCLIENTID_CONFIRM (RFC 7530, 16.34).
#[derive(Clone, Copy, Debug)]
pub struct SetClientIdConfirmArgs {
    pub clientid: u64,
    /// The verifier that SETCLIENTID answered, its 8 bytes as a number.
    pub verifier: u64,
}

/// An operation with its arguments.
#[derive(Debug)]
pub enum Op {
    /// ACCESS.
    Access(AccessArgs),
    /// CLOSE.
    Close(CloseArgs),
    /// COMMIT.
    Commit(CommitArgs),
    /// CREATE.
    Create(CreateArgs),
    /// DELEGPURGE, of this clientid.
    DelegPurge(u64),
    /// DELEGRETURN.
    DelegReturn(DelegReturnArgs),
    /// GETATTR.
    GetAttr(GetAttrArgs),
    /// GETFH.
    GetFh,
    /// LINK, to this name.
    Link(Bytes),
    /// LOCK.
    Lock(OwnedLock),
    /// LOCKT.
    LockT(OwnedLockTest),
    /// LOCKU.
    LockU(UnlockArgs),
    /// LOOKUP.
    Lookup(LookupArgs),
    /// LOOKUPP.
    LookupP,
    /// NVERIFY.
    NVerify(Fattr),
    /// OPEN.
    Open(OwnedOpen),
    /// OPENATTR, and whether the directory is made.
    OpenAttr(bool),
    /// OPEN_CONFIRM.
    OpenConfirm(OpenConfirmArgs),
    /// OPEN_DOWNGRADE.
    OpenDowngrade(OpenDowngradeArgs),
    /// PUTFH, of this filehandle of at most 128 bytes.
    PutFh(Bytes),
    /// PUTPUBFH.
    PutPubFh,
    /// PUTROOTFH.
    PutRootFh,
    /// READ.
    Read(ReadArgs),
    /// READDIR.
    ReadDir(ReadDirArgs),
    /// READLINK.
    ReadLink,
    /// REMOVE.
    Remove(RemoveArgs),
    /// RENAME.
    Rename(RenameArgs),
    /// RENEW, of this clientid.
    Renew(u64),
    /// RESTOREFH.
    RestoreFh,
    /// SAVEFH.
    SaveFh,
    /// SECINFO, of this name.
    SecInfo(Bytes),
    /// SETATTR.
    SetAttr(SetAttrArgs),
    /// SETCLIENTID.
    SetClientId(SetClientIdArgs),
    /// SETCLIENTID_CONFIRM.
    SetClientIdConfirm(SetClientIdConfirmArgs),
    /// VERIFY.
    Verify(Fattr),
    /// WRITE.
    Write(WriteArgs),
    /// RELEASE_LOCKOWNER.
    ReleaseLockOwner(OwnedRelease),
}

impl Drop for Op {
    fn drop(self) {
        match self {
            Op::Access(_) => {}
            Op::Close(_) => {}
            Op::Commit(_) => {}
            Op::Create(_) => {}
            Op::DelegPurge(_) => {}
            Op::DelegReturn(_) => {}
            Op::GetAttr(_) => {}
            Op::GetFh => {}
            Op::Link(_) => {}
            Op::Lock(_) => {}
            Op::LockT(_) => {}
            Op::LockU(_) => {}
            Op::Lookup(_) => {}
            Op::LookupP => {}
            Op::NVerify(_) => {}
            Op::Open(_) => {}
            Op::OpenAttr(_) => {}
            Op::OpenConfirm(_) => {}
            Op::OpenDowngrade(_) => {}
            Op::PutFh(_) => {}
            Op::PutPubFh => {}
            Op::PutRootFh => {}
            Op::Read(_) => {}
            Op::ReadDir(_) => {}
            Op::ReadLink => {}
            Op::Remove(_) => {}
            Op::Rename(_) => {}
            Op::Renew(_) => {}
            Op::RestoreFh => {}
            Op::SaveFh => {}
            Op::SecInfo(_) => {}
            Op::SetAttr(_) => {}
            Op::SetClientId(_) => {}
            Op::SetClientIdConfirm(_) => {}
            Op::Verify(_) => {}
            Op::Write(_) => {}
            Op::ReleaseLockOwner(_) => {}
        }
    }
}

/// Which operation it is (RFC 7531, nfs_opnum4).
#[derive(Clone, Copy)]
pub enum OpCode {
    Access,
    Close,
    Commit,
    Create,
    DelegPurge,
    DelegReturn,
    GetAttr,
    GetFh,
    Link,
    Lock,
    LockT,
    LockU,
    Lookup,
    LookupP,
    NVerify,
    Open,
    OpenAttr,
    OpenConfirm,
    OpenDowngrade,
    PutFh,
    PutPubFh,
    PutRootFh,
    Read,
    ReadDir,
    ReadLink,
    Remove,
    Rename,
    Renew,
    RestoreFh,
    SaveFh,
    SecInfo,
    SetAttr,
    SetClientId,
    SetClientIdConfirm,
    Verify,
    Write,
    ReleaseLockOwner,
}

impl OpCode {
    /// Its number, from 3 to 39.
    #[tactic(auto, unfolding(crate::specs::Operations::number_of))]
    pub fn number(self) -> u32
        ensures { result ≡ number_of self }
    {
        match self {
            OpCode::Access => 3,
            OpCode::Close => 4,
            OpCode::Commit => 5,
            OpCode::Create => 6,
            OpCode::DelegPurge => 7,
            OpCode::DelegReturn => 8,
            OpCode::GetAttr => 9,
            OpCode::GetFh => 10,
            OpCode::Link => 11,
            OpCode::Lock => 12,
            OpCode::LockT => 13,
            OpCode::LockU => 14,
            OpCode::Lookup => 15,
            OpCode::LookupP => 16,
            OpCode::NVerify => 17,
            OpCode::Open => 18,
            OpCode::OpenAttr => 19,
            OpCode::OpenConfirm => 20,
            OpCode::OpenDowngrade => 21,
            OpCode::PutFh => 22,
            OpCode::PutPubFh => 23,
            OpCode::PutRootFh => 24,
            OpCode::Read => 25,
            OpCode::ReadDir => 26,
            OpCode::ReadLink => 27,
            OpCode::Remove => 28,
            OpCode::Rename => 29,
            OpCode::Renew => 30,
            OpCode::RestoreFh => 31,
            OpCode::SaveFh => 32,
            OpCode::SecInfo => 33,
            OpCode::SetAttr => 34,
            OpCode::SetClientId => 35,
            OpCode::SetClientIdConfirm => 36,
            OpCode::Verify => 37,
            OpCode::Write => 38,
            OpCode::ReleaseLockOwner => 39,
        }
    }

    /// The operation of that number. `None` exactly outside 3 to 39.
    #[tactic(auto, unfolding(crate::specs::Operations::code_of_number))]
    pub fn read(n: u32) -> Option<OpCode>
        ensures { result ≡ code_of_number n }
    {
        match n {
            3 => Some(OpCode::Access),
            4 => Some(OpCode::Close),
            5 => Some(OpCode::Commit),
            6 => Some(OpCode::Create),
            7 => Some(OpCode::DelegPurge),
            8 => Some(OpCode::DelegReturn),
            9 => Some(OpCode::GetAttr),
            10 => Some(OpCode::GetFh),
            11 => Some(OpCode::Link),
            12 => Some(OpCode::Lock),
            13 => Some(OpCode::LockT),
            14 => Some(OpCode::LockU),
            15 => Some(OpCode::Lookup),
            16 => Some(OpCode::LookupP),
            17 => Some(OpCode::NVerify),
            18 => Some(OpCode::Open),
            19 => Some(OpCode::OpenAttr),
            20 => Some(OpCode::OpenConfirm),
            21 => Some(OpCode::OpenDowngrade),
            22 => Some(OpCode::PutFh),
            23 => Some(OpCode::PutPubFh),
            24 => Some(OpCode::PutRootFh),
            25 => Some(OpCode::Read),
            26 => Some(OpCode::ReadDir),
            27 => Some(OpCode::ReadLink),
            28 => Some(OpCode::Remove),
            29 => Some(OpCode::Rename),
            30 => Some(OpCode::Renew),
            31 => Some(OpCode::RestoreFh),
            32 => Some(OpCode::SaveFh),
            33 => Some(OpCode::SecInfo),
            34 => Some(OpCode::SetAttr),
            35 => Some(OpCode::SetClientId),
            36 => Some(OpCode::SetClientIdConfirm),
            37 => Some(OpCode::Verify),
            38 => Some(OpCode::Write),
            39 => Some(OpCode::ReleaseLockOwner),
            _ => None,
        }
    }
}

impl OpCode {
    /// Whether it reaches a file system, as a call that an owner can keep does.
    #[tactic(auto, unfolding(crate::specs::Deeds::has_deed))]
    pub(crate) fn has_deed(self) -> bool
        ensures { result ≡ has_deed self }
    {
        match self {
            OpCode::Access
            | OpCode::Close
            | OpCode::Commit
            | OpCode::Create
            | OpCode::GetAttr
            | OpCode::Lock
            | OpCode::LockT
            | OpCode::LockU
            | OpCode::Lookup
            | OpCode::LookupP
            | OpCode::Open
            | OpCode::OpenConfirm
            | OpCode::OpenDowngrade
            | OpCode::Read
            | OpCode::ReadDir
            | OpCode::Remove
            | OpCode::SetAttr
            | OpCode::Write
            | OpCode::ReleaseLockOwner => true,
            _ => false,
        }
    }
}

impl Op {
    /// What reaches a file system of it, without the clientid. `None` exactly for an operation that reaches none.
    #[tactic(auto, unfolding(crate::specs::Deeds::deed_of))]
    pub(crate) fn into_deed(self) -> Option<Deed>
        ensures { result ≡ deed_of self }
    {
        match self {
            Op::Access(args) => Some(Deed::Access(args)),
            Op::Close(args) => Some(Deed::Close(args)),
            Op::Commit(args) => Some(Deed::Commit(args)),
            Op::Create(args) => Some(Deed::Create(args)),
            Op::GetAttr(args) => Some(Deed::GetAttr(args)),
            Op::Lock(owned) => Some(Deed::Lock(owned.args)),
            Op::LockT(owned) => Some(Deed::LockTest(owned.args)),
            Op::LockU(args) => Some(Deed::Unlock(args)),
            Op::Lookup(args) => Some(Deed::Lookup(args)),
            Op::LookupP => Some(Deed::LookupP),
            Op::Open(owned) => Some(Deed::Open(owned.args)),
            Op::OpenConfirm(args) => Some(Deed::OpenConfirm(args)),
            Op::OpenDowngrade(args) => Some(Deed::OpenDowngrade(args)),
            Op::Read(args) => Some(Deed::Read(args)),
            Op::ReadDir(args) => Some(Deed::ReadDir(args)),
            Op::Remove(args) => Some(Deed::Remove(args)),
            Op::SetAttr(args) => Some(Deed::SetAttr(args)),
            Op::Write(args) => Some(Deed::Write(args)),
            Op::ReleaseLockOwner(owned) => Some(Deed::ReleaseLockOwner(owned.args)),
            _ => None,
        }
    }

    /// Which operation it is.
    pub fn code(&self) -> OpCode
        ensures { result ≡ code_of self.now }
    {
        match self {
            Op::Access(_) => OpCode::Access,
            Op::Close(_) => OpCode::Close,
            Op::Commit(_) => OpCode::Commit,
            Op::Create(_) => OpCode::Create,
            Op::DelegPurge(_) => OpCode::DelegPurge,
            Op::DelegReturn(_) => OpCode::DelegReturn,
            Op::GetAttr(_) => OpCode::GetAttr,
            Op::GetFh => OpCode::GetFh,
            Op::Link(_) => OpCode::Link,
            Op::Lock(_) => OpCode::Lock,
            Op::LockT(_) => OpCode::LockT,
            Op::LockU(_) => OpCode::LockU,
            Op::Lookup(_) => OpCode::Lookup,
            Op::LookupP => OpCode::LookupP,
            Op::NVerify(_) => OpCode::NVerify,
            Op::Open(_) => OpCode::Open,
            Op::OpenAttr(_) => OpCode::OpenAttr,
            Op::OpenConfirm(_) => OpCode::OpenConfirm,
            Op::OpenDowngrade(_) => OpCode::OpenDowngrade,
            Op::PutFh(_) => OpCode::PutFh,
            Op::PutPubFh => OpCode::PutPubFh,
            Op::PutRootFh => OpCode::PutRootFh,
            Op::Read(_) => OpCode::Read,
            Op::ReadDir(_) => OpCode::ReadDir,
            Op::ReadLink => OpCode::ReadLink,
            Op::Remove(_) => OpCode::Remove,
            Op::Rename(_) => OpCode::Rename,
            Op::Renew(_) => OpCode::Renew,
            Op::RestoreFh => OpCode::RestoreFh,
            Op::SaveFh => OpCode::SaveFh,
            Op::SecInfo(_) => OpCode::SecInfo,
            Op::SetAttr(_) => OpCode::SetAttr,
            Op::SetClientId(_) => OpCode::SetClientId,
            Op::SetClientIdConfirm(_) => OpCode::SetClientIdConfirm,
            Op::Verify(_) => OpCode::Verify,
            Op::Write(_) => OpCode::Write,
            Op::ReleaseLockOwner(_) => OpCode::ReleaseLockOwner,
        }
    }
}
