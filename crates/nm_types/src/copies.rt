//! The same call once more.
ghost use Rattle.std.specs.Prelude.{◌≡◌, IfOk};

use crate::{
    Call, Claim, CreateArgs, CreateType, Deed, Fattr, GetAttrArgs, LockArgs, LockTestArgs, Locker,
    LookupArgs, Memory, OpenArgs, OpenType, ReadDirArgs, ReleaseLockOwnerArgs, RemoveArgs,
    SetAttrArgs, WriteArgs,
};

impl Fattr {
    /// The same attributes once more.
    pub fn copy(&self) -> Result<Fattr, Memory>
        ensures { IfOk result (λ fattr. fattr ≡ self.now) }
    {
        Ok(Fattr {
            words: self.words.copy()?,
            values: self.values.copy()?,
        })
    }
}

impl OpenType {
    /// The same way of opening once more.
    pub fn copy(&self) -> Result<OpenType, Memory>
        ensures { IfOk result (λ opentype. opentype ≡ self.now) }
    {
        match self {
            OpenType::NoCreate => Ok(OpenType::NoCreate),
            OpenType::Unchecked(fattr) => Ok(OpenType::Unchecked(fattr.copy()?)),
            OpenType::Guarded(fattr) => Ok(OpenType::Guarded(fattr.copy()?)),
            OpenType::Exclusive(verifier) => Ok(OpenType::Exclusive(*verifier)),
        }
    }
}

impl Claim {
    /// The same claim once more.
    pub fn copy(&self) -> Result<Claim, Memory>
        ensures { IfOk result (λ claim. claim ≡ self.now) }
    {
        match self {
            Claim::Null(name) => Ok(Claim::Null(name.copy()?)),
            Claim::Previous(kind) => Ok(Claim::Previous(*kind)),
            Claim::DelegateCur { stateid, name } => Ok(Claim::DelegateCur {
                stateid: *stateid,
                name: name.copy()?,
            }),
            Claim::DelegatePrev(name) => Ok(Claim::DelegatePrev(name.copy()?)),
        }
    }
}

impl OpenArgs {
    /// The same arguments once more.
    pub fn copy(&self) -> Result<OpenArgs, Memory>
        ensures { IfOk result (λ args. args ≡ self.now) }
    {
        Ok(OpenArgs {
            seqid: self.seqid,
            access: self.access,
            deny: self.deny,
            owner: self.owner.copy()?,
            opentype: self.opentype.copy()?,
            claim: self.claim.copy()?,
        })
    }
}

impl CreateType {
    /// The same type once more.
    pub fn copy(&self) -> Result<CreateType, Memory>
        ensures { IfOk result (λ kind. kind ≡ self.now) }
    {
        Ok(match self {
            CreateType::File => CreateType::File,
            CreateType::Directory => CreateType::Directory,
            CreateType::Block(device) => CreateType::Block(*device),
            CreateType::Character(device) => CreateType::Character(*device),
            CreateType::Link(text) => CreateType::Link(text.copy()?),
            CreateType::Socket => CreateType::Socket,
            CreateType::Fifo => CreateType::Fifo,
            CreateType::AttributeDirectory => CreateType::AttributeDirectory,
            CreateType::NamedAttribute => CreateType::NamedAttribute,
        })
    }
}

impl CreateArgs {
    /// The same arguments once more.
    pub fn copy(&self) -> Result<CreateArgs, Memory>
        ensures { IfOk result (λ args. args ≡ self.now) }
    {
        Ok(CreateArgs {
            kind: self.kind.copy()?,
            name: self.name.copy()?,
            attributes: self.attributes.copy()?,
        })
    }
}

impl GetAttrArgs {
    /// The same arguments once more.
    pub fn copy(&self) -> Result<GetAttrArgs, Memory>
        ensures { IfOk result (λ args. args ≡ self.now) }
    {
        Ok(GetAttrArgs {
            words: self.words.copy()?,
        })
    }
}

impl Locker {
    /// The same locker once more.
    pub fn copy(&self) -> Result<Locker, Memory>
        ensures { IfOk result (λ locker. locker ≡ self.now) }
    {
        match self {
            Locker::New {
                open_seqid,
                stateid,
                lock_seqid,
                owner,
            } => Ok(Locker::New {
                open_seqid: *open_seqid,
                stateid: *stateid,
                lock_seqid: *lock_seqid,
                owner: owner.copy()?,
            }),
            Locker::Known {
                stateid,
                lock_seqid,
            } => Ok(Locker::Known {
                stateid: *stateid,
                lock_seqid: *lock_seqid,
            }),
        }
    }
}

impl LockArgs {
    /// The same arguments once more.
    pub fn copy(&self) -> Result<LockArgs, Memory>
        ensures { IfOk result (λ args. args ≡ self.now) }
    {
        Ok(LockArgs {
            kind: self.kind,
            reclaim: self.reclaim,
            offset: self.offset,
            length: self.length,
            locker: self.locker.copy()?,
        })
    }
}

impl LockTestArgs {
    /// The same arguments once more.
    pub fn copy(&self) -> Result<LockTestArgs, Memory>
        ensures { IfOk result (λ args. args ≡ self.now) }
    {
        Ok(LockTestArgs {
            kind: self.kind,
            offset: self.offset,
            length: self.length,
            owner: self.owner.copy()?,
        })
    }
}

impl ReleaseLockOwnerArgs {
    /// The same arguments once more.
    pub fn copy(&self) -> Result<ReleaseLockOwnerArgs, Memory>
        ensures { IfOk result (λ args. args ≡ self.now) }
    {
        Ok(ReleaseLockOwnerArgs {
            owner: self.owner.copy()?,
        })
    }
}

impl LookupArgs {
    /// The same arguments once more.
    pub fn copy(&self) -> Result<LookupArgs, Memory>
        ensures { IfOk result (λ args. args ≡ self.now) }
    {
        Ok(LookupArgs {
            name: self.name.copy()?,
        })
    }
}

impl ReadDirArgs {
    /// The same arguments once more.
    pub fn copy(&self) -> Result<ReadDirArgs, Memory>
        ensures { IfOk result (λ args. args ≡ self.now) }
    {
        Ok(ReadDirArgs {
            cookie: self.cookie,
            verifier: self.verifier,
            dircount: self.dircount,
            maxcount: self.maxcount,
            words: self.words.copy()?,
        })
    }
}

impl RemoveArgs {
    /// The same arguments once more.
    pub fn copy(&self) -> Result<RemoveArgs, Memory>
        ensures { IfOk result (λ args. args ≡ self.now) }
    {
        Ok(RemoveArgs {
            name: self.name.copy()?,
        })
    }
}

impl SetAttrArgs {
    /// The same arguments once more.
    pub fn copy(&self) -> Result<SetAttrArgs, Memory>
        ensures { IfOk result (λ args. args ≡ self.now) }
    {
        Ok(SetAttrArgs {
            stateid: self.stateid,
            attributes: self.attributes.copy()?,
        })
    }
}

impl WriteArgs {
    /// The same arguments once more.
    pub fn copy(&self) -> Result<WriteArgs, Memory>
        ensures { IfOk result (λ args. args ≡ self.now) }
    {
        Ok(WriteArgs {
            stateid: self.stateid,
            offset: self.offset,
            stable: self.stable,
            data: self.data.copy()?,
        })
    }
}

impl Deed {
    /// The same operation once more.
    pub fn copy(&self) -> Result<Deed, Memory>
        ensures { IfOk result (λ deed. deed ≡ self.now) }
    {
        Ok(match self {
            Deed::Access(args) => Deed::Access(*args),
            Deed::Close(args) => Deed::Close(*args),
            Deed::Commit(args) => Deed::Commit(*args),
            Deed::Create(args) => Deed::Create(args.copy()?),
            Deed::GetAttr(args) => Deed::GetAttr(args.copy()?),
            Deed::Lock(args) => Deed::Lock(args.copy()?),
            Deed::LockTest(args) => Deed::LockTest(args.copy()?),
            Deed::Lookup(args) => Deed::Lookup(args.copy()?),
            Deed::LookupP => Deed::LookupP,
            Deed::Open(args) => Deed::Open(args.copy()?),
            Deed::OpenConfirm(args) => Deed::OpenConfirm(*args),
            Deed::OpenDowngrade(args) => Deed::OpenDowngrade(*args),
            Deed::Read(args) => Deed::Read(*args),
            Deed::ReadDir(args) => Deed::ReadDir(args.copy()?),
            Deed::ReleaseLockOwner(args) => Deed::ReleaseLockOwner(args.copy()?),
            Deed::Remove(args) => Deed::Remove(args.copy()?),
            Deed::SetAttr(args) => Deed::SetAttr(args.copy()?),
            Deed::Unlock(args) => Deed::Unlock(*args),
            Deed::Write(args) => Deed::Write(args.copy()?),
        })
    }
}

impl Call {
    /// The same call once more.
    pub fn copy(&self) -> Result<Call, Memory>
        ensures { IfOk result (λ call. call ≡ self.now) }
    {
        Ok(Call {
            caller: self.caller,
            file: self.file,
            deed: self.deed.copy()?,
        })
    }
}
