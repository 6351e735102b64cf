//! The same reply once more.
ghost use Rattle.std.specs.Prelude.{◌≡◌, IfOk};

use crate::{
    CreateOk, Created, Denied, DirEntry, GetAttrOk, Items, LockOutcome, Memory, OpenOk, Opened,
    ReadDirOk, ReadOk, Reply, ReplyValue,
};

impl Created {
    /// The same value once more.
    pub fn copy(&self) -> Result<Created, Memory>
        ensures { IfOk result (λ created. created ≡ self.now) }
    {
        Ok(Created {
            ok: CreateOk {
                cinfo: self.ok.cinfo,
                attrset: self.ok.attrset.copy()?,
            },
            file: self.file,
        })
    }
}

impl GetAttrOk {
    /// The same value once more.
    pub fn copy(&self) -> Result<GetAttrOk, Memory>
        ensures { IfOk result (λ ok. ok ≡ self.now) }
    {
        Ok(GetAttrOk {
            attributes: self.attributes,
            words: self.words.copy()?,
        })
    }
}

impl Opened {
    /// The same value once more.
    pub fn copy(&self) -> Result<Opened, Memory>
        ensures { IfOk result (λ opened. opened ≡ self.now) }
    {
        Ok(Opened {
            ok: OpenOk {
                stateid: self.ok.stateid,
                cinfo: self.ok.cinfo,
                rflags: self.ok.rflags,
                attrset: self.ok.attrset.copy()?,
                delegation: self.ok.delegation,
            },
            file: self.file,
        })
    }
}

impl Denied {
    /// The same value once more.
    pub fn copy(&self) -> Result<Denied, Memory>
        ensures { IfOk result (λ denied. denied ≡ self.now) }
    {
        Ok(Denied {
            range: self.range,
            owner: self.owner.copy()?,
            instance: self.instance,
        })
    }
}

impl LockOutcome {
    /// The same value once more.
    pub fn copy(&self) -> Result<LockOutcome, Memory>
        ensures { IfOk result (λ outcome. outcome ≡ self.now) }
    {
        Ok(match self {
            LockOutcome::Locked(stateid) => LockOutcome::Locked(*stateid),
            LockOutcome::Denied(denied) => LockOutcome::Denied(denied.copy()?),
        })
    }
}

impl ReadOk {
    /// The same value once more.
    pub fn copy(&self) -> Result<ReadOk, Memory>
        ensures { IfOk result (λ ok. ok ≡ self.now) }
    {
        Ok(ReadOk {
            eof: self.eof,
            data: self.data.copy()?,
        })
    }
}

impl DirEntry {
    /// The same entry once more.
    pub fn copy(&self) -> Result<DirEntry, Memory>
        ensures { IfOk result (λ entry. entry ≡ self.now) }
    {
        Ok(DirEntry {
            cookie: self.cookie,
            name: self.name.copy()?,
            attributes: self.attributes,
        })
    }
}

impl Items<DirEntry> {
    // The same entries once more.
    fn copy_entries(&self) -> Result<Items<DirEntry>, Memory>
        ensures { IfOk result (λ copies. copies ≡ self.now) }
    {
        let mut copies = Items::new(self.allocator());
        for entry in self.items() {
            copies.push(entry.copy()?)?;
        }
        Ok(copies)
    }
}

impl ReadDirOk {
    /// The same value once more.
    pub fn copy(&self) -> Result<ReadDirOk, Memory>
        ensures { IfOk result (λ ok. ok ≡ self.now) }
    {
        Ok(ReadDirOk {
            words: self.words.copy()?,
            entries: self.entries.copy_entries()?,
            eof: self.eof,
        })
    }
}

impl ReplyValue {
    /// The same value once more.
    pub fn copy(&self) -> Result<ReplyValue, Memory>
        ensures { IfOk result (λ value. value ≡ self.now) }
    {
        Ok(match self {
            ReplyValue::Nothing => ReplyValue::Nothing,
            ReplyValue::Access(value) => ReplyValue::Access(*value),
            ReplyValue::Close(value) => ReplyValue::Close(*value),
            ReplyValue::Commit(value) => ReplyValue::Commit(*value),
            ReplyValue::Create(None) => ReplyValue::Create(None),
            ReplyValue::Create(Some(value)) => ReplyValue::Create(Some(value.copy()?)),
            ReplyValue::GetAttr(None) => ReplyValue::GetAttr(None),
            ReplyValue::GetAttr(Some(value)) => ReplyValue::GetAttr(Some(value.copy()?)),
            ReplyValue::Lock(None) => ReplyValue::Lock(None),
            ReplyValue::Lock(Some(value)) => ReplyValue::Lock(Some(value.copy()?)),
            ReplyValue::LockTest(None) => ReplyValue::LockTest(None),
            ReplyValue::LockTest(Some(value)) => ReplyValue::LockTest(Some(value.copy()?)),
            ReplyValue::Lookup(value) => ReplyValue::Lookup(*value),
            ReplyValue::LookupP(value) => ReplyValue::LookupP(*value),
            ReplyValue::Open(None) => ReplyValue::Open(None),
            ReplyValue::Open(Some(value)) => ReplyValue::Open(Some(value.copy()?)),
            ReplyValue::OpenConfirm(value) => ReplyValue::OpenConfirm(*value),
            ReplyValue::OpenDowngrade(value) => ReplyValue::OpenDowngrade(*value),
            ReplyValue::Read(None) => ReplyValue::Read(None),
            ReplyValue::Read(Some(value)) => ReplyValue::Read(Some(value.copy()?)),
            ReplyValue::ReadDir(None) => ReplyValue::ReadDir(None),
            ReplyValue::ReadDir(Some(value)) => ReplyValue::ReadDir(Some(value.copy()?)),
            ReplyValue::ReleaseLockOwner(value) => ReplyValue::ReleaseLockOwner(*value),
            ReplyValue::Remove(value) => ReplyValue::Remove(*value),
            ReplyValue::SetAttr(words) => ReplyValue::SetAttr(words.copy()?),
            ReplyValue::Unlock(value) => ReplyValue::Unlock(*value),
            ReplyValue::Write(value) => ReplyValue::Write(*value),
        })
    }
}

impl Reply {
    /// The same reply once more.
    pub fn copy(&self) -> Result<Reply, Memory>
        ensures { IfOk result (λ reply. reply ≡ self.now) }
    {
        Ok(Reply {
            status: self.status,
            value: self.value.copy()?,
            recalls: self.recalls.copy()?,
        })
    }
}
