//! What a script asks a client to do, with numbers for names.
ghost use Rattle.std.specs.Prelude.{◌≡◌, IfOk};
ghost use Rattle.nm_types.specs.Actions.{verb_of, fs_of};

use crate::{Bytes, FsNum, LockKind, Memory};

/// An open of a file by an owner, or what is left of it.
#[derive(Drop)]
pub struct OpenAction {
    pub fs: FsNum,
    /// The file's name.
    pub file: Bytes,
    /// 1 reads, 2 writes, 3 both.
    pub access: u32,
    /// 0 denies nothing, 1 reading, 2 writing, 3 both.
    pub deny: u32,
    /// The owner's name.
    pub owner: Bytes,
}

impl OpenAction {
    /// The same open once more.
    pub fn copy(&self) -> Result<OpenAction, Memory>
        ensures { IfOk result (λ a. a ≡ self.now) }
    {
        Ok(OpenAction {
            fs: self.fs,
            file: self.file.copy()?,
            access: self.access,
            deny: self.deny,
            owner: self.owner.copy()?,
        })
    }
}

/// A close of an owner's open of a file.
#[derive(Drop)]
pub struct CloseAction {
    pub fs: FsNum,
    /// The file's name.
    pub file: Bytes,
    /// The owner's name.
    pub owner: Bytes,
}

impl CloseAction {
    /// The same close once more.
    pub fn copy(&self) -> Result<CloseAction, Memory>
        ensures { IfOk result (λ a. a ≡ self.now) }
    {
        Ok(CloseAction {
            fs: self.fs,
            file: self.file.copy()?,
            owner: self.owner.copy()?,
        })
    }
}

/// A lock of a range of bytes of a file that an owner has open, or a question for one.
#[derive(Drop)]
pub struct LockAction {
    pub fs: FsNum,
    /// The file's name.
    pub file: Bytes,
    pub kind: LockKind,
    /// The first byte.
    pub offset: u64,
    /// In bytes. 2^64 - 1 reaches to the end of every file.
    pub length: u64,
    /// The owner's name.
    pub owner: Bytes,
}

impl LockAction {
    /// The same lock once more.
    pub fn copy(&self) -> Result<LockAction, Memory>
        ensures { IfOk result (λ a. a ≡ self.now) }
    {
        Ok(LockAction {
            fs: self.fs,
            file: self.file.copy()?,
            kind: self.kind,
            offset: self.offset,
            length: self.length,
            owner: self.owner.copy()?,
        })
    }
}

/// An unlock of a range of bytes of a file.
#[derive(Drop)]
pub struct UnlockAction {
    pub fs: FsNum,
    /// The file's name.
    pub file: Bytes,
    /// The first byte.
    pub offset: u64,
    /// In bytes. 2^64 - 1 reaches to the end of every file.
    pub length: u64,
    /// The owner's name.
    pub owner: Bytes,
}

impl UnlockAction {
    /// The same unlock once more.
    pub fn copy(&self) -> Result<UnlockAction, Memory>
        ensures { IfOk result (λ a. a ≡ self.now) }
    {
        Ok(UnlockAction {
            fs: self.fs,
            file: self.file.copy()?,
            offset: self.offset,
            length: self.length,
            owner: self.owner.copy()?,
        })
    }
}

/// A release of a lock owner.
#[derive(Drop)]
pub struct ReleaseAction {
    pub fs: FsNum,
    /// The owner's name.
    pub owner: Bytes,
}

impl ReleaseAction {
    /// The same release once more.
    pub fn copy(&self) -> Result<ReleaseAction, Memory>
        ensures { IfOk result (λ a. a ≡ self.now) }
    {
        Ok(ReleaseAction {
            fs: self.fs,
            owner: self.owner.copy()?,
        })
    }
}

/// A read of a file that an owner has open.
#[derive(Drop)]
pub struct ReadAction {
    pub fs: FsNum,
    /// The file's name.
    pub file: Bytes,
    pub offset: u64,
    /// In bytes, at most 65,536.
    pub count: u32,
    /// The owner's name.
    pub owner: Bytes,
}

impl ReadAction {
    /// The same read once more.
    pub fn copy(&self) -> Result<ReadAction, Memory>
        ensures { IfOk result (λ a. a ≡ self.now) }
    {
        Ok(ReadAction {
            fs: self.fs,
            file: self.file.copy()?,
            offset: self.offset,
            count: self.count,
            owner: self.owner.copy()?,
        })
    }
}

/// A write to a file that an owner has open.
#[derive(Drop)]
pub struct WriteAction {
    pub fs: FsNum,
    /// The file's name.
    pub file: Bytes,
    pub offset: u64,
    /// 1 to 1,024 bytes.
    pub data: Bytes,
    /// The owner's name.
    pub owner: Bytes,
}

impl WriteAction {
    /// The same write once more.
    pub fn copy(&self) -> Result<WriteAction, Memory>
        ensures { IfOk result (λ a. a ≡ self.now) }
    {
        Ok(WriteAction {
            fs: self.fs,
            file: self.file.copy()?,
            offset: self.offset,
            data: self.data.copy()?,
            owner: self.owner.copy()?,
        })
    }
}

/// A change of the size of a file that an owner has open.
#[derive(Drop)]
pub struct SizeAction {
    pub fs: FsNum,
    /// The file's name.
    pub file: Bytes,
    /// In bytes.
    pub size: u64,
    /// The owner's name.
    pub owner: Bytes,
}

impl SizeAction {
    /// The same change once more.
    pub fn copy(&self) -> Result<SizeAction, Memory>
        ensures { IfOk result (λ a. a ≡ self.now) }
    {
        Ok(SizeAction {
            fs: self.fs,
            file: self.file.copy()?,
            size: self.size,
            owner: self.owner.copy()?,
        })
    }
}

/// A name in the root of a file system.
#[derive(Drop)]
pub struct NameAction {
    pub fs: FsNum,
    pub file: Bytes,
}

impl NameAction {
    /// The same name once more.
    pub fn copy(&self) -> Result<NameAction, Memory>
        ensures { IfOk result (λ a. a ≡ self.now) }
    {
        Ok(NameAction {
            fs: self.fs,
            file: self.file.copy()?,
        })
    }
}

/// What a client does.
pub enum Action {
    /// Opens a file that has to be there.
    Open(OpenAction),
    /// Opens a file, and makes it where it isn't there.
    Create(OpenAction),
    /// Closes what the owner has open.
    Close(CloseAction),
    /// Narrows what the owner has open to that access and deny.
    Downgrade(OpenAction),
    /// Locks a range of what the owner has open.
    Lock(LockAction),
    /// Unlocks a range.
    Unlock(UnlockAction),
    /// Asks whether a range could be locked.
    Test(LockAction),
    /// Releases a lock owner.
    Release(ReleaseAction),
    /// Reads what the owner has open.
    Read(ReadAction),
    /// Writes to what the owner has open.
    Write(WriteAction),
    /// Sets the size of what the owner has open.
    Size(SizeAction),
    /// Removes a name from the root.
    Remove(NameAction),
    /// Makes a directory in the root.
    MkDir(NameAction),
    /// Lists the root.
    List(FsNum),
}

impl Drop for Action {
    fn drop(self) {
        match self {
            Action::Open(_) => {}
            Action::Create(_) => {}
            Action::Close(_) => {}
            Action::Downgrade(_) => {}
            Action::Lock(_) => {}
            Action::Unlock(_) => {}
            Action::Test(_) => {}
            Action::Release(_) => {}
            Action::Read(_) => {}
            Action::Write(_) => {}
            Action::Size(_) => {}
            Action::Remove(_) => {}
            Action::MkDir(_) => {}
            Action::List(_) => {}
        }
    }
}

/// The word of an action.
#[derive(Clone, Copy)]
pub enum Verb {
    Open,
    Create,
    Close,
    Downgrade,
    Lock,
    Unlock,
    Test,
    Release,
    Read,
    Write,
    Size,
    Remove,
    MkDir,
    List,
}

impl Action {
    /// Its word.
    pub fn verb(&self) -> Verb
        ensures { result ≡ verb_of self.now }
    {
        match self {
            Action::Open(_) => Verb::Open,
            Action::Create(_) => Verb::Create,
            Action::Close(_) => Verb::Close,
            Action::Downgrade(_) => Verb::Downgrade,
            Action::Lock(_) => Verb::Lock,
            Action::Unlock(_) => Verb::Unlock,
            Action::Test(_) => Verb::Test,
            Action::Release(_) => Verb::Release,
            Action::Read(_) => Verb::Read,
            Action::Write(_) => Verb::Write,
            Action::Size(_) => Verb::Size,
            Action::Remove(_) => Verb::Remove,
            Action::MkDir(_) => Verb::MkDir,
            Action::List(_) => Verb::List,
        }
    }

    /// The file system that it names.
    pub fn fs(&self) -> FsNum
        ensures { result ≡ fs_of self.now }
    {
        match self {
            Action::Open(a) | Action::Create(a) | Action::Downgrade(a) => a.fs,
            Action::Close(a) => a.fs,
            Action::Lock(a) | Action::Test(a) => a.fs,
            Action::Unlock(a) => a.fs,
            Action::Release(a) => a.fs,
            Action::Read(a) => a.fs,
            Action::Write(a) => a.fs,
            Action::Size(a) => a.fs,
            Action::Remove(a) | Action::MkDir(a) => a.fs,
            Action::List(fs) => *fs,
        }
    }

    /// The same action once more.
    pub fn copy(&self) -> Result<Action, Memory>
        ensures { IfOk result (λ action. action ≡ self.now) }
    {
        Ok(match self {
            Action::Open(a) => Action::Open(a.copy()?),
            Action::Create(a) => Action::Create(a.copy()?),
            Action::Close(a) => Action::Close(a.copy()?),
            Action::Downgrade(a) => Action::Downgrade(a.copy()?),
            Action::Lock(a) => Action::Lock(a.copy()?),
            Action::Unlock(a) => Action::Unlock(a.copy()?),
            Action::Test(a) => Action::Test(a.copy()?),
            Action::Release(a) => Action::Release(a.copy()?),
            Action::Read(a) => Action::Read(a.copy()?),
            Action::Write(a) => Action::Write(a.copy()?),
            Action::Size(a) => Action::Size(a.copy()?),
            Action::Remove(a) => Action::Remove(a.copy()?),
            Action::MkDir(a) => Action::MkDir(a.copy()?),
            Action::List(fs) => Action::List(*fs),
        })
    }
}
