//! The rows of a file system's tables.
ghost use Rattle.std.specs.Prelude.{◌≡◌, IfOk};

use crate::{Bytes, Items, LockKind, Memory, Owner};

/// What a row of the tree is.
#[derive(Clone, Copy, Debug)]
pub enum FileKind {
    /// A regular file.
    File,
    Directory,
}

/// A file or a directory.
pub struct FileRow {
    /// Its number. The root is 1, and further ones are numbered from 16.
    pub number: u64,
    /// The directory that it is in. The root is in itself.
    pub parent: u64,
    /// Its name there. The root's is empty.
    pub name: Bytes,
    pub kind: FileKind,
    pub mode: u32,
    /// The number of its latest change.
    pub change: u64,
    /// The verifier of the exclusive OPEN that made it.
    pub verifier: Option<u64>,
    /// A directory has none.
    pub bytes: Bytes,
}

impl Drop for FileRow {
    fn drop(self) {
        let FileRow {
            number: _,
            parent: _,
            name: _,
            kind: _,
            mode: _,
            change: _,
            verifier: _,
            bytes: _,
        } = self;
    }
}

impl FileRow {
    /// The same row once more.
    pub fn copy(&self) -> Result<FileRow, Memory>
        ensures { IfOk result (λ row. row ≡ self.now) }
    {
        Ok(FileRow {
            number: self.number,
            parent: self.parent,
            name: self.name.copy()?,
            kind: self.kind,
            mode: self.mode,
            change: self.change,
            verifier: self.verifier,
            bytes: self.bytes.copy()?,
        })
    }
}

/// A live open of one owner on one file.
pub struct OpenRow {
    /// The counter of its stateid, from 1.
    pub counter: u64,
    /// The seqid of its stateid, from 1.
    pub seqid: u32,
    pub owner: Owner,
    pub file: u64,
    /// 1 reads, 2 writes, 3 both.
    pub access: u32,
    /// 0 nothing is denied, 1 reading, 2 writing, 3 both.
    pub deny: u32,
}

impl Drop for OpenRow {
    fn drop(self) {
        let OpenRow {
            counter: _,
            seqid: _,
            owner: _,
            file: _,
            access: _,
            deny: _,
        } = self;
    }
}

impl OpenRow {
    /// The same row once more.
    pub fn copy(&self) -> Result<OpenRow, Memory>
        ensures { IfOk result (λ row. row ≡ self.now) }
    {
        Ok(OpenRow {
            counter: self.counter,
            seqid: self.seqid,
            owner: self.owner.copy()?,
            file: self.file,
            access: self.access,
            deny: self.deny,
        })
    }
}

/// A range of bytes of a file that a byte-range lock holds (RFC 7530, 9.2).
#[derive(Clone, Copy)]
pub struct Held {
    /// The counter of the lock stateid that holds it.
    pub owner: u64,
    pub kind: LockKind,
    /// Its first byte.
    pub first: u64,
    /// Its last byte, which isn't before the first. 2^64 - 1 reaches to the end of every file.
    pub last: u64,
}

/// The stateid of a lock owner on a file (RFC 7530, 9.1.4 and 16.10).
pub struct LockRow {
    /// The counter of the stateid, from 1.
    pub counter: u64,
    /// The seqid of the stateid, from 1.
    pub seqid: u32,
    pub owner: Owner,
    /// The counter of the open by which it came to be.
    pub opened: u64,
    pub file: u64,
}

impl Drop for LockRow {
    fn drop(self) {
        let LockRow {
            counter: _,
            seqid: _,
            owner: _,
            opened: _,
            file: _,
        } = self;
    }
}

impl LockRow {
    /// The same row once more.
    pub fn copy(&self) -> Result<LockRow, Memory>
        ensures { IfOk result (λ row. row ≡ self.now) }
    {
        Ok(LockRow {
            counter: self.counter,
            seqid: self.seqid,
            owner: self.owner.copy()?,
            opened: self.opened,
            file: self.file,
        })
    }
}

/// The locked ranges of a file, of all stateids on it.
pub struct FileLocks {
    pub file: u64,
    pub ranges: Items<Held>,
}

impl Drop for FileLocks {
    fn drop(self) {
        let FileLocks { file: _, ranges: _ } = self;
    }
}
