//! The calls by what they are asked: each tells its status, or does what it was asked.
ghost use Rattle.std.specs.Prelude.{◌≡◌, ◌≤◌, ◌+◌, length, nat_lt, OnOk, OnErr, None};
ghost use Rattle.nm_rules.specs.Contents.{tree_after, is_directory, file_at, taken, total_size, total_limit, size_limit};
ghost use Rattle.nm_rules.specs.Contents.TreeWord.{Removed};
ghost use Rattle.nm_rules.specs.Files.{kind_number, size_of};
ghost use Rattle.nm_types.specs.declared.rows.FileKind.TheVariants as kind_of;
ghost use Rattle.nm_tree.specs.Answers.{Tells, find_answer, make_stop, make_answer, after_make, remove_stop, remove_answer, list_answer, attrs_answer, changes_end, makes_end, read_answer, size_with, write_stop, write_answer, after_write, size_stop, size_answer, after_size};
ghost use Rattle.nm_tree.specs.Rows.{total_with};

use crate::Tree;
use crate::bytes::{front, read_bytes};
use crate::checks::{dir_stop, file_stop, find_stop, has_entries, named_stop};
use crate::listing::{Listing, listing_of};
use crate::names::is_empty;
use crate::rows::{bytes_at, parent_at, size_at};
use nm_types::{Bytes, FileAttrs, FileKind, FileRow, OpStatus, Refusal};

// The last number of a change or a file.
const LAST_NUMBER: u64 = 1 << 63;

// The files and directories of a file system.
const FILES_LIMIT: usize = 4096;

// The bytes of a file.
const SIZE_LIMIT: u64 = 1_048_576;

// The bytes of all files.
const TOTAL_LIMIT: u64 = 67_108_864;

// The bytes of one write.
const TRANSFER_LIMIT: usize = 65_536;

impl Tree {
    /// The number of the file or directory of that name in a directory (RFC 7530, 16.13). `STALE` where the directory
    /// isn't there, `NOTDIR` where it is a file, then `INVAL`, `NAMETOOLONG` or `BADNAME` where the name can't be one, and
    /// `NOENT` exactly where all else is well and there is none.
    #[tactic(auto, unfolding(crate::specs::Answers::find_answer, crate::specs::Answers::find_stop))]
    pub fn find(&self, dir: u64, name: &[u8]) -> Result<u64, OpStatus>
        ensures { result ≡ find_answer dir name.now self.now.table }
    {
        if let Some(status) = find_stop(self.rows(), dir, name) {
            return Err(status);
        }
        self.child(dir, name).ok_or(OpStatus::NoEnt)
    }

    // Whether no further change is counted.
    fn changes_end(&self) -> bool
        ensures { result ≡ changes_end self.now }
    {
        self.change() >= LAST_NUMBER
    }

    // Whether no further file is made.
    fn makes_end(&self) -> bool
        ensures { result ≡ makes_end self.now }
    {
        self.changes_end() || self.last_file() >= LAST_NUMBER || self.count() >= FILES_LIMIT
    }

    #[tactic(auto, unfolding(crate::specs::Answers::make_stop))]
    fn make_stop(&self, dir: u64, name: &[u8]) -> Option<OpStatus>
        ensures stop { result ≡ make_stop self.now dir name.now }
        ensures room { total_size self.now.table ≤ total_limit }
    {
        if let Some(status) = named_stop(self.rows(), dir, name) {
            return Some(status);
        }
        if self.child(dir, name).is_some() {
            return Some(OpStatus::Exist);
        }
        if self.makes_end() {
            return Some(OpStatus::Resource);
        }
        None
    }

    #[tactic(auto, using(crate::proofs::CallLemmas::make_changes, crate::proofs::CallLemmas::make_numbers), unfolding(crate::specs::Answers::make_answer, crate::specs::Answers::after_make))]
    fn make(
        &mut self,
        dir: u64,
        name: &[u8],
        kind: FileKind,
        mode: u32,
        verifier: Option<u64>,
    ) -> Result<u64, Refusal>
        ensures answer { Tells result (make_answer self.old dir name.now) }
        ensures ok { OnOk result (self.new ≡ after_make self.old dir name.now kind mode verifier) }
        ensures err { OnErr result (self.new ≡ self.old) }
    {
        if let Some(status) = self.make_stop(dir, name) {
            return Err(Refusal::Status(status));
        }
        let alloc = self.allocator();
        let number = self.last_file() + 1;
        let name = Bytes::from_slice(alloc, name)?;
        self.add(FileRow {
            number,
            parent: dir,
            name,
            kind,
            mode,
            change: 0,
            verifier,
            bytes: Bytes::new(alloc),
        })?;
        Ok(number)
    }

    /// Makes a directory (RFC 7530, 16.4), and answers its number. Statuses as `find` has them up to `BADNAME`, then
    /// `EXIST` where the name is there, and `RESOURCE` where there are 4,096 files and directories already or the last number of
    /// a file or a change is reached. After an error nothing has changed.
    pub fn make_dir(&mut self, dir: u64, name: &[u8], mode: u32) -> Result<u64, Refusal>
        ensures answer { Tells result (make_answer self.old dir name.now) }
        ensures ok { OnOk result (self.new ≡ after_make self.old dir name.now kind_of.Directory mode None) }
        ensures err { OnErr result (self.new ≡ self.old) }
    {
        self.make(dir, name, FileKind::Directory, mode, None)
    }

    /// Makes a file (RFC 7530, 16.16), with the verifier of an exclusive OPEN where one made it, and answers its number.
    /// Statuses as `make_dir` has them. After an error nothing has changed.
    pub fn make_file(
        &mut self,
        dir: u64,
        name: &[u8],
        mode: u32,
        verifier: Option<u64>,
    ) -> Result<u64, Refusal>
        ensures answer { Tells result (make_answer self.old dir name.now) }
        ensures ok { OnOk result (self.new ≡ after_make self.old dir name.now kind_of.File mode verifier) }
        ensures err { OnErr result (self.new ≡ self.old) }
    {
        self.make(dir, name, FileKind::File, mode, verifier)
    }

    #[tactic(auto, unfolding(crate::specs::Answers::remove_stop))]
    fn remove_stop(&self, dir: u64, name: &[u8]) -> Option<OpStatus>
        ensures { result ≡ remove_stop self.now dir name.now }
    {
        if let Some(status) = find_stop(self.rows(), dir, name) {
            return Some(status);
        }
        if has_entries(self.rows(), self.child(dir, name).unwrap_or(0)) {
            return Some(OpStatus::NotEmpty);
        }
        if self.changes_end() {
            return Some(OpStatus::Resource);
        }
        None
    }

    /// Takes a name from a directory (RFC 7530, 16.26), and answers the number of the file or directory that goes. Statuses
    /// as `find` has them, then `NOTEMPTY` where it is a directory with entries, and `RESOURCE` where the last number of a change
    /// is reached. After an error nothing has changed. Opens are no concern of the tree.
    #[tactic(auto, using(crate::proofs::CallLemmas::remove_changes), unfolding(crate::specs::Answers::remove_answer))]
    pub fn remove(&mut self, dir: u64, name: &[u8]) -> Result<u64, OpStatus>
        ensures answer { result ≡ remove_answer self.old dir name.now }
        ensures ok { OnOk result (self.new ≡ tree_after (Removed dir name.now) self.old) }
        ensures err { OnErr result (self.new ≡ self.old) }
    {
        if let Some(status) = self.remove_stop(dir, name) {
            return Err(status);
        }
        let file = self.child(dir, name).unwrap_or(0);
        self.drop_name(dir, name);
        Ok(file)
    }

    // Whether the bytes of all files are too many, where one gets as long as that.
    fn fills(&self, file: u64, size: u64) -> bool
        ensures { result ≡ nat_lt total_limit (total_with file size self.now.table) }
    {
        let grown = size.saturating_sub(size_at(self.rows(), file));
        grown > TOTAL_LIMIT - self.total_size()
    }

    // Whether they are too many with those of a write.
    fn fills_by(&self, file: u64, offset: u64, bytes: &[u8]) -> bool
        requires { offset + length bytes.now ≤ size_limit }

        ensures { result ≡ nat_lt total_limit (total_with file (size_with offset bytes.now (size_of (file_at file self.now.table))) self.now.table) }
    {
        let before = size_at(self.rows(), file);
        if is_empty(bytes) {
            self.fills(file, before)
        } else {
            self.fills(file, before.max(offset + bytes.len() as u64))
        }
    }

    #[tactic(auto, unfolding(crate::specs::Answers::write_stop))]
    fn write_stop(&self, file: u64, offset: u64, bytes: &[u8]) -> Option<OpStatus>
        ensures { result ≡ write_stop self.now file offset bytes.now }
    {
        if let Some(status) = file_stop(self.rows(), file) {
            return Some(status);
        }
        if is_past(offset, bytes.len()) {
            return Some(OpStatus::FBig);
        }
        if self.fills_by(file, offset, bytes) {
            return Some(OpStatus::NoSpc);
        }
        if !is_empty(bytes) && self.changes_end() {
            return Some(OpStatus::Resource);
        }
        None
    }

    #[tactic(auto, unfolding(crate::specs::Answers::size_stop))]
    fn size_stop(&self, file: u64, size: u64) -> Option<OpStatus>
        ensures { result ≡ size_stop self.now file size }
    {
        if let Some(status) = file_stop(self.rows(), file) {
            return Some(status);
        }
        if size > SIZE_LIMIT {
            return Some(OpStatus::FBig);
        }
        if self.fills(file, size) {
            return Some(OpStatus::NoSpc);
        }
        if self.changes_end() {
            return Some(OpStatus::Resource);
        }
        None
    }

    /// Bytes of a file from an offset on (RFC 7530, 16.23): as many as are asked for, as there are and as 64 KiB hold, and whether
    /// the file ends with them. Bytes that were never written are 0. `STALE` where the file isn't there, `ISDIR` where it is a
    /// directory.
    #[tactic(auto, unfolding(crate::specs::Answers::read_answer))]
    pub fn read(&self, file: u64, offset: u64, count: u32) -> Result<(Bytes, bool), Refusal>
        ensures { Tells result (read_answer file offset count self.now.table) }
    {
        if let Some(status) = file_stop(self.rows(), file) {
            return Err(Refusal::Status(status));
        }
        let bytes = bytes_at(self.rows(), file);
        Ok(read_bytes(self.allocator(), bytes, offset, count)?)
    }

    /// Writes the first 64 KiB of these bytes to a file, from an offset on (RFC 7530, 16.36). Statuses as `read` has them, then
    /// `FBIG` where they would end past 1 MiB, `NOSPC` where all files would have more than 64 MiB, and `RESOURCE` where the last
    /// number of a change is reached. No bytes change nothing. After an error nothing has changed.
    #[tactic(auto, using(crate::proofs::CallLemmas::write_changes, crate::proofs::CallLemmas::write_fits, crate::proofs::CallLemmas::write_room), unfolding(crate::specs::Answers::write_answer, crate::specs::Answers::after_write, nm_rules::specs::Contents::taken))]
    pub fn write(&mut self, file: u64, offset: u64, bytes: &[u8]) -> Result<(), Refusal>
        ensures answer { Tells result (write_answer self.old file offset (taken bytes.now)) }
        ensures ok { OnOk result (self.new ≡ after_write self.old file offset (taken bytes.now)) }
        ensures err { OnErr result (self.new ≡ self.old) }
    {
        let bytes = front(bytes, TRANSFER_LIMIT);
        if let Some(status) = self.write_stop(file, offset, bytes) {
            return Err(Refusal::Status(status));
        }
        if is_empty(bytes) {
            return Ok(());
        }
        let dir = parent_at(self.rows(), file);
        Ok(self.write_at(dir, file, offset, bytes)?)
    }

    /// Cuts a file, or fills it up with 0 (RFC 7530, 16.32). Statuses as `read` has them, then `FBIG` past 1 MiB, `NOSPC` where all
    /// files would have more than 64 MiB, and `RESOURCE` where the last number of a change is reached. After an error nothing
    /// has changed.
    #[tactic(auto, using(crate::proofs::CallLemmas::size_changes, crate::proofs::CallLemmas::size_room), unfolding(crate::specs::Answers::size_answer, crate::specs::Answers::after_size))]
    pub fn set_size(&mut self, file: u64, size: u64) -> Result<(), Refusal>
        ensures answer { Tells result (size_answer self.old file size) }
        ensures ok { OnOk result (self.new ≡ after_size self.old file size) }
        ensures err { OnErr result (self.new ≡ self.old) }
    {
        if let Some(status) = self.size_stop(file, size) {
            return Err(Refusal::Status(status));
        }
        let dir = parent_at(self.rows(), file);
        Ok(self.set(dir, file, Some(size), None)?)
    }

    /// The attributes of a file or directory (RFC 7530, 16.7). `STALE` exactly where it isn't there.
    #[tactic(auto, unfolding(crate::specs::Answers::attrs_answer, nm_rules::specs::Files::attributes_of, nm_rules::specs::Contents::is_directory))]
    pub fn attrs(&self, file: u64) -> Result<FileAttrs, OpStatus>
        ensures { result ≡ attrs_answer file self.now.table }
    {
        match self.row(file) {
            None => Err(OpStatus::Stale),
            Some(row) => Ok(FileAttrs {
                kind: kind_number(row.kind),
                mode: row.mode,
                size: row.bytes.items().len() as u64,
                change: row.change,
                file: row.number,
            }),
        }
    }

    /// The entries of a directory past a number, by rising number (RFC 7530, 16.24). `STALE` where the directory isn't there,
    /// `NOTDIR` where it is a file.
    #[tactic(auto, unfolding(crate::specs::Answers::list_answer))]
    pub fn list(&self, dir: u64, after: u64) -> Result<Listing, Refusal>
        ensures { Tells result (list_answer dir after self.now.table) }
    {
        if let Some(status) = dir_stop(self.rows(), dir) {
            return Err(Refusal::Status(status));
        }
        Ok(listing_of(self.allocator(), self.rows(), dir, after)?)
    }
}

// Whether bytes from an offset on would end past the last place of a file.
fn is_past(offset: u64, count: usize) -> bool
    ensures { result ≡ nat_lt size_limit (offset + count) }
{
    offset > SIZE_LIMIT || count as u64 > SIZE_LIMIT - offset
}

// The type of a file or directory (RFC 7531, nfs_ftype4).
#[tactic(auto, unfolding(nm_rules::specs::Contents::is_directory))]
fn kind_number(kind: FileKind) -> u32
    ensures { result ≡ kind_number (is_directory kind) }
{
    match kind {
        FileKind::File => 1,
        FileKind::Directory => 2,
    }
}
