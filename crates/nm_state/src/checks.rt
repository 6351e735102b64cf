//! Classes of refusal that operations share.
ghost use Rattle.std.specs.Prelude.{◌≡◌, ◌≤◌, option_copied};
ghost use Rattle.std.specs.List.{list_any};
ghost use Rattle.nm_rules.specs.Lists.{is_empty};
ghost use Rattle.nm_rules.specs.Names.{name_fault, is_bad_name, parts_paths};
ghost use Rattle.nm_rules.specs.Contents.{size_limit, total_limit, is_directory};
ghost use Rattle.nm_rules.specs.Checks.{refuse_if, lease_stop, missing_stop, is_dir, is_no_dir, arguments_fault};
ghost use Rattle.nm_rules.specs.Files.{current, changes_past_end, makes_past_end, size_of, fills_up, sized_limit, change_of, changed_dir};
ghost use Rattle.nm_state.specs.Asked.{asks_of_code};

use crate::attributes::Asked;
use crate::tables::Tables;
use nm_types::{ChangeInfo, FileKind, FileRow, OpStatus, Verdict};

/// The last counter, file's number and change's number: none comes after it.
pub const LAST: u64 = 1 << 63;

/// The files of a file system, directories and the root among them.
const FILES_LIMIT: usize = 4096;

/// The bytes of a file.
const SIZE_LIMIT: u64 = 1 << 20;

/// The bytes of all files of a file system.
const TOTAL_LIMIT: u64 = 1 << 26;

/// Refused with that status where the test holds.
pub fn refuse_if(test: bool, status: OpStatus) -> Option<OpStatus>
    ensures { result ≡ refuse_if test status }
{
    if test { Some(status) } else { None }
}

/// What the caller's lease says.
pub fn lease_refusal(verdict: Verdict) -> Option<OpStatus>
    ensures { result ≡ lease_stop verdict }
{
    match verdict {
        Verdict::Pass => None,
        Verdict::LeaseMoved => Some(OpStatus::LeaseMoved),
    }
}

// A slash or a zero byte is in the name.
fn parts_paths(name: &[u8]) -> bool
    ensures { result ≡ list_any parts_paths name.now }
{
    name.iter().any(|byte| *byte == b'/' || *byte == 0)
}

// `.`, `..`, or a name with a byte that parts paths.
#[tactic(auto, unfolding(nm_rules::specs::Names::is_bad_name))]
fn is_bad_name(name: &[u8]) -> bool
    ensures { result ≡ is_bad_name name.now }
{
    name == b".".as_slice() || name == b"..".as_slice() || parts_paths(name)
}

// What is wrong with a name that isn't empty.
#[tactic(auto, unfolding(nm_rules::specs::Names::name_fault))]
fn name_fault(name: &[u8]) -> Option<OpStatus>
    ensures { result ≡ name_fault name.now }
{
    if name.len() > 255 {
        Some(OpStatus::NameTooLong)
    } else {
        refuse_if(is_bad_name(name), OpStatus::BadName)
    }
}

/// There are no bytes.
#[tactic(auto, unfolding(nm_rules::specs::Lists::is_empty))]
pub fn is_empty(bytes: &[u8]) -> bool
    ensures { result ≡ is_empty bytes.now }
{
    match bytes {
        [] => true,
        [..] => false,
    }
}

/// What is wrong with arguments that have a name and attributes, and may be invalid by something else.
#[tactic(auto, unfolding(nm_rules::specs::Checks::arguments_fault))]
pub fn arguments_fault(invalid: bool, name: &[u8], asks: Asked) -> Option<OpStatus>
    ensures { result ≡ arguments_fault invalid name.now (asks_of_code asks) }
{
    if invalid || is_empty(name) || asks.is_invalid() {
        return Some(OpStatus::Inval);
    }
    name_fault(name).or(refuse_if(asks.is_unsupported(), OpStatus::AttrNotSupp))
}

impl Tables {
    /// The current file isn't there.
    pub fn missing_stop(&self, file: u64) -> Option<OpStatus>
        ensures { result ≡ missing_stop (current self.now file) }
    {
        refuse_if(self.tree.row(file).is_none(), OpStatus::Stale)
    }

    /// It is there, and is a directory.
    pub fn is_dir(&self, file: u64) -> bool
        ensures { result ≡ is_dir (current self.now file) }
    {
        is_dir(self.tree.row(file))
    }

    /// It is there, and isn't one.
    pub fn is_no_dir(&self, file: u64) -> bool
        ensures { result ≡ is_no_dir (current self.now file) }
    {
        is_no_dir(self.tree.row(file))
    }

    /// No change is counted past the last one.
    pub fn changes_past_end(&self) -> bool
        ensures { result ≡ changes_past_end self.now }
    {
        LAST <= self.tree.change()
    }

    /// No file is made past the last one, nor more than there may be.
    pub fn makes_past_end(&self) -> bool
        ensures { result ≡ makes_past_end self.now }
    {
        self.changes_past_end() || LAST <= self.tree.last_file() || FILES_LIMIT <= self.tree.count()
    }

    /// With that size of a file the bytes of all files are too many.
    pub fn fills_up(&self, before: u64, size: u64) -> bool
        ensures { result ≡ fills_up self.now before size }
    {
        TOTAL_LIMIT - self.tree.total_size() < size.saturating_sub(before)
    }

    /// The size that a file is to have, past what it may be.
    #[tactic(auto, unfolding(nm_rules::specs::Files::sized_limit))]
    pub fn sized_limit(&self, row: Option<&FileRow>, size: Option<u64>) -> Option<OpStatus>
        ensures { result ≡ sized_limit self.now (option_copied row.entry) size }
    {
        match size {
            None => None,
            Some(size) => refuse_if(SIZE_LIMIT < size, OpStatus::FBig).or(refuse_if(
                self.fills_up(size_of(row), size),
                OpStatus::NoSpc,
            )),
        }
    }

    /// A file's latest change, 0 where there is no such file.
    pub fn change_of(&self, file: u64) -> u64
        ensures { result ≡ change_of (current self.now file) }
    {
        match self.tree.row(file) {
            Some(row) => row.change,
            None => 0,
        }
    }

    /// A directory's numbers around the change of it that comes next.
    pub fn changed_dir(&self, dir: u64) -> ChangeInfo
        ensures { result ≡ changed_dir self.now dir }
    {
        ChangeInfo {
            before: self.change_of(dir),
            after: self.tree.change() + 1,
        }
    }
}

// A directory.
#[tactic(auto, unfolding(nm_rules::specs::Contents::is_directory))]
fn is_directory(kind: FileKind) -> bool
    ensures { result ≡ is_directory kind }
{
    match kind {
        FileKind::File => false,
        FileKind::Directory => true,
    }
}

/// It is there, and is a directory.
#[tactic(auto, unfolding(nm_rules::specs::Checks::is_dir))]
pub fn is_dir(row: Option<&FileRow>) -> bool
    ensures { result ≡ is_dir (option_copied row.entry) }
{
    match row {
        Some(row) => is_directory(row.kind),
        None => false,
    }
}

/// It is there, and isn't one.
#[tactic(auto, unfolding(nm_rules::specs::Checks::is_no_dir))]
pub fn is_no_dir(row: Option<&FileRow>) -> bool
    ensures { result ≡ is_no_dir (option_copied row.entry) }
{
    match row {
        Some(row) => !is_directory(row.kind),
        None => false,
    }
}

/// How many bytes a file has, 0 where there is no such file.
pub fn size_of(row: Option<&FileRow>) -> u64
    ensures { result ≡ size_of (option_copied row.entry) }
{
    match row {
        Some(row) => row.bytes.items().len() as u64,
        None => 0,
    }
}
