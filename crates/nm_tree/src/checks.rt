//! What refuses a call before its limits: what is there and what isn't.
ghost use Rattle.std.specs.Prelude.{◌≡◌};
ghost use Rattle.nm_rules.specs.Files.{has_entries};
ghost use Rattle.nm_tree.specs.Answers.{dir_stop, file_stop, named_stop, find_stop};

use crate::names::name_stop;
use crate::rows::{find_at, find_child};
use nm_types::{FileKind, FileRow, OpStatus};

/// The directory has to be there, and to be one.
#[tactic(auto, unfolding(crate::specs::Answers::dir_stop, nm_rules::specs::Checks::is_no_dir, nm_rules::specs::Contents::is_directory))]
pub fn dir_stop(rows: &[FileRow], dir: u64) -> Option<OpStatus>
    ensures { result ≡ dir_stop dir rows.now }
{
    match find_at(rows, dir) {
        None => Some(OpStatus::Stale),
        Some(row) => match row.kind {
            FileKind::File => Some(OpStatus::NotDir),
            FileKind::Directory => None,
        },
    }
}

/// The file has to be there, and to be no directory.
#[tactic(auto, unfolding(crate::specs::Answers::file_stop, nm_rules::specs::Checks::is_dir, nm_rules::specs::Contents::is_directory))]
pub fn file_stop(rows: &[FileRow], file: u64) -> Option<OpStatus>
    ensures { result ≡ file_stop file rows.now }
{
    match find_at(rows, file) {
        None => Some(OpStatus::Stale),
        Some(row) => match row.kind {
            FileKind::File => None,
            FileKind::Directory => Some(OpStatus::IsDir),
        },
    }
}

/// A name in a directory.
#[tactic(auto, unfolding(crate::specs::Answers::named_stop))]
pub fn named_stop(rows: &[FileRow], dir: u64, name: &[u8]) -> Option<OpStatus>
    ensures { result ≡ named_stop dir name.now rows.now }
{
    match dir_stop(rows, dir) {
        Some(status) => Some(status),
        None => name_stop(name),
    }
}

/// A name that is there.
#[tactic(auto, unfolding(crate::specs::Answers::find_stop))]
pub fn find_stop(rows: &[FileRow], dir: u64, name: &[u8]) -> Option<OpStatus>
    ensures { result ≡ find_stop dir name.now rows.now }
{
    match named_stop(rows, dir, name) {
        Some(status) => Some(status),
        None => match find_child(rows, dir, name) {
            Some(_) => None,
            None => Some(OpStatus::NoEnt),
        },
    }
}

/// Whether some file is in the directory.
#[tactic(auto, unfolding(nm_rules::specs::Files::has_entries))]
pub fn has_entries(rows: &[FileRow], dir: u64) -> bool
    ensures { result ≡ has_entries dir rows.now }
{
    rows.iter().any(|row| row.parent == dir && row.number != 1)
}
