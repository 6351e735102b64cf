//! The rows of files by rising number: how one is found, and how they change.
ghost use Rattle.std.specs.Prelude.{◌≡◌, ◌≤◌, ◌+◌, ◌++◌, [], ◌∷◌, length, IfOk, OnOk, OnErr, map, filter, not, option_copied, position, Some, None};
ghost use Rattle.nm_rules.specs.Contents.{file_at, child_at, is_named, total_size, total_limit, size_limit, stamped, edited_at, root_row};
ghost use Rattle.nm_rules.specs.Contents.FileEdit.{Wrote, Set};
ghost use Rattle.nm_rules.specs.Files.{size_of};
ghost use Rattle.nm_rules.specs.Past.{parent_of};
ghost use Rattle.nm_tree.specs.Answers.{bytes_at};
ghost use Rattle.nm_tree.specs.Rows.{has_number, put_first, edit_first, resized};

use crate::bytes::{sized_bytes, written_bytes};
use nm_types::{Bytes, FileKind, FileRow, Memory};
use std::alloc::Global;

/// The row of that number.
#[tactic(auto, unfolding(nm_rules::specs::Contents::file_at))]
pub fn find_at(rows: &[FileRow], number: u64) -> Option<&FileRow>
    ensures { option_copied result ≡ file_at number rows.now }
{
    rows.iter().find(|row| row.number == number)
}

/// The bytes of the file of that number, none where it isn't there.
#[tactic(auto, unfolding(crate::specs::Answers::bytes_at))]
pub fn bytes_at(rows: &[FileRow], number: u64) -> &[u8]
    ensures { result.now ≡ bytes_at number rows.now }
{
    match find_at(rows, number) {
        Some(row) => row.bytes.items(),
        None => &[],
    }
}

/// Their count.
pub fn size_at(rows: &[FileRow], number: u64) -> u64
    ensures { result ≡ size_of (file_at number rows.now) }
{
    match find_at(rows, number) {
        Some(row) => row.bytes.items().len() as u64,
        None => 0,
    }
}

/// The directory of the file of that number, 0 where it isn't there.
pub fn parent_at(rows: &[FileRow], number: u64) -> u64
    ensures { result ≡ parent_of (file_at number rows.now) }
{
    match find_at(rows, number) {
        Some(row) => row.parent,
        None => 0,
    }
}

/// Whether the row has that name in that directory.
pub fn named(row: &FileRow, dir: u64, name: &[u8]) -> bool
    ensures { result ≡ is_named dir name.now row.now }
{
    row.parent == dir && row.number != 1 && row.name.items() == name
}

/// The number of the file of that name in a directory.
#[tactic(auto, unfolding(nm_rules::specs::Contents::child_at))]
pub fn find_child(rows: &[FileRow], dir: u64, name: &[u8]) -> Option<u64>
    ensures { result ≡ child_at dir name.now rows.now }
{
    rows.iter()
        .find(|row| named(row, dir, name))
        .map(|row| row.number)
}

/// The bytes of all files.
#[tactic(auto, unfolding(nm_rules::specs::Contents::total_size))]
pub fn total(rows: &[FileRow]) -> u64
    requires { total_size rows.now ≤ total_limit }
    ensures { result ≡ total_size rows.now }
{
    let mut total = 0;
    for row in rows {
        total += row.bytes.items().len() as u64;
    }
    total
}

// The row takes the number of a change, where it has that number.
fn stamp_row(row: &mut FileRow, change: u64, number: u64)
    ensures { row.new ≡ stamped change number row.old }
{
    if row.number == number {
        row.change = change;
    }
}

/// The row of that number takes the number of a change.
pub fn stamp(rows: &mut Vec<FileRow>, change: u64, number: u64)
    ensures { rows.new.items ≡ map (stamped change number) rows.old.items }
{
    for row in rows.iter_mut() {
        stamp_row(row, change, number);
    }
}

// The row takes a mode, where one is given, and the number of a change, where it has that number; else as `stamp_row`.
#[tactic(auto, unfolding(nm_rules::specs::Contents::edited))]
fn set_row(row: &mut FileRow, change: u64, dir: u64, number: u64, mode: Option<u32>)
    ensures { row.new ≡ edited_at change dir number (Set None mode) row.old }
{
    if row.number == number {
        if let Some(mode) = mode {
            row.mode = mode;
        }
        row.change = change;
    } else {
        stamp_row(row, change, dir);
    }
}

// The file of that number takes a mode, where one is given. It and its directory take the number of a change.
fn set_mode(rows: &mut Vec<FileRow>, change: u64, dir: u64, number: u64, mode: Option<u32>)
    ensures { rows.new.items ≡ map (edited_at change dir number (Set None mode)) rows.old.items }
{
    for row in rows.iter_mut() {
        set_row(row, change, dir, number, mode);
    }
}

// The place of the row of that number.
fn place_of(rows: &[FileRow], number: u64) -> Option<usize>
    ensures { result ≡ position (has_number number) rows.now }
{
    rows.iter().position(|row| row.number == number)
}

// The first row of that number gets those bytes.
fn put_bytes(rows: &mut Vec<FileRow>, number: u64, bytes: Bytes)
    ensures { rows.new.items ≡ put_first number bytes rows.old.items }
{
    if let Some(at) = place_of(rows, number) {
        rows[at].bytes = bytes;
    }
}

// The first file of that number gets a size.
fn size_row(rows: &mut Vec<FileRow>, number: u64, size: usize) -> Result<(), Memory>
    ensures ok { OnOk result (rows.new.items ≡ edit_first number (Set (Some size) None) rows.old.items) }
    ensures err { OnErr result (rows.new.items ≡ rows.old.items) }
{
    let alloc = *rows.allocator();
    let bytes = match find_at(rows, number) {
        Some(row) => sized_bytes(alloc, row.bytes.items(), size)?,
        None => return Ok(()),
    };
    put_bytes(rows, number, bytes);
    Ok(())
}

// Bytes are written to the first file of that number, from an offset on.
fn write_row(
    rows: &mut Vec<FileRow>,
    number: u64,
    offset: usize,
    bytes: &[u8],
) -> Result<(), Memory>
    requires { offset + length bytes.now ≤ size_limit }

    ensures ok { OnOk result (rows.new.items ≡ edit_first number (Wrote offset bytes.now) rows.old.items) }
    ensures err { OnErr result (rows.new.items ≡ rows.old.items) }
{
    let alloc = *rows.allocator();
    let bytes = match find_at(rows, number) {
        Some(row) => written_bytes(alloc, row.bytes.items(), offset, bytes)?,
        None => return Ok(()),
    };
    put_bytes(rows, number, bytes);
    Ok(())
}

/// No file but the root.
pub fn root_rows(alloc: Global) -> Result<Vec<FileRow>, Memory>
    ensures { IfOk result (λ rows. rows.items ≡ root_row ∷ []) }
{
    let mut rows = Vec::new(alloc);
    rows.push(FileRow {
        number: 1,
        parent: 1,
        name: Bytes::new(alloc),
        kind: FileKind::Directory,
        mode: 0o755,
        change: 0,
        verifier: None,
        bytes: Bytes::new(alloc),
    })?;
    Ok(rows)
}

/// One more row, whose directory takes the number of a change, as it does.
pub fn add_row(rows: &mut Vec<FileRow>, change: u64, row: FileRow) -> Result<(), Memory>
    ensures ok { OnOk result (rows.new.items ≡ map (stamped change row.parent) rows.old.items ++ record row { change = change } ∷ []) }
    ensures err { OnErr result (rows.new.items ≡ rows.old.items) }
{
    let parent = row.parent;
    let mut row = row;
    row.change = change;
    rows.push(row)?;
    stamp(rows, change, parent);
    Ok(())
}

/// Bytes are written to the file of that number, from an offset on. It and its directory take the number of a change.
pub fn write_rows(
    rows: &mut Vec<FileRow>,
    change: u64,
    dir: u64,
    number: u64,
    offset: usize,
    bytes: &[u8],
) -> Result<(), Memory>
    requires { offset + length bytes.now ≤ size_limit }

    ensures ok { OnOk result (rows.new.items ≡ map (edited_at change dir number (Set None None)) (edit_first number (Wrote offset bytes.now) rows.old.items)) }
    ensures err { OnErr result (rows.new.items ≡ rows.old.items) }
{
    write_row(rows, number, offset, bytes)?;
    set_mode(rows, change, dir, number, None);
    Ok(())
}

// The first file of that number gets a size, where one is given.
#[tactic(auto, unfolding(crate::specs::Rows::resized))]
fn resize(rows: &mut Vec<FileRow>, number: u64, size: Option<u64>) -> Result<(), Memory>
    ensures ok { OnOk result (rows.new.items ≡ resized number size rows.old.items) }
    ensures err { OnErr result (rows.new.items ≡ rows.old.items) }
{
    match size {
        Some(size) => size_row(rows, number, size as usize),
        None => Ok(()),
    }
}

/// The file of that number gets a size and a mode, those that are given. It and its directory take the number of a
/// change.
pub fn set_rows(
    rows: &mut Vec<FileRow>,
    change: u64,
    dir: u64,
    number: u64,
    size: Option<u64>,
    mode: Option<u32>,
) -> Result<(), Memory>
    ensures ok { OnOk result (rows.new.items ≡ map (edited_at change dir number (Set None mode)) (resized number size rows.old.items)) }
    ensures err { OnErr result (rows.new.items ≡ rows.old.items) }
{
    resize(rows, number, size)?;
    set_mode(rows, change, dir, number, mode);
    Ok(())
}

/// That name goes from a directory, which takes the number of a change.
pub fn drop_rows(rows: &mut Vec<FileRow>, change: u64, dir: u64, name: &[u8])
    ensures { rows.new.items ≡ map (stamped change dir) (filter (λ row. not (is_named dir name.now row)) rows.old.items) }
{
    drop_named(rows, dir, name);
    stamp(rows, change, dir);
}

// The rows without those of a name in a directory.
fn drop_named(rows: &mut Vec<FileRow>, dir: u64, name: &[u8])
    ensures { rows.new.items ≡ filter (λ row. not (is_named dir name.now row)) rows.old.items }
{
    rows.retain(|row| !named(row, dir, name));
}

/// The same rows once more.
pub fn copy_rows(alloc: Global, rows: &[FileRow]) -> Result<Vec<FileRow>, Memory>
    ensures { IfOk result (λ copies. copies.items ≡ rows.now) }
{
    let mut copies = Vec::new(alloc);
    for row in rows {
        copies.push(row.copy()?)?;
    }
    Ok(copies)
}
