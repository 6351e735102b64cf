//! The values of CREATE and READDIR.
ghost use Rattle.std.specs.Prelude.{◌≡◌, ◌++◌, All, [], true};
ghost use Rattle.std.specs.List.{flat_map};
ghost use Rattle.nm_xdr.specs.Items.{flag, optional_at};
ghost use Rattle.nm_xdr.specs.Places.{Puts};
ghost use Rattle.nm_items.specs.Takes.{Takes};
ghost use Rattle.nm_results.specs.Directories.{create_at, create, written_create, IsCreate, entry_at, entry, entries_at, all_entries_at, entries, IsEntry, dir_at, dir_bytes, IsDir};

use crate::parts::{put_change, take_change};
use crate::{DirEntries, DirEntry, ReadDirOk};
use nm_items::{ReadFault, put_fattr, take_fattr, take_kept, take_words};
use nm_types::CreateOk;
use nm_xdr::{Cursor, Memory, Writer, XdrFault};
use std::alloc::Global;

/// Takes the value of CREATE.
#[tactic(auto, unfolding(crate::specs::Directories::create_at))]
pub(crate) fn take_create(alloc: Global, cursor: &mut Cursor<'_>) -> Result<CreateOk, ReadFault>
    ensures { Takes create_at cursor.old result cursor.new }
{
    let cinfo = take_change(cursor)?;
    let attrset = take_words(alloc, cursor, 8)?;
    Ok(CreateOk { cinfo, attrset })
}

/// Puts the value of CREATE.
#[tactic(auto, using(nm_xdr::proofs::PutLaws::front_there, nm_xdr::proofs::PutLaws::front_stands), unfolding(crate::specs::Directories::create))]
pub(crate) fn put_create(writer: &mut Writer, value: &CreateOk) -> Result<(), Memory>
    requires { IsCreate value.now }
    ensures { Puts writer.old (create (written_create value.now)) result writer.new }
{
    put_change(writer, &value.cinfo)?;
    writer.put_words(value.attrset.items())
}

/// Takes the value of READDIR.
#[tactic(auto, unfolding(crate::specs::Directories::dir_at))]
pub(crate) fn take_dir(alloc: Global, cursor: &mut Cursor<'_>) -> Result<ReadDirOk, ReadFault>
    ensures { Takes dir_at cursor.old result cursor.new }
{
    let cookieverf = cursor.take_u64()?;
    let entries = take_all_entries(alloc, cursor)?;
    let eof = cursor.take_bool()?;
    Ok(ReadDirOk {
        cookieverf,
        entries,
        eof,
    })
}

// Entries, up to the mark of their end. There are fewer of them than bytes.
#[tactic(auto, unfolding(crate::specs::Directories::all_entries_at))]
fn take_all_entries(alloc: Global, cursor: &mut Cursor<'_>) -> Result<DirEntries, ReadFault>
    ensures { Takes all_entries_at cursor.old result cursor.new }
{
    let bytes = cursor.left();
    take_entries(alloc, cursor, bytes)
}

// Fewer entries than this number, up to the mark of their end. Each takes memory once it was read.
fn take_entries(
    alloc: Global,
    cursor: &mut Cursor<'_>,
    number: usize,
) -> Result<DirEntries, ReadFault>
    ensures { Takes (entries_at number []) cursor.old result cursor.new }
{
    let mut entries = DirEntries::new(alloc);
    for _ in 0..number {
        match take_next(alloc, cursor)? {
            Some(entry) => entries.push(entry)?,
            None => return Ok(entries),
        }
    }
    Err(ReadFault::Xdr(XdrFault::Short { at: cursor.place() }))
}

// The next entry, or the mark of their end.
#[tactic(auto, unfolding(nm_xdr::specs::Items::optional_at))]
fn take_next(alloc: Global, cursor: &mut Cursor<'_>) -> Result<Option<DirEntry>, ReadFault>
    ensures { Takes (optional_at entry_at) cursor.old result cursor.new }
{
    if cursor.take_bool()? {
        Ok(Some(take_entry(alloc, cursor)?))
    } else {
        Ok(None)
    }
}

#[tactic(auto, unfolding(crate::specs::Directories::entry_at))]
fn take_entry(alloc: Global, cursor: &mut Cursor<'_>) -> Result<DirEntry, ReadFault>
    ensures { Takes entry_at cursor.old result cursor.new }
{
    let cookie = cursor.take_u64()?;
    let name = take_kept(alloc, cursor, 1_048_576)?;
    let attrs = take_fattr(alloc, cursor)?;
    Ok(DirEntry {
        cookie,
        name,
        attrs,
    })
}

/// Puts the value of READDIR.
#[tactic(auto, using(nm_xdr::proofs::PutLaws::front_there, nm_xdr::proofs::PutLaws::front_stands), unfolding(crate::specs::Directories::dir_bytes, crate::specs::Directories::entries))]
pub(crate) fn put_dir(writer: &mut Writer, value: &ReadDirOk) -> Result<(), Memory>
    requires { IsDir value.now }
    ensures { Puts writer.old (dir_bytes value.now) result writer.new }
{
    writer.put_u64(value.cookieverf)?;
    put_entries(writer, value.entries.items())?;
    writer.put_bool(false)?;
    writer.put_bool(value.eof)
}

// Entries, each behind a flag that is true.
#[tactic(auto, using(nm_xdr::proofs::PutLaws::front_there, nm_xdr::proofs::PutLaws::front_stands))]
fn put_entries(writer: &mut Writer, entries: &[DirEntry]) -> Result<(), Memory>
    requires { All IsEntry entries.now }
    ensures { Puts writer.old (flat_map (λ e. flag true ++ entry e) entries.now) result writer.new }
{
    for entry in entries {
        put_entry(writer, entry)?;
    }
    Ok(())
}

#[tactic(auto, using(nm_xdr::proofs::PutLaws::front_there, nm_xdr::proofs::PutLaws::front_stands), unfolding(crate::specs::Directories::entry))]
fn put_entry(writer: &mut Writer, value: &DirEntry) -> Result<(), Memory>
    requires { IsEntry value.now }
    ensures { Puts writer.old (flag true ++ entry value.now) result writer.new }
{
    writer.put_bool(true)?;
    writer.put_u64(value.cookie)?;
    writer.put_opaque(value.name.items())?;
    put_fattr(writer, &value.attrs)
}
