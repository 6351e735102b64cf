//! What is held, as it is shown.
ghost use Rattle.std.specs.Prelude.{◌≡◌, ◌++◌, IfOk, OnOk, map, position};
ghost use Rattle.nm_rules.specs.Contents.{name_at};
ghost use Rattle.nm_rules.specs.Held.{held_lock, held_row, put_held, range_of, ranges_of, with_locks};
ghost use Rattle.nm_rules.specs.LockRows.{ranges_on};
ghost use Rattle.nm_state.specs.Listing.{is_behind, range_if};

use crate::file_ranges::{FileRanges, ranges_on};
use nm_types::{
    Bytes, FileRow, Held, HeldKind, HeldRow, HeldTable, Items, LockRange, LockRow, Memory, OpenRow,
    RangeList,
};
use std::alloc::Global;

// The name of a file.
#[tactic(auto, unfolding(nm_rules::specs::Contents::name_at, nm_rules::specs::Contents::file_at))]
fn name_of(alloc: Global, files: &[FileRow], number: u64) -> Result<Bytes, Memory>
    ensures { IfOk result (λ name. name ≡ name_at number files.now) }
{
    match files.iter().find(|row| row.number == number) {
        Some(row) => Ok(row.name.copy()?),
        None => Ok(Bytes::new(alloc)),
    }
}

// An open as it is shown.
#[tactic(auto, unfolding(nm_rules::specs::Held::held_row))]
fn show_open(alloc: Global, files: &[FileRow], row: &OpenRow) -> Result<HeldRow, Memory>
    ensures { IfOk result (λ held. held ≡ held_row files.now row.now) }
{
    Ok(HeldRow {
        counter: row.counter,
        seqid: row.seqid,
        file: row.file,
        name: name_of(alloc, files, row.file)?,
        instance: row.owner.instance,
        owner: row.owner.text.copy()?,
        row: HeldKind::Open {
            access: row.access,
            deny: row.deny,
        },
    })
}

// Behind the others comes a range, where that stateid holds it.
fn push_if(list: &mut RangeList, range: &Held, counter: u64) -> Result<(), Memory>
    ensures { OnOk result (list.new ≡ list.old ++ range_if counter range.now) }
{
    if range.owner == counter {
        list.push(LockRange {
            kind: range.kind,
            first: range.first,
            last: range.last,
        })?;
    }
    Ok(())
}

// The ranges that a stateid holds, of all that are held of its file.
#[tactic(auto, using(crate::proofs::ShownLemmas::ranges_more), unfolding(nm_rules::specs::Held::ranges_of))]
fn ranges_of(alloc: Global, rows: &[Held], counter: u64) -> Result<RangeList, Memory>
    ensures { IfOk result (λ list. list ≡ ranges_of counter rows.now) }
{
    let mut list = Items::new(alloc);
    for row in rows {
        push_if(&mut list, row, counter)?;
    }
    Ok(list)
}

// What a stateid holds of its file.
#[tactic(auto, unfolding(nm_rules::specs::Held::ranges_of))]
fn held_by(alloc: Global, ranges: &[FileRanges], row: &LockRow) -> Result<RangeList, Memory>
    ensures { IfOk result (λ list. list ≡ ranges_of row.now.counter (ranges_on row.now.file ranges.now)) }
{
    match ranges_on(ranges, row.file) {
        None => Ok(Items::new(alloc)),
        Some(held) => Ok(ranges_of(alloc, held.rows(), row.counter)?),
    }
}

// The stateid of a lock owner as it is shown.
#[tactic(auto, unfolding(nm_rules::specs::Held::held_lock))]
fn show_lock(
    alloc: Global,
    files: &[FileRow],
    ranges: &[FileRanges],
    row: &LockRow,
) -> Result<HeldRow, Memory>
    ensures { IfOk result (λ held. held ≡ held_lock files.now ranges.now row.now) }
{
    Ok(HeldRow {
        counter: row.counter,
        seqid: row.seqid,
        file: row.file,
        name: name_of(alloc, files, row.file)?,
        instance: row.owner.instance,
        owner: row.owner.text.copy()?,
        row: HeldKind::Lock {
            ranges: held_by(alloc, ranges, row)?,
        },
    })
}

// The place of the first row of a higher counter.
fn place_of(rows: &[HeldRow], counter: u64) -> Option<usize>
    ensures { result ≡ position (is_behind counter) rows.now }
{
    rows.iter().position(|row| counter < row.counter)
}

// The row comes before the first one of a higher counter, else as the last.
fn put(rows: &mut Vec<HeldRow>, row: HeldRow) -> Result<(), Memory>
    ensures { OnOk result (rows.new.items ≡ put_held row rows.old.items) }
{
    match place_of(rows, row.counter) {
        Some(at) => Ok(rows.insert(at, row)?),
        None => Ok(rows.push(row)?),
    }
}

// The opens as they are shown.
fn show_opens(alloc: Global, files: &[FileRow], rows: &[OpenRow]) -> Result<Vec<HeldRow>, Memory>
    ensures { IfOk result (λ held. held.items ≡ map (held_row files.now) rows.now) }
{
    let mut held = Vec::new(alloc);
    for row in rows {
        held.push(show_open(alloc, files, row)?)?;
    }
    Ok(held)
}

// The stateids of lock owners come in their places.
#[tactic(auto, unfolding(nm_rules::specs::Held::with_locks))]
fn put_locks(
    held: &mut Vec<HeldRow>,
    files: &[FileRow],
    ranges: &[FileRanges],
    locks: &[LockRow],
) -> Result<(), Memory>
    ensures { OnOk result (held.new.items ≡ with_locks files.now ranges.now locks.now held.old.items) }
{
    let alloc = *held.allocator();
    for row in locks {
        put(held, show_lock(alloc, files, ranges, row)?)?;
    }
    Ok(())
}

// The rows as a list.
fn listed(rows: Vec<HeldRow>) -> Result<HeldTable, Memory>
    ensures { IfOk result (λ table. table ≡ rows.items) }
{
    let mut table = Items::new(*rows.allocator());
    for row in rows {
        table.push(row)?;
    }
    Ok(table)
}

/// The opens and the stateids of lock owners as they are shown, by rising counter.
pub fn show(
    alloc: Global,
    files: &[FileRow],
    opens: &[OpenRow],
    locks: &[LockRow],
    ranges: &[FileRanges],
) -> Result<HeldTable, Memory>
    ensures { IfOk result (λ table. table ≡ with_locks files.now ranges.now locks.now (map (held_row files.now) opens.now)) }
{
    let mut held = show_opens(alloc, files, opens)?;
    put_locks(&mut held, files, ranges, locks)?;
    Ok(listed(held)?)
}
