//! The stateids of lock owners.
ghost use Rattle.std.specs.Prelude.{◌≡◌, ◌==◌, IfOk, OnOk, filter, not, option_copied, position};
ghost use Rattle.nm_rules.specs.LockRows.{are_idle_of, are_idle_with, is_idle, lock_at, lock_of, put_lock, renewed_lock};
ghost use Rattle.nm_types.specs.Owners.{same_owner};
ghost use Rattle.nm_types.specs.Parties.{same_party};
ghost use Rattle.nm_state.specs.Locking.{has_counter};

use crate::file_ranges::{FileRanges, holds};
use nm_shares::seqid_after;
use nm_types::{Instance, LockRow, Memory, Owner};
use std::alloc::Global;

/// The one of that counter.
#[tactic(auto, unfolding(nm_rules::specs::LockRows::lock_at))]
pub fn find_at(rows: &[LockRow], counter: u64) -> Option<&LockRow>
    ensures { option_copied result ≡ lock_at counter rows.now }
{
    rows.iter().find(|row| row.counter == counter)
}

/// That of an owner on a file.
#[tactic(auto, unfolding(nm_rules::specs::LockRows::lock_of))]
pub fn find_of<'a>(rows: &'a [LockRow], owner: &Owner, file: u64) -> Option<&'a LockRow>
    ensures { option_copied result ≡ lock_of owner.now file rows.now }
{
    rows.iter()
        .find(|row| row.file == file && owner.is_same(&row.owner))
}

// It holds nothing.
fn is_idle(row: &LockRow, ranges: &[FileRanges]) -> bool
    ensures { result ≡ is_idle ranges.now row.now }
{
    !holds(ranges, row.file, row.counter)
}

/// No stateid of the open with that counter holds anything.
#[tactic(auto, unfolding(nm_rules::specs::LockRows::are_idle_with))]
pub fn are_idle_with(rows: &[LockRow], ranges: &[FileRanges], counter: u64) -> bool
    ensures { result ≡ are_idle_with counter rows.now ranges.now }
{
    rows.iter()
        .all(|row| row.opened != counter || is_idle(row, ranges))
}

/// No stateid of the owner holds anything.
#[tactic(auto, unfolding(nm_rules::specs::LockRows::are_idle_of))]
pub fn are_idle_of(rows: &[LockRow], ranges: &[FileRanges], owner: &Owner) -> bool
    ensures { result ≡ are_idle_of owner.now rows.now ranges.now }
{
    rows.iter()
        .all(|row| !owner.is_same(&row.owner) || is_idle(row, ranges))
}

// The place of the one of that counter.
fn place_of(rows: &[LockRow], counter: u64) -> Option<usize>
    ensures { result ≡ position (has_counter counter) rows.now }
{
    rows.iter().position(|row| row.counter == counter)
}

/// The row stands in the place of the one with its counter, else as the last.
pub fn put(rows: &mut Vec<LockRow>, row: LockRow) -> Result<(), Memory>
    ensures { OnOk result (rows.new.items ≡ put_lock row rows.old.items) }
{
    match place_of(rows, row.counter) {
        Some(at) => {
            rows[at] = row;
            Ok(())
        }
        None => Ok(rows.push(row)?),
    }
}

/// A row as it stands after a lock or an unlock.
pub fn renewed(row: &LockRow) -> Result<LockRow, Memory>
    ensures { IfOk result (λ renewed. renewed ≡ renewed_lock row.now) }
{
    let mut row = row.copy()?;
    row.seqid = seqid_after(row.seqid);
    Ok(row)
}

/// Those of an open go.
pub fn drop_opened(rows: &mut Vec<LockRow>, counter: u64)
    ensures { rows.new.items ≡ filter (λ row. not (row.opened == counter)) rows.old.items }
{
    rows.retain(|row| row.opened != counter);
}

/// Those of an owner go.
pub fn drop_owned(rows: &mut Vec<LockRow>, owner: &Owner)
    ensures { rows.new.items ≡ filter (λ row. not (same_owner owner.now row.owner)) rows.old.items }
{
    rows.retain(|row| !owner.is_same(&row.owner));
}

/// Those of an instance go.
pub fn drop_of(rows: &mut Vec<LockRow>, instance: &Instance)
    ensures { rows.new.items ≡ filter (λ row. not (same_party instance.now row.owner.instance)) rows.old.items }
{
    rows.retain(|row| !instance.is_same(&row.owner.instance));
}

/// The same stateids once more.
pub fn copy_rows(alloc: Global, rows: &[LockRow]) -> Result<Vec<LockRow>, Memory>
    ensures { IfOk result (λ copies. copies.items ≡ rows.now) }
{
    let mut copies = Vec::new(alloc);
    for row in rows {
        copies.push(row.copy()?)?;
    }
    Ok(copies)
}
