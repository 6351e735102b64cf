//! The printed text of what is held in a file system.
ghost use Rattle.std.specs.Prelude.{◌≡◌, ◌++◌, flat_map, map, IfOk, OnOk, OnErr};
ghost use Rattle.nm_script.specs.TableText as spec;
ghost use Rattle.nm_script.specs.TableText.{access_text, deny_text, shares_text, open_words, open_line, open_row_text, ranges_in, with_row, lock_words, lock_row_text, held_text_of};
ghost use Rattle.nm_script.specs.Writing.{Stands};

use crate::PhaseNow;
use crate::lock_text::append_range;
use crate::move_text::append_phase;
use crate::writing::{append, append_number};
use nm_types::{HeldKind, HeldRow, HeldTable, LockRange, Memory};
use std::alloc::Global;

#[tactic(auto, using(crate::proofs::TextLemmas::stands_more), unfolding(crate::specs::TableText::access_text))]
fn append_access(out: &mut Vec<u8>, access: u32) -> Result<(), Memory>
    ensures ok { OnOk result (out.new.items ≡ out.old.items ++ access_text access) }
    ensures err { OnErr result (Stands out.old.items out.new.items) }
{
    match access {
        1 => append(out, b"r"),
        2 => append(out, b"w"),
        3 => append(out, b"rw"),
        _ => append_number(out, access as u64),
    }
}

#[tactic(auto, using(crate::proofs::TextLemmas::stands_more), unfolding(crate::specs::TableText::deny_text))]
fn append_deny(out: &mut Vec<u8>, deny: u32) -> Result<(), Memory>
    ensures ok { OnOk result (out.new.items ≡ out.old.items ++ deny_text deny) }
    ensures err { OnErr result (Stands out.old.items out.new.items) }
{
    if deny == 0 {
        return append(out, b"none");
    }
    append_access(out, deny)
}

#[tactic(auto, using(crate::proofs::TextLemmas::stands_more), unfolding(crate::specs::TableText::shares_text))]
fn append_shares(out: &mut Vec<u8>, access: u32, deny: u32) -> Result<(), Memory>
    ensures ok { OnOk result (out.new.items ≡ out.old.items ++ shares_text access deny) }
    ensures err { OnErr result (Stands out.old.items out.new.items) }
{
    append_access(out, access)?;
    append(out, b" ")?;
    append_deny(out, deny)
}

#[tactic(auto, using(crate::proofs::TextLemmas::stands_more), unfolding(crate::specs::TableText::open_words))]
fn append_open(
    out: &mut Vec<u8>,
    file: &[u8],
    owner: &[u8],
    access: u32,
    deny: u32,
) -> Result<(), Memory>
    ensures ok { OnOk result (out.new.items ≡ out.old.items ++ open_words file.now owner.now access deny) }
    ensures err { OnErr result (Stands out.old.items out.new.items) }
{
    append(out, b"open ")?;
    append(out, file)?;
    append(out, b" ")?;
    append(out, owner)?;
    append(out, b" ")?;
    append_shares(out, access, deny)
}

#[tactic(auto, using(crate::proofs::TextLemmas::stands_more, crate::proofs::TextLemmas::stands_still), unfolding(crate::specs::TableText::open_line))]
fn append_open_line(
    out: &mut Vec<u8>,
    file: &[u8],
    owner: &[u8],
    held: &HeldKind,
) -> Result<(), Memory>
    ensures ok { OnOk result (out.new.items ≡ out.old.items ++ open_line file.now owner.now held.now) }
    ensures err { OnErr result (Stands out.old.items out.new.items) }
{
    match held {
        HeldKind::Open { access, deny } => {
            append(out, b"  ")?;
            append_open(out, file, owner, *access, *deny)?;
            append(out, b"\n")
        }
        HeldKind::Lock { .. } => Ok(()),
    }
}

#[tactic(auto, unfolding(crate::specs::TableText::open_row_text))]
fn append_open_row(out: &mut Vec<u8>, row: &HeldRow) -> Result<(), Memory>
    ensures ok { OnOk result (out.new.items ≡ out.old.items ++ open_row_text row.now) }
    ensures err { OnErr result (Stands out.old.items out.new.items) }
{
    append_open_line(out, row.name.items(), row.owner.items(), &row.row)
}

#[tactic(auto, using(crate::proofs::TextLemmas::stands_more))]
fn append_open_rows(out: &mut Vec<u8>, rows: &[HeldRow]) -> Result<(), Memory>
    ensures ok { OnOk result (out.new.items ≡ out.old.items ++ flat_map open_row_text rows.now) }
    ensures err { OnErr result (Stands out.old.items out.new.items) }
{
    for row in rows {
        append_open_row(out, row)?;
    }
    Ok(())
}

// Adds the ranges that a stateid holds.
fn push_ranges<'a>(
    held: &mut Vec<(&'a HeldRow, LockRange)>,
    row: &'a HeldRow,
    ranges: &[LockRange],
) -> Result<(), Memory>
    ensures { OnOk result (map (λ h. (h.0.now, h.1)) held.new.items ≡ map (λ h. (h.0.now, h.1)) held.old.items ++ with_row row.now ranges.now) }
{
    for range in ranges {
        held.push((row, *range))?;
    }
    Ok(())
}

// Adds them where it is one of byte-range locks.
#[tactic(auto, unfolding(crate::specs::TableText::ranges_in))]
fn push_held<'a>(held: &mut Vec<(&'a HeldRow, LockRange)>, row: &'a HeldRow) -> Result<(), Memory>
    ensures { OnOk result (map (λ h. (h.0.now, h.1)) held.new.items ≡ map (λ h. (h.0.now, h.1)) held.old.items ++ with_row row.now (ranges_in row.now.row)) }
{
    match &row.row {
        HeldKind::Open { .. } => Ok(()),
        HeldKind::Lock { ranges } => push_ranges(held, row, ranges.items()),
    }
}

// All ranges that are held, stateid by stateid.
#[tactic(auto, unfolding(crate::specs::TableText::ranges_held))]
fn ranges_held(alloc: Global, rows: &[HeldRow]) -> Result<Vec<(&HeldRow, LockRange)>, Memory>
    ensures { IfOk result (λ held. map (λ h. (h.0.now, h.1)) held.items ≡ spec.ranges_held rows.now) }
{
    let mut held = Vec::new(alloc);
    for row in rows {
        push_held(&mut held, row)?;
    }
    Ok(held)
}

// All of them by file, by first byte, and by the counter of the stateid.
fn ranges_shown(alloc: Global, rows: &[HeldRow]) -> Result<Vec<(&HeldRow, LockRange)>, Memory>
    ensures { IfOk result (λ held. map (λ h. (h.0.now, h.1)) held.items ≡ spec.ranges_shown rows.now) }
{
    let mut held = ranges_held(alloc, rows)?;
    held.sort_by_key(|(row, range)| (row.file, range.first, row.counter))?;
    Ok(held)
}

#[tactic(auto, using(crate::proofs::TextLemmas::stands_more), unfolding(crate::specs::TableText::lock_words))]
fn append_lock(out: &mut Vec<u8>, row: &HeldRow, range: &LockRange) -> Result<(), Memory>
    ensures ok { OnOk result (out.new.items ≡ out.old.items ++ lock_words row.now range.now) }
    ensures err { OnErr result (Stands out.old.items out.new.items) }
{
    append(out, b"lock ")?;
    append(out, row.name.items())?;
    append(out, b" ")?;
    append(out, row.owner.items())?;
    append(out, b" ")?;
    append_range(out, range)
}

#[tactic(auto, using(crate::proofs::TextLemmas::stands_more), unfolding(crate::specs::TableText::lock_row_text))]
fn append_lock_row(out: &mut Vec<u8>, row: &HeldRow, range: &LockRange) -> Result<(), Memory>
    ensures ok { OnOk result (out.new.items ≡ out.old.items ++ lock_row_text (row.now, range.now)) }
    ensures err { OnErr result (Stands out.old.items out.new.items) }
{
    append(out, b"  ")?;
    append_lock(out, row, range)?;
    append(out, b"\n")
}

#[tactic(auto, using(crate::proofs::TextLemmas::stands_more))]
fn append_lock_rows(out: &mut Vec<u8>, held: &[(&HeldRow, LockRange)]) -> Result<(), Memory>
    ensures ok { OnOk result (out.new.items ≡ out.old.items ++ flat_map lock_row_text (map (λ h. (h.0.now, h.1)) held.now)) }
    ensures err { OnErr result (Stands out.old.items out.new.items) }
{
    for (row, range) in held {
        append_lock_row(out, row, range)?;
    }
    Ok(())
}

#[tactic(auto, using(crate::proofs::TextLemmas::stands_more, crate::proofs::TextLemmas::stands_still))]
fn append_locks(out: &mut Vec<u8>, rows: &[HeldRow]) -> Result<(), Memory>
    ensures ok { OnOk result (out.new.items ≡ out.old.items ++ flat_map lock_row_text (spec.ranges_shown rows.now)) }
    ensures err { OnErr result (Stands out.old.items out.new.items) }
{
    let held = ranges_shown(*out.allocator(), rows)?;
    append_lock_rows(out, &held)
}

#[tactic(auto, using(crate::proofs::TextLemmas::stands_more), unfolding(crate::specs::TableText::held_text_of))]
pub(crate) fn append_table(
    out: &mut Vec<u8>,
    file_system: &[u8],
    phase: &PhaseNow,
    table: &HeldTable,
) -> Result<(), Memory>
    ensures ok { OnOk result (out.new.items ≡ out.old.items ++ held_text_of file_system.now phase.now table.now) }
    ensures err { OnErr result (Stands out.old.items out.new.items) }
{
    append_phase(out, file_system, phase)?;
    append(out, b"\n")?;
    append_open_rows(out, table.items())?;
    append_locks(out, table.items())
}
