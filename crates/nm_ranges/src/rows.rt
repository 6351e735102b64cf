//! Work on a list of ranges.
ghost use Rattle.std.specs.Prelude.{◌≡◌, ◌++◌, ◌∷◌, [], List, Option, None, Some, IfOk, OnOk, OnErr, ◌≤◌, insert, length, position};
ghost use Rattle.nm_rules.specs.Locks.{barrier, barrier_with, before_of, behind_of, cleared, cut, dropped, holds, joined, joined_after, met, nearest, put_range, set_to};
ghost use Rattle.nm_types.specs.declared.rows.Held.{Held as AnyHeld};
ghost use Rattle.nm_ranges.specs.Rows.{joined_from, stays_behind};

use crate::pairs::{is_before, is_cut, is_in_way, touches};
use nm_types::{Held, Memory};
use std::alloc::Global;

// The least byte from there on that a row has, where it has one.
fn met(row: &Held, first: u64) -> u64
    ensures { result ≡ met first row.now }
{
    if first < row.first { row.first } else { first }
}

// Which of a row and one behind it is met first.
fn nearest(row: &Held, found: Option<Held>, first: u64) -> Held
    ensures { result ≡ nearest first row.now found }
{
    match found {
        None => *row,
        Some(other) => {
            if met(row, first) <= met(&other, first) {
                *row
            } else {
                other
            }
        }
    }
}

// What is met first, of a row and those behind it.
fn barrier_with(asked: &Held, row: &Held, found: Option<Held>) -> Option<Held>
    ensures { result ≡ barrier_with asked.now.owner asked.now.kind asked.now.first asked.now.last row.now found }
{
    if is_in_way(asked, row) {
        Some(nearest(row, found, asked.first))
    } else {
        found
    }
}

/// What a lock meets first.
#[tactic(auto, using(crate::proofs::RowLemmas::barrier_more, crate::proofs::RowLemmas::barrier_end))]
pub fn barrier(rows: &[Held], asked: &Held) -> Option<Held>
    ensures { result ≡ barrier asked.now.owner asked.now.kind asked.now.first asked.now.last rows.now }
{
    let mut found = None;
    // From the last row on, as the definition has it.
    for at in (0..rows.len()).rev() {
        found = barrier_with(asked, &rows[at], found);
    }
    found
}

/// Whether an owner holds a range.
#[tactic(auto, unfolding(nm_rules::specs::Locks::holds))]
pub fn holds(rows: &[Held], owner: u64) -> bool
    ensures { result ≡ holds owner rows.now }
{
    rows.iter().any(|row| row.owner == owner)
}

// Behind the others comes what is left of a row before a byte.
fn push_before(left: &mut Vec<Held>, row: &Held, first: u64) -> Result<(), Memory>
    ensures { OnOk result (left.new.items ≡ left.old.items ++ before_of first row.now) }
{
    if row.first < first {
        left.push(Held {
            last: first - 1,
            ..*row
        })?;
    }
    Ok(())
}

// Behind the others comes what is left of a row behind a byte.
fn push_behind(left: &mut Vec<Held>, row: &Held, last: u64) -> Result<(), Memory>
    ensures { OnOk result (left.new.items ≡ left.old.items ++ behind_of last row.now) }
{
    if last < row.last {
        left.push(Held {
            first: last + 1,
            ..*row
        })?;
    }
    Ok(())
}

// Behind the others comes what is left of a row, once its owner's lock is taken off a range.
fn push_cut(
    left: &mut Vec<Held>,
    row: &Held,
    owner: u64,
    first: u64,
    last: u64,
) -> Result<(), Memory>
    ensures { OnOk result (left.new.items ≡ left.old.items ++ cut owner first last row.now) }
{
    if is_cut(row, owner, first, last) {
        push_before(left, row, first)?;
        Ok(push_behind(left, row, last)?)
    } else {
        Ok(left.push(*row)?)
    }
}

// What is left of all rows, once an owner's lock is taken off a range.
#[tactic(auto, using(crate::proofs::RowLemmas::cleared_more), unfolding(nm_rules::specs::Locks::cleared))]
fn cleared(
    alloc: Global,
    rows: &[Held],
    owner: u64,
    first: u64,
    last: u64,
) -> Result<Vec<Held>, Memory>
    ensures { IfOk result (λ left. left.items ≡ cleared owner first last rows.now) }
{
    let mut left = Vec::new(alloc);
    for row in rows {
        push_cut(&mut left, row, owner, first, last)?;
    }
    Ok(left)
}

// The place of the first row that doesn't end before that one.
fn place_of(rows: &[Held], new: &Held) -> Option<usize>
    ensures { result ≡ position (stays_behind new.now) rows.now }
{
    rows.iter().position(|row| !is_before(row, new))
}

// The place behind the rows that end before that one.
#[tactic(auto, using(crate::proofs::RowLemmas::put_found, crate::proofs::RowLemmas::put_last, crate::proofs::RowLemmas::put_within))]
fn place_for(rows: &[Held], new: &Held) -> usize
    ensures within { result ≤ length rows.now }
    ensures put { insert rows.now result new.now ≡ put_range new.now rows.now }
{
    match place_of(rows, new) {
        Some(at) => at,
        None => rows.len(),
    }
}

// The row comes behind those that end before it.
fn put(rows: &mut Vec<Held>, new: &Held) -> Result<(), Memory>
    ensures { OnOk result (rows.new.items ≡ put_range new.now rows.old.items) }
{
    let at = place_for(rows, new);
    Ok(rows.insert(at, *new)?)
}

// A row comes behind the one that waits: they are joined where they touch, else that one comes behind the others. Which one
// waits then.
#[tactic(auto, unfolding(nm_rules::specs::Locks::joined, nm_rules::specs::Locks::joined_after))]
fn join(left: &mut Vec<Held>, waiting: Option<Held>, row: &Held) -> Result<Held, Memory>
    ensures { IfOk result (λ next. (rest : List AnyHeld) → left.new.items ++ joined_after next rest ≡ left.old.items ++ joined_from waiting (row.now ∷ rest)) }
{
    match waiting {
        None => Ok(*row),
        Some(before) => {
            if touches(&before, row) {
                return Ok(Held {
                    last: row.last,
                    ..before
                });
            }
            left.push(before)?;
            Ok(*row)
        }
    }
}

// The row that waits, where there is one, comes behind the others.
#[tactic(auto, unfolding(nm_rules::specs::Locks::joined, nm_rules::specs::Locks::joined_after))]
fn push_waiting(left: &mut Vec<Held>, waiting: Option<Held>) -> Result<(), Memory>
    ensures { OnOk result (left.new.items ≡ left.old.items ++ joined_from waiting []) }
{
    match waiting {
        None => Ok(()),
        Some(row) => Ok(left.push(row)?),
    }
}

// The rows, where neighbours that touch are one.
#[tactic(auto, using(crate::proofs::RowLemmas::joined_more, crate::proofs::RowLemmas::joined_end))]
fn joined(alloc: Global, rows: &[Held]) -> Result<Vec<Held>, Memory>
    ensures { IfOk result (λ left. left.items ≡ joined rows.now) }
{
    let mut left = Vec::new(alloc);
    let mut waiting = None;
    for row in rows {
        waiting = Some(join(&mut left, waiting, row)?);
    }
    push_waiting(&mut left, waiting)?;
    Ok(left)
}

// The rows once a lock has taken the place of what its owner held in its range.
#[tactic(auto, unfolding(nm_rules::specs::Locks::set_to))]
fn set_to(alloc: Global, rows: &[Held], new: &Held) -> Result<Vec<Held>, Memory>
    ensures { IfOk result (λ left. left.items ≡ set_to new.now.owner new.now.kind new.now.first new.now.last rows.now) }
{
    let mut left = cleared(alloc, rows, new.owner, new.first, new.last)?;
    put(&mut left, new)?;
    Ok(joined(alloc, &left)?)
}

/// A lock takes the place of what its owner held in its range.
pub fn set_rows(rows: &mut Vec<Held>, new: &Held) -> Result<(), Memory>
    ensures ok { OnOk result (rows.new.items ≡ set_to new.now.owner new.now.kind new.now.first new.now.last rows.old.items) }
    ensures err { OnErr result (rows.new.items ≡ rows.old.items) }
{
    *rows = set_to(*rows.allocator(), rows, new)?;
    Ok(())
}

/// An owner's lock is taken off a range.
pub fn clear_rows(rows: &mut Vec<Held>, owner: u64, first: u64, last: u64) -> Result<(), Memory>
    ensures ok { OnOk result (rows.new.items ≡ cleared owner first last rows.old.items) }
    ensures err { OnErr result (rows.new.items ≡ rows.old.items) }
{
    *rows = cleared(*rows.allocator(), rows, owner, first, last)?;
    Ok(())
}

/// The rows without those of an owner.
pub fn drop_owner(rows: &mut Vec<Held>, owner: u64)
    ensures { rows.new.items ≡ dropped owner rows.old.items }
{
    rows.retain(|row| row.owner != owner);
}

/// The same rows once more.
pub fn copy_rows(rows: &Vec<Held>) -> Result<Vec<Held>, Memory>
    ensures { IfOk result (λ copies. copies.items ≡ rows.now.items) }
{
    Ok(Vec::from_slice(*rows.allocator(), rows)?)
}
