//! Tests of one row, and of two.
ghost use Rattle.std.specs.Prelude.{◌≡◌, ◌==◌, ◌&&◌, ◌+◌};
ghost use Rattle.nm_rules.specs.Locks.{is_before, is_in_way, is_write, kinds_conflict, overlaps, same_lock, touches};

use nm_types::{Held, LockKind};

// Whether the lock is for writing.
fn is_write(kind: LockKind) -> bool
    ensures { result ≡ is_write kind }
{
    match kind {
        LockKind::Read => false,
        LockKind::Write => true,
    }
}

// Whether both are for reading, or both for writing.
fn same_lock(a: LockKind, b: LockKind) -> bool
    ensures { result ≡ same_lock a b }
{
    match a {
        LockKind::Read => match b {
            LockKind::Read => true,
            LockKind::Write => false,
        },
        LockKind::Write => match b {
            LockKind::Read => false,
            LockKind::Write => true,
        },
    }
}

// Whether one of two locks is for writing, so that they conflict.
fn kinds_conflict(kind: LockKind, its: LockKind) -> bool
    ensures { result ≡ kinds_conflict kind its }
{
    is_write(kind) || is_write(its)
}

// Whether a row and the range share a byte.
fn overlaps(row: &Held, first: u64, last: u64) -> bool
    ensures { result ≡ overlaps first last row.now }
{
    row.first <= last && first <= row.last
}

/// Whether a row is of that owner and shares a byte with the range.
pub fn is_cut(row: &Held, owner: u64, first: u64, last: u64) -> bool
    ensures { result ≡ ((row.now.owner == owner) && overlaps first last row.now) }
{
    row.owner == owner && overlaps(row, first, last)
}

/// Whether a row is of another owner than the lock that is asked for, shares a byte with it, and conflicts with it.
pub fn is_in_way(asked: &Held, row: &Held) -> bool
    ensures { result ≡ is_in_way asked.now.owner asked.now.kind asked.now.first asked.now.last row.now }
{
    let other = row.owner != asked.owner;
    let shared = overlaps(row, asked.first, asked.last);
    let conflict = kinds_conflict(asked.kind, row.kind);
    other && shared && conflict
}

/// Whether a row ends before another one.
pub fn is_before(a: &Held, b: &Held) -> bool
    ensures { result ≡ is_before a.now b.now }
{
    a.owner < b.owner || a.owner == b.owner && a.last < b.first
}

// Whether one byte comes next behind another. None comes behind 2^64 - 1.
fn is_next(last: u64, first: u64) -> bool
    ensures { result ≡ (last + 1 == first) }
{
    last < first && first - last == 1
}

/// Whether the second row goes on where the first one ends, with the same owner and kind.
pub fn touches(a: &Held, b: &Held) -> bool
    ensures { result ≡ touches a.now b.now }
{
    let owner = a.owner == b.owner;
    let next = is_next(a.last, b.first);
    let kind = same_lock(a.kind, b.kind);
    owner && next && kind
}
