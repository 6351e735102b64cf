//! The byte-range locks of one file.
ghost use Rattle.std.specs.Prelude.{◌≡◌, ◌≤◌, IfOk, OnOk, OnErr, None, length};
ghost use Rattle.nm_rules.specs.Locks.{IsJoined, barrier, cleared, holds, set_to};
ghost use Rattle.nm_ranges.specs.Rows.{after_clear, after_drop, after_set, no_ranges};

use crate::counts::{count_cleared, count_set};
use crate::rows::{barrier, clear_rows, copy_rows, drop_owner, holds, set_rows};
use nm_types::{Held, LockKind, Memory};
use std::alloc::Global;
use std::marker::Model;

/// The ranges of bytes of one file that locks hold: one row for each range, by rising owner, and of one owner by rising first byte.
/// An owner is the counter of its lock stateid. The rows of one owner share no byte, and where two of one kind touch they are one.
/// No two owners hold conflicting locks at a byte (RFC 7530, 9.2). A range goes from its first byte to its last, which is at least
/// the first; the byte 2^64 - 1 is one like any other.
#[derive(Drop)]
pub struct Ranges {
    rows: Vec<Held>,
}

impl Model for Ranges {
    ghost use Rattle.nm_rules.specs.Locks.{IsJoined};
    ghost use Rattle.nm_ranges.specs.Rows.{RangesNow};

    ghost Value = { RangesNow };

    ghost view = { λ r. record { table = r.rows.items } };

    ghost invariant = { λ r. IsJoined r.rows.items };
}

impl Ranges {
    /// No locks yet. It takes no memory.
    pub fn new(alloc: Global) -> Ranges
        ensures { result ≡ no_ranges }
    {
        Ranges {
            rows: Vec::new(alloc),
        }
    }

    /// The ranges that are held, by rising owner, and of one owner by rising first byte.
    pub fn rows(&self) -> &[Held]
        ensures table { result.now ≡ self.now.table }
        ensures joined { IsJoined self.now.table }
    {
        &self.rows
    }

    /// What a lock of that owner and kind from the first byte to the last meets (RFC 7530, 16.10.4 and 16.11.4): the holder at the
    /// lowest byte in conflict, of several there the lowest owner, with the longest range around that byte that it holds with its
    /// kind. `None` exactly where no other owner holds a conflicting lock at any byte of the range.
    pub fn conflict(&self, owner: u64, kind: LockKind, first: u64, last: u64) -> Option<Held>
        ensures { result ≡ barrier owner kind first last self.now.table }
    {
        let asked = Held {
            owner,
            kind,
            first,
            last,
        };
        barrier(&self.rows, &asked)
    }

    /// The owner holds the range from the first byte to the last with that kind, in place of what it held there (RFC 7530, 9.3). What
    /// it holds outside of the range stays, joined with the range where they touch with one kind. Nothing may be in its way, as
    /// `conflict` tells. After want of memory nothing has changed.
    pub fn set(&mut self, owner: u64, kind: LockKind, first: u64, last: u64) -> Result<(), Memory>
        requires order { first ≤ last }
        requires free { barrier owner kind first last self.old.table ≡ None }
        ensures ok { OnOk result (self.new ≡ after_set self.old owner kind first last) }
        ensures err { OnErr result (self.new ≡ self.old) }
    {
        let new = Held {
            owner,
            kind,
            first,
            last,
        };
        Ok(set_rows(&mut self.rows, &new)?)
    }

    /// The owner holds nothing from the first byte to the last (RFC 7530, 16.12). What it holds outside of the range stays. The last
    /// byte is at least the first, else a row around both would be left twice where they cross. After want of memory nothing has
    /// changed.
    pub fn clear(&mut self, owner: u64, first: u64, last: u64) -> Result<(), Memory>
        requires order { first ≤ last }
        ensures ok { OnOk result (self.new ≡ after_clear self.old owner first last) }
        ensures err { OnErr result (self.new ≡ self.old) }
    {
        Ok(clear_rows(&mut self.rows, owner, first, last)?)
    }

    /// How many rows there would be after `set` with these arguments. It takes no memory.
    pub fn count_with_set(&self, owner: u64, kind: LockKind, first: u64, last: u64) -> usize
        ensures { result ≡ length (set_to owner kind first last self.now.table) }
    {
        let new = Held {
            owner,
            kind,
            first,
            last,
        };
        count_set(&self.rows, &new)
    }

    /// How many rows there would be after `clear` with these arguments. It takes no memory.
    pub fn count_with_clear(&self, owner: u64, first: u64, last: u64) -> usize
        ensures { result ≡ length (cleared owner first last self.now.table) }
    {
        count_cleared(&self.rows, owner, first, last)
    }

    /// Whether the owner holds a byte.
    pub fn held_by(&self, owner: u64) -> bool
        ensures { result ≡ holds owner self.now.table }
    {
        holds(&self.rows, owner)
    }

    /// The owner holds nothing any more.
    pub fn drop_owner(&mut self, owner: u64)
        ensures { self.new ≡ after_drop self.old owner }
    {
        drop_owner(&mut self.rows, owner);
    }

    /// The same ranges once more.
    pub fn copy(&self) -> Result<Ranges, Memory>
        ensures { IfOk result (λ ranges. ranges ≡ self.now) }
    {
        Ok(Ranges {
            rows: copy_rows(&self.rows)?,
        })
    }
}
