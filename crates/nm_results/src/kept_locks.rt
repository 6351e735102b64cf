//! The lock that is in the way, in a kept reply: its holder stands by its index.
ghost use Rattle.std.specs.Prelude.{◌≡◌};
ghost use Rattle.std.specs.List.Sorted.{IsStrictlySortedBy};
ghost use Rattle.nm_xdr.specs.Places.{Gives, Puts};
ghost use Rattle.nm_types.specs.Parties.{party_cmp};
ghost use Rattle.nm_items.specs.Takes.{Takes};
ghost use Rattle.nm_results.specs.KeptLocks.{holder_at, kept_denied, kept_denied_at, kept_kind, kept_kind_at, last_at, last_of, length_of, range_at, IsKeptDenied, IsTold};

use crate::holders::index_of;
use crate::locks::number_of_kind;
use nm_items::{ReadFault, take_kept};
use nm_types::{Denied, Instance, LockKind, LockRange};
use nm_xdr::{Cursor, Memory, Writer, XdrFault};
use std::alloc::Global;

/// Takes the lock that is in the way, whose holder is one of these.
#[tactic(auto, unfolding(crate::specs::KeptLocks::kept_denied_at))]
pub(crate) fn take_kept_denied(
    alloc: Global,
    cursor: &mut Cursor<'_>,
    holders: &[Instance],
) -> Result<Denied, ReadFault>
    ensures { Takes (kept_denied_at holders.now) cursor.old result cursor.new }
{
    let (first, last) = take_range(cursor)?;
    let kind = take_kept_kind(cursor)?;
    let holder = take_holder(cursor, holders)?;
    let owner = take_kept(alloc, cursor, 1024)?;
    Ok(Denied {
        range: LockRange { kind, first, last },
        owner,
        instance: holder,
    })
}

// Takes the first byte of a range and its length, and gives the first byte and the last one.
#[tactic(auto, unfolding(crate::specs::KeptLocks::range_at))]
fn take_range(cursor: &mut Cursor<'_>) -> Result<(u64, u64), XdrFault>
    ensures { Gives (λ r. r) range_at cursor.old result cursor.new }
{
    let first = cursor.take_u64()?;
    let last = take_last(cursor, first)?;
    Ok((first, last))
}

// Takes the length of a range, and gives its last byte.
#[tactic(auto, unfolding(crate::specs::KeptLocks::last_at))]
fn take_last(cursor: &mut Cursor<'_>, first: u64) -> Result<u64, XdrFault>
    ensures { Gives (λ n. n) (last_at first) cursor.old result cursor.new }
{
    let at = cursor.place();
    let length = cursor.take_u64()?;
    match last_of(first, length) {
        Some(last) => Ok(last),
        None => Err(XdrFault::Short { at }),
    }
}

// The last byte of a range of this length.
#[tactic(auto, unfolding(crate::specs::KeptLocks::last_of))]
fn last_of(first: u64, length: u64) -> Option<u64>
    ensures { result ≡ last_of first length }
{
    if length == u64::MAX {
        return Some(u64::MAX);
    }
    if length == 0 {
        return None;
    }
    match first.checked_add(length) {
        Some(end) => Some(end - 1),
        None => None,
    }
}

// Takes a kind of lock that doesn't wait.
#[tactic(auto, unfolding(crate::specs::KeptLocks::kept_kind_at, nm_xdr::specs::Items::enum_at))]
fn take_kept_kind(cursor: &mut Cursor<'_>) -> Result<LockKind, XdrFault>
    ensures { Gives (λ k. k) kept_kind_at cursor.old result cursor.new }
{
    let at = cursor.place();
    let got = cursor.take_u32()?;
    match kept_kind(got) {
        Some(kind) => Ok(kind),
        None => Err(XdrFault::Enum { at, got }),
    }
}

#[tactic(auto, unfolding(crate::specs::KeptLocks::kept_kind))]
fn kept_kind(number: u32) -> Option<LockKind>
    ensures { result ≡ kept_kind number }
{
    match number {
        1 => Some(LockKind::Read),
        2 => Some(LockKind::Write),
        _ => None,
    }
}

// Takes the index of a holder.
#[tactic(auto, unfolding(crate::specs::KeptLocks::holder_at))]
fn take_holder(cursor: &mut Cursor<'_>, holders: &[Instance]) -> Result<Option<Instance>, XdrFault>
    ensures { Gives (λ o. o) (holder_at holders.now) cursor.old result cursor.new }
{
    let at = cursor.place();
    let index = cursor.take_u64()?;
    match holders.get(index as usize) {
        Some(holder) => Ok(Some(*holder)),
        None => Err(XdrFault::Short { at }),
    }
}

/// Puts the lock that is in the way, whose holder is one of these.
#[tactic(auto, using(nm_xdr::proofs::PutLaws::front_there, nm_xdr::proofs::PutLaws::front_stands), unfolding(crate::specs::KeptLocks::kept_denied))]
pub(crate) fn put_kept_denied(
    writer: &mut Writer,
    holders: &[Instance],
    denied: &Denied,
) -> Result<(), Memory>
    requires rises { IsStrictlySortedBy party_cmp holders.now }
    requires fits { IsKeptDenied holders.now denied.now }
    ensures { Puts writer.old (kept_denied holders.now denied.now) result writer.new }
{
    writer.put_u64(denied.range.first)?;
    writer.put_u64(length_of(denied.range.first, denied.range.last))?;
    writer.put_u32(number_of_kind(denied.range.kind))?;
    writer.put_u64(index_of(holders, &denied.instance) as u64)?;
    writer.put_opaque(denied.owner.items())
}

// The length of a range.
#[tactic(auto, unfolding(crate::specs::KeptLocks::length_of))]
fn length_of(first: u64, last: u64) -> u64
    requires { IsTold first last }
    ensures { result ≡ length_of first last }
{
    if last == u64::MAX {
        u64::MAX
    } else {
        last - first + 1
    }
}
