//! The value of LOCK and LOCKT with DENIED.
ghost use Rattle.std.specs.Prelude.{◌≡◌, ◌++◌};
ghost use Rattle.nm_xdr.specs.Items.{word};
ghost use Rattle.nm_xdr.specs.Places.{Gives, Puts};
ghost use Rattle.nm_items.specs.Takes.{Takes};
ghost use Rattle.nm_results.specs.Locks.{kind_numbered, lock_kind_at, number_of_kind, denied_at, denied, written_denied, IsDenied};

use crate::LockDenied;
use nm_items::{ReadFault, take_kept};
use nm_types::LockKind;
use nm_xdr::{Cursor, Memory, Writer, XdrFault};
use std::alloc::Global;

/// Takes the lock that is in the way.
#[tactic(auto, unfolding(crate::specs::Locks::denied_at))]
pub(crate) fn take_denied(alloc: Global, cursor: &mut Cursor<'_>) -> Result<LockDenied, ReadFault>
    ensures { Takes denied_at cursor.old result cursor.new }
{
    let offset = cursor.take_u64()?;
    let length = cursor.take_u64()?;
    let kind = take_lock_kind(cursor)?;
    let clientid = cursor.take_u64()?;
    let owner = take_kept(alloc, cursor, 1024)?;
    Ok(LockDenied {
        offset,
        length,
        kind,
        clientid,
        owner,
    })
}

#[tactic(auto, unfolding(crate::specs::Locks::lock_kind_at, nm_xdr::specs::Items::enum_at))]
fn take_lock_kind(cursor: &mut Cursor<'_>) -> Result<LockKind, XdrFault>
    ensures { Gives (λ k. k) lock_kind_at cursor.old result cursor.new }
{
    let at = cursor.place();
    let got = cursor.take_u32()?;
    match kind_numbered(got) {
        Some(kind) => Ok(kind),
        None => Err(XdrFault::Enum { at, got }),
    }
}

// The kind of this number. One that waits is of the same kind.
#[tactic(auto, unfolding(crate::specs::Locks::kind_numbered))]
fn kind_numbered(number: u32) -> Option<LockKind>
    ensures { result ≡ kind_numbered number }
{
    match number {
        1 | 3 => Some(LockKind::Read),
        2 | 4 => Some(LockKind::Write),
        _ => None,
    }
}

/// Puts the lock that is in the way.
#[tactic(auto, using(nm_xdr::proofs::PutLaws::front_there, nm_xdr::proofs::PutLaws::front_stands), unfolding(crate::specs::Locks::denied))]
pub(crate) fn put_denied(writer: &mut Writer, value: &LockDenied) -> Result<(), Memory>
    requires { IsDenied value.now }
    ensures { Puts writer.old (denied (written_denied value.now)) result writer.new }
{
    writer.put_u64(value.offset)?;
    writer.put_u64(value.length)?;
    writer.put_u32(number_of_kind(value.kind))?;
    writer.put_u64(value.clientid)?;
    writer.put_opaque(value.owner.items())
}

/// The number that is written for a kind.
pub(crate) fn number_of_kind(kind: LockKind) -> u32
    ensures { result ≡ number_of_kind kind }
{
    match kind {
        LockKind::Read => 1,
        LockKind::Write => 2,
    }
}
