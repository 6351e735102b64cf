//! Items that several operations have (RFC 7531).
ghost use Rattle.std.specs.Prelude.{◌≡◌};
ghost use Rattle.nm_xdr.specs.Items.{word};
ghost use Rattle.nm_xdr.specs.Places.{Gives, Puts};
ghost use Rattle.nm_items.specs.Takes.{Takes};
ghost use Rattle.nm_args.specs.Parts.{name_at, text_at, IsText, clientid_at, owner_bytes, owner_at, lock_number, lock_of, lock_type_at, stable_number, stable_of, stable_at};

use nm_items::{ReadFault, take_kept};
use nm_types::{Bytes, LockType, Stable};
use nm_xdr::{Cursor, Memory, Writer, XdrFault};
use std::alloc::Global;

/// Which clientids are taken as an owner's.
#[derive(Clone, Copy)]
pub(crate) enum Clientids {
    /// Any one, as in a request.
    Any,
    /// 0 alone, which stands for the caller's in a kept call.
    Zero,
}

/// Takes a name of at most 1,048,576 bytes (component4).
#[tactic(auto, unfolding(crate::specs::Parts::name_at))]
pub(crate) fn take_name(alloc: Global, cursor: &mut Cursor<'_>) -> Result<Bytes, ReadFault>
    ensures { Takes name_at cursor.old result cursor.new }
{
    take_kept(alloc, cursor, 1_048_576)
}

/// Takes a text of at most 1,024 bytes.
#[tactic(auto, unfolding(crate::specs::Parts::text_at))]
pub(crate) fn take_text(alloc: Global, cursor: &mut Cursor<'_>) -> Result<Bytes, ReadFault>
    ensures { Takes text_at cursor.old result cursor.new }
{
    take_kept(alloc, cursor, 1024)
}

// Takes a clientid. Another one than those is told at its first byte.
fn take_clientid(cursor: &mut Cursor<'_>, which: Clientids) -> Result<u64, XdrFault>
    ensures { Gives (λ n. n) (clientid_at which) cursor.old result cursor.new }
{
    let at = cursor.place();
    let clientid = cursor.take_u64()?;
    match which {
        Clientids::Any => Ok(clientid),
        Clientids::Zero => {
            if clientid == 0 {
                Ok(clientid)
            } else {
                Err(XdrFault::Short { at })
            }
        }
    }
}

/// Takes the owner of opens or of locks: a clientid and a text (open_owner4, lock_owner4).
#[tactic(auto, unfolding(crate::specs::Parts::owner_at))]
pub(crate) fn take_owner(
    alloc: Global,
    cursor: &mut Cursor<'_>,
    which: Clientids,
) -> Result<(u64, Bytes), ReadFault>
    ensures { Takes (owner_at which) cursor.old result cursor.new }
{
    let clientid = take_clientid(cursor, which)?;
    let text = take_text(alloc, cursor)?;
    Ok((clientid, text))
}

/// Puts the owner of opens or of locks.
#[tactic(auto, using(nm_xdr::proofs::PutLaws::front_there, nm_xdr::proofs::PutLaws::front_stands), unfolding(crate::specs::Parts::owner_bytes))]
pub(crate) fn put_owner(writer: &mut Writer, clientid: u64, text: &[u8]) -> Result<(), Memory>
    requires { IsText text.now }
    ensures { Puts writer.old (owner_bytes (clientid, text.now)) result writer.new }
{
    writer.put_u64(clientid)?;
    writer.put_opaque(text)
}

/// Takes the type of a lock, from 1 to 4 (nfs_lock_type4).
#[tactic(auto, unfolding(crate::specs::Parts::lock_type_at, nm_xdr::specs::Items::enum_at))]
pub(crate) fn take_lock_type(cursor: &mut Cursor<'_>) -> Result<LockType, ReadFault>
    ensures { Takes lock_type_at cursor.old result cursor.new }
{
    let at = cursor.place();
    let got = cursor.take_u32()?;
    match lock_type_of_number(got) {
        Some(kind) => Ok(kind),
        None => Err(ReadFault::Xdr(XdrFault::Enum { at, got })),
    }
}

#[tactic(auto, unfolding(crate::specs::Parts::lock_of, crate::specs::Parts::lock_number))]
fn lock_type_of_number(number: u32) -> Option<LockType>
    ensures { result ≡ lock_of number }
{
    match number {
        1 => Some(LockType::Read),
        2 => Some(LockType::Write),
        3 => Some(LockType::ReadWait),
        4 => Some(LockType::WriteWait),
        _ => None,
    }
}

/// Puts the type of a lock.
#[tactic(auto, using(nm_xdr::proofs::PutLaws::front_there, nm_xdr::proofs::PutLaws::front_stands), unfolding(crate::specs::Parts::lock_number))]
pub(crate) fn put_lock_type(writer: &mut Writer, kind: LockType) -> Result<(), Memory>
    ensures { Puts writer.old (word (lock_number kind)) result writer.new }
{
    writer.put_u32(match kind {
        LockType::Read => 1,
        LockType::Write => 2,
        LockType::ReadWait => 3,
        LockType::WriteWait => 4,
    })
}

/// Takes how far a WRITE has to reach, from 0 to 2 (stable_how4).
#[tactic(auto, unfolding(crate::specs::Parts::stable_at, nm_xdr::specs::Items::enum_at))]
pub(crate) fn take_stable(cursor: &mut Cursor<'_>) -> Result<Stable, ReadFault>
    ensures { Takes stable_at cursor.old result cursor.new }
{
    let at = cursor.place();
    let got = cursor.take_u32()?;
    match stable_of_number(got) {
        Some(stable) => Ok(stable),
        None => Err(ReadFault::Xdr(XdrFault::Enum { at, got })),
    }
}

#[tactic(auto, unfolding(crate::specs::Parts::stable_of, crate::specs::Parts::stable_number))]
fn stable_of_number(number: u32) -> Option<Stable>
    ensures { result ≡ stable_of number }
{
    match number {
        0 => Some(Stable::Unstable),
        1 => Some(Stable::DataSync),
        2 => Some(Stable::FileSync),
        _ => None,
    }
}

/// Puts how far a WRITE has to reach.
#[tactic(auto, using(nm_xdr::proofs::PutLaws::front_there, nm_xdr::proofs::PutLaws::front_stands), unfolding(crate::specs::Parts::stable_number))]
pub(crate) fn put_stable(writer: &mut Writer, stable: Stable) -> Result<(), Memory>
    ensures { Puts writer.old (word (stable_number stable)) result writer.new }
{
    writer.put_u32(match stable {
        Stable::Unstable => 0,
        Stable::DataSync => 1,
        Stable::FileSync => 2,
    })
}
