//! The arguments of operations on byte-range locks: LOCK, LOCKT, LOCKU and RELEASE_LOCKOWNER.
ghost use Rattle.std.specs.Prelude.{true, false};
ghost use Rattle.nm_xdr.specs.Fields.{field, made};
ghost use Rattle.nm_xdr.specs.Places.{Puts};
ghost use Rattle.nm_items.specs.Takes.{Takes};
ghost use Rattle.nm_args.specs.declared.op.Op.TheVariants as op;
ghost use Rattle.nm_args.specs.Parts.{IsText};
ghost use Rattle.nm_args.specs.Locks.{locker, locker_arm_at, locker_at, IsLocker, locking, locking_at, IsLockArgs, lock_test, lock_test_at, IsLockTestArgs, unlock, unlock_at, release, release_at};

use crate::parts::{Clientids, put_lock_type, put_owner, take_lock_type, take_owner};
use crate::{Op, OwnedLock, OwnedLockTest, OwnedLocker, OwnedRelease};
use nm_items::{ReadFault, put_ref, take_ref};
use nm_types::{LockArgs, LockTestArgs, Locker, ReleaseLockOwnerArgs, UnlockArgs};
use nm_xdr::{Cursor, Memory, Writer};
use std::alloc::Global;

#[tactic(auto, unfolding(crate::specs::Locks::locking_at))]
pub(crate) fn take_lock(
    alloc: Global,
    cursor: &mut Cursor<'_>,
    which: Clientids,
) -> Result<Op, ReadFault>
    ensures { Takes (field (locking_at which) (λ a. made (op.Lock a))) cursor.old result cursor.new }
{
    let kind = take_lock_type(cursor)?;
    let reclaim = cursor.take_bool()?;
    let offset = cursor.take_u64()?;
    let length = cursor.take_u64()?;
    let OwnedLocker { clientid, locker } = take_locker(alloc, cursor, which)?;
    Ok(Op::Lock(OwnedLock {
        clientid,
        args: LockArgs {
            kind,
            reclaim,
            offset,
            length,
            locker,
        },
    }))
}

#[tactic(auto, using(nm_xdr::proofs::PutLaws::front_there, nm_xdr::proofs::PutLaws::front_stands), unfolding(crate::specs::Locks::locking))]
pub(crate) fn put_lock(writer: &mut Writer, clientid: u64, args: &LockArgs) -> Result<(), Memory>
    requires { IsLockArgs args.now }
    ensures { Puts writer.old (locking (record { clientid = clientid; args = args.now })) result writer.new }
{
    put_lock_type(writer, args.kind)?;
    writer.put_bool(args.reclaim)?;
    writer.put_u64(args.offset)?;
    writer.put_u64(args.length)?;
    put_locker(writer, clientid, &args.locker)?;
    Ok(())
}

// Who locks (locker4).
#[tactic(auto, unfolding(crate::specs::Locks::locker_at))]
fn take_locker(
    alloc: Global,
    cursor: &mut Cursor<'_>,
    which: Clientids,
) -> Result<OwnedLocker, ReadFault>
    ensures { Takes (locker_at which) cursor.old result cursor.new }
{
    if cursor.take_bool()? {
        take_new_locker(alloc, cursor, which)
    } else {
        take_known_locker(cursor, which)
    }
}

#[tactic(auto, unfolding(crate::specs::Locks::locker_arm_at, crate::specs::Locks::new_owner_at))]
fn take_new_locker(
    alloc: Global,
    cursor: &mut Cursor<'_>,
    which: Clientids,
) -> Result<OwnedLocker, ReadFault>
    ensures { Takes (locker_arm_at which true) cursor.old result cursor.new }
{
    let open_seqid = cursor.take_u32()?;
    let stateid = take_ref(cursor)?;
    let lock_seqid = cursor.take_u32()?;
    let (clientid, owner) = take_owner(alloc, cursor, which)?;
    Ok(OwnedLocker {
        clientid,
        locker: Locker::New {
            open_seqid,
            stateid,
            lock_seqid,
            owner,
        },
    })
}

#[tactic(auto, unfolding(crate::specs::Locks::locker_arm_at, crate::specs::Locks::known_owner_at))]
fn take_known_locker(cursor: &mut Cursor<'_>, which: Clientids) -> Result<OwnedLocker, ReadFault>
    ensures { Takes (locker_arm_at which false) cursor.old result cursor.new }
{
    let stateid = take_ref(cursor)?;
    let lock_seqid = cursor.take_u32()?;
    Ok(OwnedLocker {
        clientid: 0,
        locker: Locker::Known {
            stateid,
            lock_seqid,
        },
    })
}

#[tactic(auto, using(nm_xdr::proofs::PutLaws::front_there, nm_xdr::proofs::PutLaws::front_stands), unfolding(crate::specs::Locks::locker))]
fn put_locker(writer: &mut Writer, clientid: u64, given: &Locker) -> Result<(), Memory>
    requires { IsLocker given.now }
    ensures { Puts writer.old (locker (record { clientid = clientid; locker = given.now })) result writer.new }
{
    match given {
        Locker::New {
            open_seqid,
            stateid,
            lock_seqid,
            owner,
        } => {
            writer.put_bool(true)?;
            writer.put_u32(*open_seqid)?;
            put_ref(writer, stateid)?;
            writer.put_u32(*lock_seqid)?;
            put_owner(writer, clientid, owner.items())?;
            Ok(())
        }
        Locker::Known {
            stateid,
            lock_seqid,
        } => {
            writer.put_bool(false)?;
            put_ref(writer, stateid)?;
            writer.put_u32(*lock_seqid)
        }
    }
}

#[tactic(auto, unfolding(crate::specs::Locks::lock_test_at))]
pub(crate) fn take_lock_test(
    alloc: Global,
    cursor: &mut Cursor<'_>,
    which: Clientids,
) -> Result<Op, ReadFault>
    ensures { Takes (field (lock_test_at which) (λ a. made (op.LockT a))) cursor.old result cursor.new }
{
    let kind = take_lock_type(cursor)?;
    let offset = cursor.take_u64()?;
    let length = cursor.take_u64()?;
    let (clientid, owner) = take_owner(alloc, cursor, which)?;
    Ok(Op::LockT(OwnedLockTest {
        clientid,
        args: LockTestArgs {
            kind,
            offset,
            length,
            owner,
        },
    }))
}

#[tactic(auto, using(nm_xdr::proofs::PutLaws::front_there, nm_xdr::proofs::PutLaws::front_stands), unfolding(crate::specs::Locks::lock_test))]
pub(crate) fn put_lock_test(
    writer: &mut Writer,
    clientid: u64,
    args: &LockTestArgs,
) -> Result<(), Memory>
    requires { IsLockTestArgs args.now }
    ensures { Puts writer.old (lock_test (record { clientid = clientid; args = args.now })) result writer.new }
{
    put_lock_type(writer, args.kind)?;
    writer.put_u64(args.offset)?;
    writer.put_u64(args.length)?;
    put_owner(writer, clientid, args.owner.items())?;
    Ok(())
}

#[tactic(auto, unfolding(crate::specs::Locks::unlock_at))]
pub(crate) fn take_unlock(cursor: &mut Cursor<'_>) -> Result<Op, ReadFault>
    ensures { Takes (field unlock_at (λ a. made (op.LockU a))) cursor.old result cursor.new }
{
    let kind = take_lock_type(cursor)?;
    let seqid = cursor.take_u32()?;
    let stateid = take_ref(cursor)?;
    let offset = cursor.take_u64()?;
    let length = cursor.take_u64()?;
    Ok(Op::LockU(UnlockArgs {
        kind,
        seqid,
        stateid,
        offset,
        length,
    }))
}

#[tactic(auto, using(nm_xdr::proofs::PutLaws::front_there, nm_xdr::proofs::PutLaws::front_stands), unfolding(crate::specs::Locks::unlock))]
pub(crate) fn put_unlock(writer: &mut Writer, args: &UnlockArgs) -> Result<(), Memory>
    ensures { Puts writer.old (unlock args.now) result writer.new }
{
    put_lock_type(writer, args.kind)?;
    writer.put_u32(args.seqid)?;
    put_ref(writer, &args.stateid)?;
    writer.put_u64(args.offset)?;
    writer.put_u64(args.length)
}

#[tactic(auto, unfolding(crate::specs::Locks::release_at))]
pub(crate) fn take_release(
    alloc: Global,
    cursor: &mut Cursor<'_>,
    which: Clientids,
) -> Result<Op, ReadFault>
    ensures { Takes (field (release_at which) (λ a. made (op.ReleaseLockOwner a))) cursor.old result cursor.new }
{
    let (clientid, owner) = take_owner(alloc, cursor, which)?;
    Ok(Op::ReleaseLockOwner(OwnedRelease {
        clientid,
        args: ReleaseLockOwnerArgs { owner },
    }))
}

#[tactic(auto, unfolding(crate::specs::Locks::release))]
pub(crate) fn put_release(
    writer: &mut Writer,
    clientid: u64,
    args: &ReleaseLockOwnerArgs,
) -> Result<(), Memory>
    requires { IsText args.now.owner }
    ensures { Puts writer.old (release (record { clientid = clientid; args = args.now })) result writer.new }
{
    put_owner(writer, clientid, args.owner.items())
}
