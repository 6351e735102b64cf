//! What the arguments of operations on byte-range locks ask for (RFC 7530, 16.10, 16.11 and 16.12).
ghost use Rattle.std.specs.Prelude.{◌≡◌, ◌≤◌, false, IfOk};
ghost use Rattle.nm_rules.specs.LockAsks.{access_for, counter_of, is_no_range, kind_of, last_of, last_told, lock_owner, range_stop};
ghost use Rattle.nm_rules.specs.LockOps.{lock_fault};

use crate::checks::refuse_if;
use nm_types::{
    Bytes, Held, Instance, LockArgs, LockKind, LockType, Memory, OpStatus, Owner, OwnerKind,
    StateRef,
};

/// A lock owner that has no stateid on the file yet, as it comes to lock.
#[derive(Drop)]
pub struct Newcomer {
    /// The open owner's next seqid.
    pub open_seqid: u32,
    /// The open's stateid.
    pub stateid: StateRef,
    /// The lock owner's first seqid.
    pub lock_seqid: u32,
    pub owner: Owner,
}

/// That a client will ask again changes nothing.
#[tactic(auto, unfolding(nm_rules::specs::LockAsks::kind_of))]
pub fn kind_of(kind: LockType) -> LockKind
    ensures { result ≡ kind_of kind }
{
    match kind {
        LockType::Read => LockKind::Read,
        LockType::Write => LockKind::Write,
        LockType::ReadWait => LockKind::Read,
        LockType::WriteWait => LockKind::Write,
    }
}

/// The access that an open has to have for a lock.
#[tactic(auto, unfolding(nm_rules::specs::LockAsks::access_for))]
pub fn access_for(kind: LockKind) -> u32
    ensures { result ≡ access_for kind }
{
    match kind {
        LockKind::Read => 1,
        LockKind::Write => 2,
    }
}

// It has no byte, or one behind the last of all.
#[tactic(auto, unfolding(nm_rules::specs::LockAsks::is_no_range))]
fn is_no_range(offset: u64, length: u64) -> bool
    ensures { result ≡ is_no_range offset length }
{
    length == 0 || length != u64::MAX && u64::MAX - length < offset
}

/// What is wrong with a range.
pub fn range_stop(offset: u64, length: u64) -> Option<OpStatus>
    ensures { result ≡ range_stop offset length }
{
    refuse_if(is_no_range(offset, length), OpStatus::Inval)
}

/// The last byte of a range.
#[tactic(auto, unfolding(nm_rules::specs::LockAsks::is_no_range, nm_rules::specs::LockAsks::last_of))]
pub fn last_of(offset: u64, length: u64) -> u64
    requires { is_no_range offset length ≡ false }
    ensures value { result ≡ last_of offset length }
    ensures order { offset ≤ result }
{
    if length == u64::MAX {
        u64::MAX
    } else {
        offset + (length - 1)
    }
}

/// The last byte of a range as a refusal tells it. The one range of 2^64 - 1 bytes that ends before the last of all is told as
/// one that reaches to the end, since its length is the mark of those.
#[tactic(auto, unfolding(nm_rules::specs::LockAsks::last_told))]
pub fn last_told(first: u64, last: u64) -> u64
    ensures { result ≡ last_told first last }
{
    if first == 0 && last == u64::MAX - 1 {
        u64::MAX
    } else {
        last
    }
}

/// The range that a lock of the stateid with this counter asks for.
pub fn asked(counter: u64, kind: LockType, offset: u64, length: u64) -> Held
    requires { is_no_range offset length ≡ false }
    ensures value { result ≡ record { owner = counter; kind = kind_of kind; first = offset; last = last_of offset length } }
    ensures order { result.first ≤ result.last }
{
    Held {
        owner: counter,
        kind: kind_of(kind),
        first: offset,
        last: last_of(offset, length),
    }
}

/// What is wrong with the arguments of a LOCK.
#[tactic(auto, unfolding(nm_rules::specs::LockOps::lock_fault))]
pub fn lock_fault(args: &LockArgs) -> Option<OpStatus>
    ensures { result ≡ lock_fault args.now }
{
    range_stop(args.offset, args.length).or(refuse_if(args.reclaim, OpStatus::NoGrace))
}

/// The owner that locks.
pub fn lock_owner(party: Instance, text: &Bytes) -> Result<Owner, Memory>
    ensures { IfOk result (λ owner. owner ≡ lock_owner party text.now) }
{
    Ok(Owner {
        instance: party,
        kind: OwnerKind::Locks,
        text: text.copy()?,
    })
}

/// The counter that a stateid names; the special ones name none.
#[tactic(auto, unfolding(nm_rules::specs::LockAsks::counter_of))]
pub fn counter_of(stateid: StateRef) -> u64
    ensures { result ≡ counter_of stateid }
{
    match stateid {
        StateRef::Zeros => 0,
        StateRef::Ones => 0,
        StateRef::Named(id) => id.counter,
    }
}
