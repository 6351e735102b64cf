//! The values of kept replies, by their operations.
ghost use Rattle.std.specs.Prelude.{◌≡◌, IfSome, Some};
ghost use Rattle.std.specs.List.Sorted.{IsStrictlySortedBy};
ghost use Rattle.nm_xdr.specs.Items.{enum_at};
ghost use Rattle.nm_xdr.specs.Places.{Gives, Puts};
ghost use Rattle.nm_items.specs.Parts.{stateid, stateid_at};
ghost use Rattle.nm_items.specs.Takes.{Takes};
ghost use Rattle.nm_types.specs.Parties.{party_cmp};
ghost use Rattle.nm_types.specs.Statuses.{is_done};
ghost use Rattle.nm_results.specs.Kept.{is_denied, kept_op, kept_value, kept_value_at, number_by, op_with, outcome, outcome_at, where_at, where_there, IsKeptValue, IsOutcome};
ghost use Rattle.nm_results.specs.KeptOpens.{opened, opened_at, IsOpened};

use crate::kept_locks::{put_kept_denied, take_kept_denied};
use crate::kept_opens::{put_opened, take_opened};
use nm_items::{ReadFault, put_stateid, take_stateid};
use nm_types::{Instance, LockOutcome, OpStatus, Opened, ReplyValue, StateId};
use nm_xdr::{Cursor, Memory, Writer, XdrFault};
use std::alloc::Global;

/// The operations that take a seqid, whose replies are kept.
#[derive(Clone, Copy)]
pub enum KeptOp {
    Close,
    Lock,
    LockU,
    Open,
    OpenConfirm,
    OpenDowngrade,
}

// The operation of this number.
#[tactic(auto, unfolding(crate::specs::Kept::kept_op, crate::specs::Kept::number_of_op))]
fn kept_op(number: u32) -> Option<KeptOp>
    ensures { result ≡ kept_op number }
{
    match number {
        4 => Some(KeptOp::Close),
        12 => Some(KeptOp::Lock),
        14 => Some(KeptOp::LockU),
        18 => Some(KeptOp::Open),
        20 => Some(KeptOp::OpenConfirm),
        21 => Some(KeptOp::OpenDowngrade),
        _ => None,
    }
}

/// The number of the operation that has this value; 0 for one whose replies aren't kept.
#[tactic(auto, unfolding(crate::specs::Kept::op_with, crate::specs::Kept::number_of_op))]
pub(crate) fn number_of_value(value: &ReplyValue) -> u32
    ensures { result ≡ number_by (op_with value.now) }
{
    match value {
        ReplyValue::Close(_) => 4,
        ReplyValue::Lock(_) => 12,
        ReplyValue::Unlock(_) => 14,
        ReplyValue::Open(_) => 18,
        ReplyValue::OpenConfirm(_) => 20,
        ReplyValue::OpenDowngrade(_) => 21,
        _ => 0,
    }
}

/// Takes the number of such an operation.
#[tactic(auto, unfolding(nm_xdr::specs::Items::enum_at))]
pub(crate) fn take_kept_op(cursor: &mut Cursor<'_>) -> Result<KeptOp, XdrFault>
    ensures { Gives (λ o. o) (enum_at kept_op) cursor.old result cursor.new }
{
    let at = cursor.place();
    let got = cursor.take_u32()?;
    match kept_op(got) {
        Some(op) => Ok(op),
        None => Err(XdrFault::Enum { at, got }),
    }
}

// Whether the operation was carried out.
#[tactic(auto, unfolding(nm_types::specs::Statuses::is_done))]
fn is_done(status: OpStatus) -> bool
    ensures { result ≡ is_done status }
{
    matches!(status, OpStatus::Nfs4Ok)
}

fn is_denied(status: OpStatus) -> bool
    ensures { result ≡ is_denied status }
{
    matches!(status, OpStatus::Denied)
}

/// Takes the value that an operation has with a status.
#[tactic(auto, unfolding(crate::specs::Kept::kept_value_at))]
pub(crate) fn take_kept_value(
    alloc: Global,
    cursor: &mut Cursor<'_>,
    holders: &[Instance],
    op: KeptOp,
    status: OpStatus,
) -> Result<ReplyValue, ReadFault>
    ensures { Takes (kept_value_at holders.now op status) cursor.old result cursor.new }
{
    let done = is_done(status);
    Ok(match op {
        KeptOp::Close => ReplyValue::Close(take_stateid_where(cursor, done)?),
        KeptOp::Lock => ReplyValue::Lock(take_outcome(alloc, cursor, holders, status)?),
        KeptOp::LockU => ReplyValue::Unlock(take_stateid_where(cursor, done)?),
        KeptOp::Open => ReplyValue::Open(take_opened_where(alloc, cursor, done)?),
        KeptOp::OpenConfirm => ReplyValue::OpenConfirm(take_stateid_where(cursor, done)?),
        KeptOp::OpenDowngrade => ReplyValue::OpenDowngrade(take_stateid_where(cursor, done)?),
    })
}

// A stateid where there is one.
fn take_stateid_where(cursor: &mut Cursor<'_>, there: bool) -> Result<Option<StateId>, XdrFault>
    ensures { Gives (λ o. o) (where_at there stateid_at) cursor.old result cursor.new }
{
    if there {
        Ok(Some(take_stateid(cursor)?))
    } else {
        Ok(None)
    }
}

// What OPEN left, where it left something.
fn take_opened_where(
    alloc: Global,
    cursor: &mut Cursor<'_>,
    there: bool,
) -> Result<Option<Opened>, ReadFault>
    ensures { Takes (where_at there opened_at) cursor.old result cursor.new }
{
    if there {
        Ok(Some(take_opened(alloc, cursor)?))
    } else {
        Ok(None)
    }
}

// What LOCK tells with a status.
#[tactic(auto, unfolding(crate::specs::Kept::outcome_at))]
fn take_outcome(
    alloc: Global,
    cursor: &mut Cursor<'_>,
    holders: &[Instance],
    status: OpStatus,
) -> Result<Option<LockOutcome>, ReadFault>
    ensures { Takes (outcome_at holders.now status) cursor.old result cursor.new }
{
    if is_done(status) {
        return Ok(Some(LockOutcome::Locked(take_stateid(cursor)?)));
    }
    if is_denied(status) {
        let denied = take_kept_denied(alloc, cursor, holders)?;
        return Ok(Some(LockOutcome::Denied(denied)));
    }
    Ok(None)
}

/// Puts the value of such an operation.
#[tactic(auto, using(nm_xdr::proofs::PutLaws::front_there, nm_xdr::proofs::PutLaws::front_stands), unfolding(crate::specs::Kept::kept_value, crate::specs::Kept::IsKeptValue))]
pub(crate) fn put_kept_value(
    writer: &mut Writer,
    holders: &[Instance],
    value: &ReplyValue,
) -> Result<(), Memory>
    requires rises { IsStrictlySortedBy party_cmp holders.now }
    requires fits { IsKeptValue holders.now value.now }
    ensures { Puts writer.old (kept_value holders.now value.now) result writer.new }
{
    match value {
        ReplyValue::Close(closed) => put_stateid_where(writer, closed),
        ReplyValue::Lock(told) => put_outcome(writer, holders, told),
        ReplyValue::Unlock(unlocked) => put_stateid_where(writer, unlocked),
        ReplyValue::Open(opened) => put_opened_where(writer, opened),
        ReplyValue::OpenConfirm(confirmed) => put_stateid_where(writer, confirmed),
        ReplyValue::OpenDowngrade(narrowed) => put_stateid_where(writer, narrowed),
        _ => Ok(()),
    }
}

#[tactic(auto, using(nm_xdr::proofs::PutLaws::front_there, nm_xdr::proofs::PutLaws::front_stands))]
fn put_stateid_where(writer: &mut Writer, value: &Option<StateId>) -> Result<(), Memory>
    ensures { Puts writer.old (where_there stateid value.now) result writer.new }
{
    match value {
        Some(stateid) => put_stateid(writer, *stateid),
        None => Ok(()),
    }
}

#[tactic(auto, using(nm_xdr::proofs::PutLaws::front_there, nm_xdr::proofs::PutLaws::front_stands))]
fn put_opened_where(writer: &mut Writer, value: &Option<Opened>) -> Result<(), Memory>
    requires { IfSome value.now IsOpened }
    ensures { Puts writer.old (where_there opened value.now) result writer.new }
{
    match value {
        Some(opened) => put_opened(writer, opened),
        None => Ok(()),
    }
}

#[tactic(auto, using(nm_xdr::proofs::PutLaws::front_there, nm_xdr::proofs::PutLaws::front_stands))]
fn put_outcome(
    writer: &mut Writer,
    holders: &[Instance],
    value: &Option<LockOutcome>,
) -> Result<(), Memory>
    requires rises { IsStrictlySortedBy party_cmp holders.now }
    requires fits { IsOutcome holders.now value.now }
    ensures { Puts writer.old (outcome holders.now value.now) result writer.new }
{
    match value {
        Some(told) => put_told(writer, holders, told),
        None => Ok(()),
    }
}

#[tactic(auto, using(nm_xdr::proofs::PutLaws::front_there, nm_xdr::proofs::PutLaws::front_stands))]
fn put_told(writer: &mut Writer, holders: &[Instance], told: &LockOutcome) -> Result<(), Memory>
    requires rises { IsStrictlySortedBy party_cmp holders.now }
    requires fits { IsOutcome holders.now (Some told.now) }
    ensures { Puts writer.old (outcome holders.now (Some told.now)) result writer.new }
{
    match told {
        LockOutcome::Locked(stateid) => put_stateid(writer, *stateid),
        LockOutcome::Denied(denied) => put_kept_denied(writer, holders, denied),
    }
}
