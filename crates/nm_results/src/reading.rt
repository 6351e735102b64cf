//! Reading of results.
ghost use Rattle.std.specs.Prelude.{◌≡◌, []};
ghost use Rattle.nm_xdr.specs.Fields.{rows_at};
ghost use Rattle.nm_xdr.specs.Places.{Gives};
ghost use Rattle.nm_items.specs.Takes.{Takes};
ghost use Rattle.nm_results.specs.Results.{op_at, status_at, arm_at, result_at, items_at, results_at, AnswersResults};

use crate::arms::{Arm, arm_of, is_op};
use crate::value_reading::take_value;
use crate::{OpResult, ResultList, Results, ResultsFault};
use nm_items::{ReadFault, take_kept};
use nm_types::OpStatus;
use nm_xdr::{Cursor, XdrFault};
use std::alloc::Global;

/// Reads the results of a compound (RFC 7530, 16; RFC 7531, COMPOUND4res), which are all of the bytes.
///
/// At where they aren't: the place of the first item that isn't all there, or whose value is outside the layout, as an operation
/// or a status that isn't of the table, OK for an operation that isn't served, and a length past its limit; else that of the
/// first byte left over. Memory where there is none for what is kept, of which none is taken for rows that aren't there.
#[tactic(auto, using(crate::proofs::PlaceLaws::told_place, crate::proofs::PlaceLaws::left_over, crate::proofs::PlaceLaws::nothing_left), unfolding(crate::specs::Results::results_of))]
pub fn read_results(alloc: Global, body: &[u8]) -> Result<Results, ResultsFault>
    ensures { AnswersResults result body.now }
{
    let mut cursor = Cursor::new(body);
    let value = take_results(alloc, &mut cursor)?;
    if cursor.left() > 0 {
        return Err(ResultsFault::At { at: cursor.place() });
    }
    Ok(value)
}

#[tactic(auto, unfolding(crate::specs::Results::results_at))]
fn take_results(alloc: Global, cursor: &mut Cursor<'_>) -> Result<Results, ReadFault>
    ensures { Takes results_at cursor.old result cursor.new }
{
    let status = take_status(cursor)?;
    let tag = take_kept(alloc, cursor, 1024)?;
    let items = take_items(alloc, cursor)?;
    Ok(Results { status, tag, items })
}

#[tactic(auto, unfolding(crate::specs::Results::items_at, nm_xdr::specs::Items::counted_at))]
fn take_items(alloc: Global, cursor: &mut Cursor<'_>) -> Result<ResultList, ReadFault>
    ensures { Takes items_at cursor.old result cursor.new }
{
    let count = cursor.take_count(u32::MAX)?;
    take_each(alloc, cursor, count)
}

// So many results. Each takes memory once it was read.
pub(crate) fn take_each(
    alloc: Global,
    cursor: &mut Cursor<'_>,
    count: u32,
) -> Result<ResultList, ReadFault>
    ensures { Takes (rows_at (λ _. result_at) count []) cursor.old result cursor.new }
{
    let mut results = ResultList::new(alloc);
    for _ in 0..count {
        results.push(take_result(alloc, cursor)?)?;
    }
    Ok(results)
}

#[tactic(auto, unfolding(crate::specs::Results::result_at))]
fn take_result(alloc: Global, cursor: &mut Cursor<'_>) -> Result<OpResult, ReadFault>
    ensures { Takes result_at cursor.old result cursor.new }
{
    let op = take_op(cursor)?;
    let (status, arm) = take_arm(cursor, op)?;
    let value = take_value(alloc, cursor, arm)?;
    Ok(OpResult { op, status, value })
}

#[tactic(auto, unfolding(crate::specs::Results::op_at))]
fn take_op(cursor: &mut Cursor<'_>) -> Result<u32, XdrFault>
    ensures { Gives (λ n. n) op_at cursor.old result cursor.new }
{
    let at = cursor.place();
    let got = cursor.take_u32()?;
    if !is_op(got) {
        return Err(XdrFault::Enum { at, got });
    }
    Ok(got)
}

// A status that this operation can have, with the value that it has then.
#[tactic(auto, unfolding(crate::specs::Results::arm_at))]
fn take_arm(cursor: &mut Cursor<'_>, op: u32) -> Result<(OpStatus, Arm), XdrFault>
    ensures { Gives (λ s. s) (arm_at op) cursor.old result cursor.new }
{
    let at = cursor.place();
    let status = take_status(cursor)?;
    match arm_of(op, status) {
        Some(arm) => Ok((status, arm)),
        None => Err(XdrFault::Enum {
            at,
            got: status.number(),
        }),
    }
}

#[tactic(auto, unfolding(crate::specs::Results::status_at, nm_xdr::specs::Items::enum_at))]
pub(crate) fn take_status(cursor: &mut Cursor<'_>) -> Result<OpStatus, XdrFault>
    ensures { Gives (λ s. s) status_at cursor.old result cursor.new }
{
    let at = cursor.place();
    let got = cursor.take_u32()?;
    match OpStatus::read(got) {
        Some(status) => Ok(status),
        None => Err(XdrFault::Enum { at, got }),
    }
}
