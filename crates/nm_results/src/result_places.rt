//! Where a result stands among the bytes of results.
ghost use Rattle.std.specs.Prelude.{◌≡◌, IfOk};
ghost use Rattle.nm_items.specs.Takes.{Takes};
ghost use Rattle.nm_results.specs.ResultPlaces.{before_at, earlier_at, place_of_result};

use crate::reading::{take_each, take_status};
use nm_items::ReadFault;
use nm_types::Memory;
use nm_xdr::Cursor;
use std::alloc::Global;

/// The place of the first item of a result, its operation's number: that of the first result has index 0. The place behind the last
/// result, where as many results stand in front.
///
/// `None` where the bytes announce fewer results in front of it, or where what stands in front isn't there or is outside the layout.
/// Memory where there is none for the results in front, which are read again.
#[tactic(auto, using(crate::proofs::ResultPlaceLaws::told), unfolding(crate::specs::ResultPlaces::place_of_result))]
pub fn place_of_result(alloc: Global, body: &[u8], index: usize) -> Result<Option<usize>, Memory>
    ensures { IfOk result (λ place. place ≡ place_of_result index body.now) }
{
    let mut cursor = Cursor::new(body);
    match pass_before(alloc, &mut cursor, index) {
        Ok(true) => Ok(Some(cursor.place())),
        Ok(false) => Ok(None),
        Err(ReadFault::Xdr(_)) => Ok(None),
        Err(ReadFault::Memory) => Err(Memory),
    }
}

// Passes over what stands before a result, and tells whether so many results are announced.
#[tactic(auto, unfolding(crate::specs::ResultPlaces::before_at))]
fn pass_before(alloc: Global, cursor: &mut Cursor<'_>, index: usize) -> Result<bool, ReadFault>
    ensures { Takes (before_at index) cursor.old result cursor.new }
{
    take_status(cursor)?;
    cursor.take_bytes(1024)?;
    let count = cursor.take_count(u32::MAX)?;
    pass_earlier(alloc, cursor, index, count)
}

#[tactic(auto, unfolding(crate::specs::ResultPlaces::earlier_at))]
fn pass_earlier(
    alloc: Global,
    cursor: &mut Cursor<'_>,
    index: usize,
    count: u32,
) -> Result<bool, ReadFault>
    ensures { Takes (earlier_at index count) cursor.old result cursor.new }
{
    if index > count as usize {
        return Ok(false);
    }
    take_each(alloc, cursor, index as u32)?;
    Ok(true)
}
