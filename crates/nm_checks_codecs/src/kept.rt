//! Kept replies, read of bytes and written again.
ghost use Rattle.std.specs.Prelude.{IfOk};
ghost use Rattle.std.specs.List.Sorted.{IsStrictlySortedBy};
ghost use Rattle.nm_types.specs.Parties.{party_cmp};

use crate::Fault;
use crate::text::{at, bytes_of, put_again};
use nm_results::{read_kept, write_kept};
use nm_types::{Instance, Principal};
use nm_xdr::{Cursor, Writer};
use std::alloc::Global;

/// The answer to `kept HEX`, which tells the reply that the bytes begin with, among the holders `A` and `B`, or the fault; the
/// place of the cursor behind that; and what is written of the reply.
pub(crate) fn line(alloc: Global, words: &[&str], out: &mut String) -> Result<(), Fault> {
    let bytes = bytes_of(alloc, at(words, 1)?)?;
    let holders = holders()?;
    let place = put_read(alloc, &bytes, &holders, out)?;
    let read = bytes.get(..place).ok_or(Fault::NoCase)?;
    match rewritten(alloc, &bytes, &holders)? {
        Some(written) => put_again(out, read, &written),
        None => Ok(()),
    }
}

// What is read, and where it ends.
fn put_read(
    alloc: Global,
    bytes: &[u8],
    holders: &[Instance],
    out: &mut String,
) -> Result<usize, Fault> {
    let mut cursor = Cursor::new(bytes);
    match read_kept(alloc, &mut cursor, holders) {
        Ok(reply) => write!(out, "{:?} {:?}", reply.status, reply.value)?,
        Err(fault) => write!(out, "fault {fault:?}")?,
    }
    let place = cursor.place();
    write!(out, " at {place}")?;
    Ok(place)
}

// Two holders, of which the first stands before the second.
fn holders() -> Result<[Instance; 2], Fault>
    ensures { IfOk result (λ holders. IsStrictlySortedBy party_cmp holders) }
{
    let principal = Principal { flavor: 1, uid: 2 };
    let Ok(first) = Instance::make(b"A", 3, principal) else {
        return Err(Fault::NoCase);
    };
    let Ok(second) = Instance::make(b"B", 3, principal) else {
        return Err(Fault::NoCase);
    };
    Ok([first, second])
}

// What is written of a reply that is read.
#[tactic(auto, using(nm_results::proofs::KeptLaws::kept_read_fits))]
fn rewritten(alloc: Global, bytes: &[u8], holders: &[Instance]) -> Result<Option<Vec<u8>>, Fault>
    requires { IsStrictlySortedBy party_cmp holders.now }
{
    let mut cursor = Cursor::new(bytes);
    let reply = match read_kept(alloc, &mut cursor, holders) {
        Ok(reply) => reply,
        Err(_) => return Ok(None),
    };
    let mut writer = Writer::new(alloc);
    write_kept(&reply, holders, &mut writer)?;
    Ok(Some(writer.finish()))
}
