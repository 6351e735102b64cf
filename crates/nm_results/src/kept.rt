//! Kept replies, as an image of a file system has them.
ghost use Rattle.std.specs.Prelude.{◌≡◌, ◌++◌, OnOk, OnErr};
ghost use Rattle.std.specs.List.Sorted.{IsStrictlySortedBy};
ghost use Rattle.nm_xdr.specs.Places.{Puts};
ghost use Rattle.nm_items.specs.Takes.{Takes};
ghost use Rattle.nm_types.specs.Parties.{party_cmp};
ghost use Rattle.nm_results.specs.Kept.{kept_at, kept_bytes, IsKeptReply, TakesKept};

use crate::ResultsFault;
use crate::kept_values::{number_of_value, put_kept_value, take_kept_op, take_kept_value};
use crate::reading::take_status;
use nm_items::ReadFault;
use nm_types::{Instance, Memory, Recalls, Reply};
use nm_xdr::{Cursor, Writer};
use std::alloc::Global;

/// Writes a reply that an owner keeps: the number of its operation, its status and its value (RFC 7531, nfs_resop4), and behind that
/// of an OPEN the file that became the current one. It is a reply of an operation that takes a seqid, and has no delegations to
/// recall. In the place of the clientid of a lock that is in the way stands the index of its holder among these, which rise.
///
/// Memory where there is none for all of it: then what was written before is what there is.
pub fn write_kept(reply: &Reply, holders: &[Instance], out: &mut Writer) -> Result<(), Memory>
    requires rises { IsStrictlySortedBy party_cmp holders.now }
    requires fits { IsKeptReply holders.now reply.now }
    ensures ok { OnOk result (out.new ≡ out.old ++ kept_bytes holders.now reply.now) }
    ensures err { OnErr result (out.new ≡ out.old) }
{
    let before = out.len();
    match put_kept(out, holders, reply) {
        Ok(()) => Ok(()),
        Err(memory) => {
            out.cut_back(before);
            Err(memory)
        }
    }
}

/// Reads a reply that an owner keeps. The cursor is left behind it, and after a refusal where it was.
///
/// At where none stands there: the place of the first item that can't be read, that is another constant than the one that is written
/// there, or that is an index past the holders. Of a lock that is in the way a length of 0 is refused, and so is one that reaches the
/// last byte or goes past it and isn't all ones; of a bitmap a last word of 0. Memory where there is none for what is kept.
#[tactic(auto, using(crate::proofs::KeptLaws::refused))]
pub fn read_kept(
    alloc: Global,
    cursor: &mut Cursor<'_>,
    holders: &[Instance],
) -> Result<Reply, ResultsFault>
    ensures value { TakesKept holders.now cursor.old result cursor.new }
    ensures unmoved { OnErr result (cursor.new ≡ cursor.old) }
{
    let start = cursor.fork();
    match take_kept_reply(alloc, cursor, holders) {
        Ok(reply) => Ok(reply),
        Err(fault) => {
            *cursor = start;
            Err(ResultsFault::from(fault))
        }
    }
}

#[tactic(auto, unfolding(crate::specs::Kept::kept_at))]
fn take_kept_reply(
    alloc: Global,
    cursor: &mut Cursor<'_>,
    holders: &[Instance],
) -> Result<Reply, ReadFault>
    ensures { Takes (kept_at holders.now) cursor.old result cursor.new }
{
    let op = take_kept_op(cursor)?;
    let status = take_status(cursor)?;
    let value = take_kept_value(alloc, cursor, holders, op, status)?;
    Ok(Reply {
        status,
        value,
        recalls: Recalls::new(alloc),
    })
}

#[tactic(auto, using(nm_xdr::proofs::PutLaws::front_there, nm_xdr::proofs::PutLaws::front_stands), unfolding(crate::specs::Kept::kept_bytes))]
fn put_kept(writer: &mut Writer, holders: &[Instance], reply: &Reply) -> Result<(), Memory>
    requires rises { IsStrictlySortedBy party_cmp holders.now }
    requires fits { IsKeptReply holders.now reply.now }
    ensures { Puts writer.old (kept_bytes holders.now reply.now) result writer.new }
{
    writer.put_u32(number_of_value(&reply.value))?;
    writer.put_u32(reply.status.number())?;
    put_kept_value(writer, holders, &reply.value)?;
    Ok(())
}
