//! Replies, read and written.
ghost use Rattle.std.specs.Prelude.{◌≡◌, ◌++◌, IfOk, OnOk, OnErr, IsSome};
ghost use Rattle.std.specs.Option.{option_map};
ghost use Rattle.nm_xdr.specs.Places.{Gives, Puts, end_of};
ghost use Rattle.nm_rpc.specs.Replies.{done, undone, other_versions, other_rpc, unknown_caller, accepted, denied, reply, accepted_as, accepted_at, denied_as, denied_at, reply_at, AnswersReply, refusal, spelled};

use crate::CallFault;
use nm_types::Memory;
use nm_xdr::{Cursor, Writer, XdrFault};
use std::alloc::Global;

/// What a reply tells.
#[derive(Clone, Copy, Debug)]
pub struct ReplyHead {
    /// The number of the call that is answered.
    pub xid: u32,
    pub outcome: ReplyOutcome,
}

/// What became of a call.
#[derive(Clone, Copy, Debug)]
pub enum ReplyOutcome {
    /// It was done.
    Success {
        /// How many bytes of the message stand before the body.
        body: usize,
    },
    /// It was accepted and not done (RFC 5531, 9, accept_stat).
    Accepted {
        /// Why: 1 for the program, 2 for its version, 3 for the procedure, 4 for the arguments. It isn't 0.
        stat: u32,
    },
    /// It was denied (RFC 5531, 9, reject_stat).
    Denied {
        /// Why: 0 for the version of RPC, 1 for the credential.
        stat: u32,
    },
}

/// Reads a reply (RFC 5531, 9). Its verifier has flavor 0 and no bytes, and behind a refusal nothing is left.
///
/// Enum for a number that isn't one of its choices, TooLong for a verifier with bytes and for bytes that are left over,
/// and Short where an item isn't all there; the first fault, at the item's first byte.
#[tactic(auto, using(nm_xdr::proofs::PassLaws::left_over, nm_xdr::proofs::PassLaws::nothing_left), unfolding(crate::specs::Replies::reply_of))]
pub fn read_reply(bytes: &[u8]) -> Result<ReplyHead, XdrFault>
    ensures { AnswersReply result bytes.now }
{
    let mut cursor = Cursor::new(bytes);
    let head = take_reply(&mut cursor)?;
    match head.outcome {
        ReplyOutcome::Success { .. } => Ok(head),
        ReplyOutcome::Accepted { .. } | ReplyOutcome::Denied { .. } => {
            cursor.end()?;
            Ok(head)
        }
    }
}

#[tactic(auto, unfolding(crate::specs::Replies::reply_at))]
fn take_reply(cursor: &mut Cursor<'_>) -> Result<ReplyHead, XdrFault>
    ensures { Gives (λ head. head) (reply_at (end_of cursor.old)) cursor.old result cursor.new }
{
    let xid = cursor.take_u32()?;
    cursor.take_only(1)?;
    if cursor.take_choice()? == 0 {
        take_accepted(cursor, xid)
    } else {
        take_denied(cursor, xid)
    }
}

#[tactic(auto, unfolding(crate::specs::Replies::accepted_at))]
fn take_accepted(cursor: &mut Cursor<'_>, xid: u32) -> Result<ReplyHead, XdrFault>
    ensures { Gives (λ head. head) (accepted_at (end_of cursor.old) xid) cursor.old result cursor.new }
{
    cursor.take_only(0)?;
    cursor.take_opaque(0)?;
    let stat = cursor.take_u32()?;
    take_accepted_arm(cursor, xid, stat)
}

#[tactic(auto, unfolding(crate::specs::Replies::accepted_as))]
fn take_accepted_arm(cursor: &mut Cursor<'_>, xid: u32, stat: u32) -> Result<ReplyHead, XdrFault>
    ensures { Gives (λ head. head) (accepted_as (end_of cursor.old) xid stat) cursor.old result cursor.new }
{
    if stat == 0 {
        let body = cursor.place();
        return Ok(ReplyHead {
            xid,
            outcome: ReplyOutcome::Success { body },
        });
    }
    if stat == 2 {
        cursor.take_u32()?;
        cursor.take_u32()?;
    }
    Ok(ReplyHead {
        xid,
        outcome: ReplyOutcome::Accepted { stat },
    })
}

#[tactic(auto, unfolding(crate::specs::Replies::denied_at))]
fn take_denied(cursor: &mut Cursor<'_>, xid: u32) -> Result<ReplyHead, XdrFault>
    ensures { Gives (λ head. head) (denied_at xid) cursor.old result cursor.new }
{
    let stat = cursor.take_choice()?;
    take_denied_arm(cursor, xid, stat)
}

#[tactic(auto, unfolding(crate::specs::Replies::denied_as))]
fn take_denied_arm(cursor: &mut Cursor<'_>, xid: u32, stat: u32) -> Result<ReplyHead, XdrFault>
    ensures { Gives (λ head. head) (denied_as xid stat) cursor.old result cursor.new }
{
    cursor.take_u32()?;
    if stat == 0 {
        cursor.take_u32()?;
    }
    Ok(ReplyHead {
        xid,
        outcome: ReplyOutcome::Denied { stat },
    })
}

/// Puts what stands before the body of the reply to a call that was done (RFC 5531, 9): the body is put behind it.
///
/// Memory where there is none for its 24 bytes.
pub fn put_reply_head(writer: &mut Writer, xid: u32) -> Result<(), Memory>
    ensures ok { OnOk result (writer.new ≡ writer.old ++ accepted xid 0) }
    ensures err { OnErr result (writer.new ≡ writer.old) }
{
    let before = writer.len();
    writer.reserve(24)?;
    let put = put_accepted(writer, xid, 0);
    if put.is_err() {
        writer.cut_back(before);
    }
    put
}

/// Writes the reply to a call that was done, with its body.
#[tactic(auto, unfolding(crate::specs::Replies::reply))]
pub fn write_reply(alloc: Global, xid: u32, body: &[u8]) -> Result<Vec<u8>, Memory>
    ensures { IfOk result (λ bytes. bytes.items ≡ reply xid (done body.now)) }
{
    let mut writer = Writer::new(alloc);
    put_whole_reply(&mut writer, xid, body)?;
    Ok(writer.finish())
}

fn put_whole_reply(writer: &mut Writer, xid: u32, body: &[u8]) -> Result<(), Memory>
    ensures { OnOk result (writer.new ≡ (writer.old ++ accepted xid 0) ++ body.now) }
{
    writer.reserve(body.len() + 24)?;
    put_reply_head(writer, xid)?;
    writer.put_bytes(body)
}

/// Writes the reply to a call that is refused. None exactly for NotCall and Memory, to which nothing is answered, and for
/// which it takes no memory.
#[tactic(auto, unfolding(crate::specs::Replies::refusal, crate::specs::Replies::reply))]
pub fn write_refusal(alloc: Global, fault: &CallFault) -> Result<Option<Vec<u8>>, Memory>
    ensures value { IfOk result (λ written. option_map (λ bytes. bytes.items) written ≡ spelled (refusal fault.now)) }
    ensures memory { OnErr result (IsSome (refusal fault.now)) }
{
    let mut writer = Writer::new(alloc);
    let put = match *fault {
        CallFault::NotCall | CallFault::Memory => return Ok(None),
        CallFault::RpcVersion { xid } => put_other_rpc(&mut writer, xid),
        CallFault::Auth { xid } => put_unknown_caller(&mut writer, xid),
        CallFault::Program { xid } => put_accepted(&mut writer, xid, 1),
        CallFault::Version { xid, low, high } => put_other_versions(&mut writer, xid, low, high),
        CallFault::Proc { xid } => put_accepted(&mut writer, xid, 3),
        CallFault::Garbage { xid, .. } => put_accepted(&mut writer, xid, 4),
    };
    put?;
    Ok(Some(writer.finish()))
}

#[tactic(auto, using(nm_xdr::proofs::PutLaws::front_there, nm_xdr::proofs::PutLaws::front_stands), unfolding(crate::specs::Replies::accepted))]
fn put_accepted(writer: &mut Writer, xid: u32, stat: u32) -> Result<(), Memory>
    ensures { Puts writer.old (accepted xid stat) result writer.new }
{
    writer.put_u32(xid)?;
    writer.put_u32(1)?;
    writer.put_u32(0)?;
    writer.put_u32(0)?;
    writer.put_opaque(&[])?;
    writer.put_u32(stat)?;
    Ok(())
}

#[tactic(auto, unfolding(crate::specs::Replies::denied))]
fn put_denied(writer: &mut Writer, xid: u32, stat: u32) -> Result<(), Memory>
    ensures { OnOk result (writer.new ≡ writer.old ++ denied xid stat) }
{
    writer.put_u32(xid)?;
    writer.put_u32(1)?;
    writer.put_u32(1)?;
    writer.put_u32(stat)
}

#[tactic(auto, unfolding(crate::specs::Replies::reply))]
fn put_other_versions(writer: &mut Writer, xid: u32, low: u32, high: u32) -> Result<(), Memory>
    ensures { OnOk result (writer.new ≡ writer.old ++ reply xid (other_versions low high)) }
{
    put_accepted(writer, xid, 2)?;
    writer.put_u32(low)?;
    writer.put_u32(high)
}

#[tactic(auto, unfolding(crate::specs::Replies::reply))]
fn put_other_rpc(writer: &mut Writer, xid: u32) -> Result<(), Memory>
    ensures { OnOk result (writer.new ≡ writer.old ++ reply xid (other_rpc 2 2)) }
{
    put_denied(writer, xid, 0)?;
    writer.put_u32(2)?;
    writer.put_u32(2)
}

#[tactic(auto, unfolding(crate::specs::Replies::reply))]
fn put_unknown_caller(writer: &mut Writer, xid: u32) -> Result<(), Memory>
    ensures { OnOk result (writer.new ≡ writer.old ++ reply xid (unknown_caller 1)) }
{
    put_denied(writer, xid, 1)?;
    writer.put_u32(1)
}
