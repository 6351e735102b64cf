//! Writing of callbacks, and of the replies to them.
ghost use Rattle.std.specs.Prelude.{◌≡◌, ◌++◌, false, [], OnOk, IfOk};
ghost use Rattle.nm_callback.specs.Callbacks.{body, compound, recalls, recall, result_body, callback_reply};

use crate::callback::VERSION;
use nm_items::put_stateid;
use nm_rpc::{CallHead, put_call_head, put_reply_head};
use nm_types::{Bytes, Handle, Memory, OpStatus, Principal, StateId};
use nm_xdr::Writer;
use std::alloc::Global;

/// Writes the call that recalls a delegation (RFC 7530, 16.2.6): procedure 1 of version 1 of the client's program, with one
/// CB_RECALL, no credential, an empty tag, minor version 0 and `truncate` false. `ident` is the number that the client gave
/// with its address.
///
/// Memory where there is none for the bytes.
#[tactic(auto, unfolding(crate::specs::Callbacks::recall, nm_rpc::specs::Messages::credential))]
pub fn write_recall(
    alloc: Global,
    xid: u32,
    program: u32,
    ident: u32,
    state: StateId,
    handle: Handle,
) -> Result<Vec<u8>, Memory>
    ensures { IfOk result (λ bytes. bytes.items ≡ recall xid program ident state handle) }
{
    let head = CallHead {
        xid,
        program,
        version: VERSION,
        procedure: 1,
        principal: Principal { flavor: 0, uid: 0 },
        machine: Bytes::new(alloc),
        body: 0,
    };
    let mut writer = Writer::new(alloc);
    put_call_head(&mut writer, &head)?;
    put_recall(&mut writer, ident, state, handle)?;
    Ok(writer.finish())
}

// What stands behind the header of a recall.
#[tactic(auto, unfolding(crate::specs::Callbacks::body, crate::specs::Callbacks::operation))]
fn put_recall(writer: &mut Writer, ident: u32, state: StateId, handle: Handle) -> Result<(), Memory>
    ensures { OnOk result (writer.new ≡ writer.old ++ body (compound [] 0 ident (recalls state false handle))) }
{
    writer.put_opaque(&[])?;
    writer.put_u32(0)?;
    writer.put_u32(ident)?;
    writer.put_u32(1)?;
    writer.put_u32(4)?;
    put_stateid(writer, state)?;
    writer.put_bool(false)?;
    writer.put_opaque(&handle.wire())
}

/// Writes the reply to a callback with one operation (RFC 7530, 15.3; RFC 7531, CB_COMPOUND4res): an empty tag, and one result
/// with the number of the operation, 3 and 4 or 10044 for an unknown one, and the status, which is that of the whole too.
///
/// Memory where there is none for the bytes.
#[tactic(auto, unfolding(crate::specs::Callbacks::callback_reply, nm_rpc::specs::Replies::reply))]
pub fn write_callback_reply(
    alloc: Global,
    xid: u32,
    op: u32,
    status: OpStatus,
) -> Result<Vec<u8>, Memory>
    ensures { IfOk result (λ bytes. bytes.items ≡ callback_reply xid op status) }
{
    let mut writer = Writer::new(alloc);
    put_reply_head(&mut writer, xid)?;
    put_result(&mut writer, op, status)?;
    Ok(writer.finish())
}

// What stands behind the header of a reply.
#[tactic(auto, unfolding(crate::specs::Callbacks::result_body))]
fn put_result(writer: &mut Writer, op: u32, status: OpStatus) -> Result<(), Memory>
    ensures { OnOk result (writer.new ≡ writer.old ++ result_body op status) }
{
    writer.put_u32(status.number())?;
    writer.put_opaque(&[])?;
    writer.put_u32(1)?;
    writer.put_u32(op)?;
    writer.put_u32(status.number())
}
