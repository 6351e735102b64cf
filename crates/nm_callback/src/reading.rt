//! Reading of callbacks.
ghost use Rattle.std.specs.Prelude.{◌≡◌, ◌≤◌, length};
ghost use Rattle.nm_xdr.specs.Places.{Gives};
ghost use Rattle.nm_callback.specs.Callbacks.{opening_at, body_at, compound_at, operation_at, getattr_at, recall_at, callback_at, callback_of, IsWithin};

use crate::callback::VERSION;
use crate::{Callback, CallbackFault};
use nm_items::{take_handle, take_stateid};
use nm_xdr::{Cursor, XdrFault};

/// Reads a call from a server to a client (RFC 5531, 9; RFC 7530, 15.3 and 16; RFC 7531, CB_COMPOUND4args), which is all of
/// these bytes: version 1 of any program, and procedure 0 with nothing behind its header, or procedure 1 with one operation.
///
/// Flavors, the bytes of the credential (at most 400) and of the verifier (at most 400), the tag (at most 1,024 bytes), the
/// minor version and `truncate` are read and not kept, and so are the handle (at most 128 bytes) and the bitmap (at most 8
/// words) of CB_GETATTR. What follows the number of an operation that is neither 3 nor 4 isn't looked at.
///
/// At with the place of the first item that isn't all there or has another value (a message that isn't a call, a version of
/// RPC other than 2, a version of the program other than 1, a procedure past 1, a count of operations other than 1, a length
/// or count past its limit, padding that isn't 0, a flag past 1, a handle of CB_RECALL that [`nm_types::Handle::read`] doesn't
/// give), else with that of the first byte left over. Reading takes no memory, so Memory is never answered.
#[tactic(auto, unfolding(crate::specs::Callbacks::callback_of))]
pub fn read_callback(bytes: &[u8]) -> Result<Callback, CallbackFault>
    ensures value { result ≡ callback_of bytes.now }
    ensures within { IsWithin (length bytes.now) result }
{
    let mut cursor = Cursor::new(bytes);
    let callback = take_callback(&mut cursor)?;
    match callback {
        Callback::Illegal { .. } => Ok(callback),
        Callback::Null { .. } | Callback::Recall { .. } | Callback::GetAttr { .. } => {
            if cursor.left() > 0 {
                return Err(CallbackFault::At { at: cursor.place() });
            }
            Ok(callback)
        }
    }
}

#[tactic(auto, unfolding(crate::specs::Callbacks::callback_at, crate::specs::Callbacks::body_at))]
fn take_callback(cursor: &mut Cursor<'_>) -> Result<Callback, XdrFault>
    ensures { Gives (λ c. c) callback_at cursor.old result cursor.new }
{
    let (xid, procedure) = take_opening(cursor)?;
    if procedure == 0 {
        return Ok(Callback::Null { xid });
    }
    take_compound(cursor, xid)
}

// The items of a header: its xid and its procedure.
#[tactic(auto, unfolding(crate::specs::Callbacks::opening_at))]
fn take_opening(cursor: &mut Cursor<'_>) -> Result<(u32, u32), XdrFault>
    ensures { Gives (λ o. o) opening_at cursor.old result cursor.new }
{
    let xid = cursor.take_u32()?;
    cursor.take_only(0)?;
    cursor.take_only(2)?;
    cursor.take_u32()?;
    cursor.take_only(VERSION)?;
    let procedure = cursor.take_choice()?;
    cursor.take_u32()?;
    cursor.take_bytes(400)?;
    cursor.take_u32()?;
    cursor.take_bytes(400)?;
    Ok((xid, procedure))
}

// What stands behind the header of CB_COMPOUND.
#[tactic(auto, unfolding(crate::specs::Callbacks::compound_at))]
fn take_compound(cursor: &mut Cursor<'_>, xid: u32) -> Result<Callback, XdrFault>
    ensures { Gives (λ c. c) (compound_at xid) cursor.old result cursor.new }
{
    cursor.take_bytes(1024)?;
    cursor.take_u32()?;
    let ident = cursor.take_u32()?;
    cursor.take_only(1)?;
    let op = cursor.take_u32()?;
    take_operation(cursor, xid, ident, op)
}

// The arguments of an operation.
#[tactic(auto, unfolding(crate::specs::Callbacks::operation_at))]
fn take_operation(
    cursor: &mut Cursor<'_>,
    xid: u32,
    ident: u32,
    op: u32,
) -> Result<Callback, XdrFault>
    ensures { Gives (λ c. c) (operation_at xid ident op) cursor.old result cursor.new }
{
    match op {
        3 => take_getattr(cursor, xid),
        4 => take_recall(cursor, xid, ident),
        _ => Ok(Callback::Illegal { xid }),
    }
}

#[tactic(auto, unfolding(crate::specs::Callbacks::getattr_at))]
fn take_getattr(cursor: &mut Cursor<'_>, xid: u32) -> Result<Callback, XdrFault>
    ensures { Gives (λ c. c) (getattr_at xid) cursor.old result cursor.new }
{
    cursor.take_bytes(128)?;
    cursor.pass_words(8)?;
    Ok(Callback::GetAttr { xid })
}

#[tactic(auto, unfolding(crate::specs::Callbacks::recall_at))]
fn take_recall(cursor: &mut Cursor<'_>, xid: u32, ident: u32) -> Result<Callback, XdrFault>
    ensures { Gives (λ c. c) (recall_at xid ident) cursor.old result cursor.new }
{
    let state = take_stateid(cursor)?;
    cursor.take_bool()?;
    let handle = take_handle(cursor)?;
    Ok(Callback::Recall {
        xid,
        ident,
        state,
        handle,
    })
}
