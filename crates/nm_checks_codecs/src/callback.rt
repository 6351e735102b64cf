//! Calls from a server to a client (RFC 7530, 15.3 and 16), read of bytes and written.
use crate::Fault;
use crate::text::{at, bytes_of, put_again, put_bytes, short};
use nm_callback::{Callback, read_callback, write_callback_reply, write_recall};
use nm_types::OpStatus;
use std::alloc::Global;

/// The program of a recall that is written.
const PROGRAM: u32 = 0x4000_0000;

/// The answer to `callback HEX`, which tells the callback, and what is written of a recall.
pub(crate) fn line(alloc: Global, words: &[&str], out: &mut String) -> Result<(), Fault> {
    let bytes = bytes_of(alloc, at(words, 1)?)?;
    match read_callback(&bytes) {
        Ok(callback) => {
            write!(out, "{callback:?}")?;
            put_recall(alloc, &bytes, callback, out)
        }
        Err(fault) => Ok(write!(out, "fault {fault:?}")?),
    }
}

fn put_recall(
    alloc: Global,
    bytes: &[u8],
    callback: Callback,
    out: &mut String,
) -> Result<(), Fault> {
    match callback {
        Callback::Recall {
            xid,
            ident,
            state,
            handle,
        } => {
            let written = write_recall(alloc, xid, PROGRAM, ident, state, handle)?;
            put_again(out, bytes, &written)
        }
        _ => Ok(()),
    }
}

/// The answer to `callback-reply XID OPERATION STATUS`: the reply that is written.
pub(crate) fn reply(alloc: Global, words: &[&str], out: &mut String) -> Result<(), Fault> {
    let (xid, op) = (short(at(words, 1)?)?, short(at(words, 2)?)?);
    let Some(status) = OpStatus::read(short(at(words, 3)?)?) else {
        return Err(Fault::NoCase);
    };
    let written = write_callback_reply(alloc, xid, op, status)?;
    put_bytes(out, &written)
}
