//! Calls from a server to a client (RFC 7530, 15.3 and 16; RFC 7531, CB_COMPOUND4args), and the reply to one.
//!
//! A server recalls a delegation by a call of RPC to the program that the client named. [`read_callback`] answers what a
//! server asks, exactly where bytes are such a call, and else the place of the first item that isn't all there or has
//! another value, or of the first byte left over; it takes no memory. More stands in a call than is kept: the program, the
//! credential and the verifier, the tag, the minor version, `truncate`, and of other operations than CB_RECALL all
//! arguments. What [`write_recall`] writes is read again as what was written, and a recall that is cut is refused at the item
//! in which it is cut.
//!
//! `specs/Callbacks` has the layout, what is read of any bytes, and what bytes are a callback apart from how they are read.
//! The header is that of nm_rpc, and the stateid and the filehandle are those of nm_items.
#![tactic(auto)]

mod callback;
mod laws;
mod reading;
mod writing;

pub use callback::{Callback, CallbackFault};
pub use laws::{
    callbacks_are_read_as_spelled, cut_recalls_are_refused, longer_callbacks_are_refused,
    recalls_are_read_as_written, replies_are_read_as_written,
};
pub use reading::read_callback;
pub use writing::{write_callback_reply, write_recall};
