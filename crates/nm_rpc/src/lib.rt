//! Records, calls and replies of RPC (RFC 5531).
//!
//! A stream of bytes carries records, each cut into fragments as its writer likes (section 11).
//! [`Records`] takes the stream in any pieces and gives its records, and [`write_records`] spells a message
//! as a record of one fragment. The layer above may rely on this: the records given and waiting are those
//! of the stream so far, whatever pieces it came in; a stream is refused exactly at the first header with
//! which a record would be longer than the limit; and a feed for which there is no memory leaves everything
//! as it was.
//!
//! A call has a header and a body, and a reply tells what became of it (section 9). [`read_call`] answers a
//! head exactly where bytes are a call to one of the services, and else the first fault in the order of
//! [`CallFault`], of those for which the items that can be read stand. [`read_reply`] answers a head exactly
//! where bytes are a reply, and else their first fault. What [`write_call`], [`write_reply`] and
//! [`write_refusal`] write is read again as what was written.
//!
//! `specs/Stream` says what a fragment is, which bytes spell a record, how a stream splits into records and
//! where it is too long. `specs/Feeding` says what is held after some of its bytes, and what that has to do
//! with the stream. `specs/Messages` has the layout of credentials and calls, and what is read of any bytes,
//! and `specs/Replies` the same of replies.
#![tactic(auto)]

mod call_reading;
mod call_writing;
mod calls;
mod credentials;
mod fault;
mod headers;
mod joined;
mod message_laws;
mod phase;
mod pieces;
mod records;
mod replies;
mod stream_laws;

pub use call_reading::read_call;
pub use call_writing::{put_call_head, write_call};
pub use calls::{CallFault, CallHead, Service};
pub use fault::RecordFault;
pub use message_laws::{
    calls_are_judged_by_their_items, calls_are_read_as_spelled, calls_are_read_as_written,
    cut_calls_are_garbage, replies_are_read_as_spelled, replies_are_read_as_written,
};
pub use pieces::split_records;
pub use records::{Records, close_record, write_records};
pub use replies::{
    ReplyHead, ReplyOutcome, put_reply_head, read_reply, write_refusal, write_reply,
};
pub use stream_laws::{
    cutting_changes_nothing, headers_are_words, held_is_of_the_stream, spelled_records_are_given,
    streams_split_in_one_way,
};
