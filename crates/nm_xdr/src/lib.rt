//! The items of XDR, the external data representation of RFC 4506: numbers, flags and byte strings as
//! bytes, both ways.
//!
//! A [`Cursor`] takes items off the front of bytes, and a [`Writer`] puts items behind one another. Each
//! value has one spelling, a multiple of four bytes long, with numbers high byte first and padding of
//! zeros. A take accepts this spelling alone: a padding byte that isn't 0 and a flag that is neither 0 nor
//! 1 are faults.
//!
//! The layer above may rely on this:
//!
//! - A take answers a value exactly where the bytes from the cursor on begin with the spelling of a value
//!   of its kind, and goes on past these bytes alone. Else it answers the first fault, in the order
//!   TooLong, Short, Padding, Bool, at its place in the whole input, and the cursor stays.
//! - A put appends the spelling. Where there is no memory it changes nothing. What was put is taken again,
//!   whatever follows.
//! - No spelling of an item is the beginning of another of its kind.
//! - Takes need no memory.
//! - A reader of several items goes back to where it began by [`Cursor::fork`], and a put of several items by
//!   [`Writer::cut_back`]. A byte string's inside is read by a cursor of its own, whose places are those of the whole
//!   input, and put item by item before its length is known.
//!
//! `specs/Items` has the spelling and the reading of each item, as functions on lists of bytes, and
//! `specs/Fields` the words by which a layout of several items is put together from them. `specs/Places` says
//! what a call that reads from a cursor gives, which is the contract of each take and of every reader above.
//!
//! `proofs/FieldLaws` has one step for each word of `Fields`, and `proofs/ItemLaws` one fact for each item:
//! with these the reading and the spelling of a layout are shown to belong together by one line a field. `proofs/ByteLaws`
//! has those of the items that several messages share, and the steps of a reader of an inside; `proofs/PutLaws` says that what
//! was put before still stands in front.
#![tactic(auto)]

mod cursor;
mod fault;
mod laws;
mod writer;

pub use cursor::Cursor;
pub use fault::XdrFault;
pub use laws::{
    cut_items_are_short, items_are_read_as_spelled, one_spelling, rows_are_read_as_spelled,
    shared_items_are_read_as_spelled, takes_are_exact,
};
pub use nm_memory::Memory;
pub use writer::Writer;
