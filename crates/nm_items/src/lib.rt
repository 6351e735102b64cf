//! Items of messages of NFSv4 that several messages share (RFC 7531): byte strings and lists of words that are kept,
//! stateids, filehandles, and attributes as they stand in a message.
//!
//! Each has its layout and its reading in `specs/Parts`, and in `proofs/PartItems` the fact that these belong together, which
//! the layouts above take one line a field. A reader answers the value exactly where the layout holds, else the first fault at
//! its place, or for want of memory nothing (`specs/Takes`); where it answers no value, the cursor stays. `proofs/RowLaws` has
//! the steps of a loop over rows.
#![tactic(auto)]

mod fault;
mod kept;
mod laws;
mod names;

pub use fault::ReadFault;
pub use kept::{put_fattr, take_fattr, take_kept, take_words};
pub use laws::{parts_are_read_as_spelled, stateids_are_told_apart};
pub use names::{
    numbers_of, put_ref, put_stateid, ref_of_numbers, take_handle, take_ref, take_stateid,
};
