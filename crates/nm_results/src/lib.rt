//! The results of the operations of a COMPOUND (RFC 7530, 16; RFC 7531, COMPOUND4res): their layout, read and written.
//!
//! [`read_results`] answers the results that bytes are, exactly where they are ones, and else the place of the first item
//! that isn't there or is outside. What [`write_results`] writes is read again as what was written. Of some values more
//! stands in a message than is kept: whether a change is atomic, and of a delegation whether it is recalled, its ace and the
//! size of its file. That is passed over, and what is written in its place is fixed.
//!
//! [`put_results`] puts results behind a header. [`results_length`] tells whether they can be written, and how long they are;
//! [`place_of_result`] tells where one of them begins. [`write_kept`] and [`read_kept`] are for a reply that an owner keeps, as an
//! image of a file system has it: nothing is passed over there, and each reply has one spelling.
//!
//! `specs/Arms` says which value an operation has with which status. `specs/Parts`, `Opens`, `Locks`, `Contents`,
//! `Directories` and `Clients` have the layouts of values, `specs/Values` joins them, and `specs/Results` has the layout of
//! the whole, with what bytes are results apart from how they are read. `specs/Kept`, `KeptOpens`, `KeptLocks` and `Holders` have
//! the layout of kept replies, `specs/Lengths` says what a length is, and `specs/ResultPlaces` what the place of a result is.
#![tactic(auto)]

mod arms;
mod clients;
mod contents;
mod directories;
mod fault;
mod holders;
mod kept;
mod kept_locks;
mod kept_opens;
mod kept_values;
mod laws;
mod lengths;
mod locks;
mod opens;
mod parts;
mod reading;
mod result_places;
mod value_reading;
mod value_writing;
mod values;
mod writing;

pub use fault::ResultsFault;
pub use kept::{read_kept, write_kept};
pub use laws::{
    kept_replies_are_read_as_written, results_are_read_as_spelled, results_are_read_as_written,
    results_have_places,
};
pub use lengths::{result_length, results_length};
pub use reading::read_results;
pub use result_places::place_of_result;
pub use values::{
    ClientAddress, DirEntries, DirEntry, LockDenied, OpResult, ReadDirOk, ResultList, ResultValue,
    Results, SetClientIdOk,
};
pub use writing::{put_results, write_results};
