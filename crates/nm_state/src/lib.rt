//! The state of one file system: what was asked of it has left files, opens, byte-range locks and what is kept of owners, and
//! the answer to the next event is read off these (RFC 7530, 9.1 and 16).
#![tactic(auto)]

mod attributes;
mod checks;
mod claims;
mod closed;
mod closes;
mod confirms;
mod data;
mod entries;
mod file_ranges;
mod holders;
mod known_locks;
mod listing;
mod lock_asks;
mod lock_rows;
mod lock_tests;
mod locks;
mod making;
mod names;
mod newcomers;
mod opens;
mod parts;
mod releases;
mod seqids;
mod setting;
mod shown;
mod state;
mod stateids;
mod tables;
mod unlocks;

pub use state::FsState;
