//! The opens of one file system (RFC 7530, 9.9).
#![tactic(auto)]

mod rows;
mod shares;
mod state;

pub use rows::{is_narrower, is_share, seqid_after};
pub use shares::Shares;
pub use state::State;
