//! The journal of a file system at a server: the latest of its entries one by one, and the state before the first of them.
#![tactic(auto)]

mod journal;
mod laws;

pub use journal::Journal;
pub use laws::journals_are_legal;
