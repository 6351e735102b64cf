//! The files of one file system: their names, their bytes and their attributes (RFC 7530, 2 to 5 and 12).
#![tactic(auto)]

mod bytes;
mod calls;
mod checks;
mod listing;
mod names;
mod rows;
mod tree;

pub use listing::{Listed, Listing};
pub use tree::Tree;
