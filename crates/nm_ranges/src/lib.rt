//! Byte-range locks of one file (RFC 7530, 9.2): which lock stateid holds which bytes, and what is in the way of a lock. An owner is the
//! counter of its lock stateid.
#![tactic(auto)]

mod counts;
mod pairs;
mod ranges;
mod rows;

pub use nm_types::Held;
pub use ranges::Ranges;
