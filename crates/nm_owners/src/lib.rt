//! What is kept of the owners of one file system: the seqid of each, its last operation and the reply to it, so that a
//! call that comes twice is carried out once (RFC 7530, 9.1.7).
#![tactic(auto)]

mod owners;
mod rows;

pub use nm_types::Judgement;
pub use owners::Owners;
