//! A stateid of a file system, without the file system's number.

/// The state of an open: the counter of its stateid, from 1, and its seqid, from 1.
#[derive(Clone, Copy)]
pub struct State {
    pub counter: u64,
    pub seqid: u32,
}
