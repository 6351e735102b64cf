//! What is held in a file system, as it is shown.
use crate::{Bytes, Instance, Items, LockRange};

/// Ranges that an owner holds of one file, by rising first byte. Those of one kind that touch are one.
pub type RangeList = Items<LockRange>;

/// What a stateid stands for.
#[derive(Drop)]
pub enum HeldKind {
    /// An open, with its access (1 to 3) and its deny (0 to 3).
    Open { access: u32, deny: u32 },
    /// The byte-range locks of an owner on the file. It may hold none.
    Lock { ranges: RangeList },
}

/// One stateid, and what it stands for.
#[derive(Drop)]
pub struct HeldRow {
    /// The counter of the stateid, from 1.
    pub counter: u64,
    /// The seqid of the stateid, from 1.
    pub seqid: u32,
    pub file: u64,
    /// The file's name in its directory.
    pub name: Bytes,
    pub instance: Instance,
    /// The owner's text.
    pub owner: Bytes,
    pub row: HeldKind,
}

/// All that is held, by rising counter.
pub type HeldTable = Items<HeldRow>;
