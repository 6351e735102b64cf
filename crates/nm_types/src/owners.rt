//! What is kept of owners, and what a seqid says of a call (RFC 7530, 9.1.7).
ghost use Rattle.std.specs.Prelude.{◌≡◌, IfOk};

use crate::{Call, Memory, Owner, Reply};

/// What a call's seqid says of it, by what is kept of its owner.
#[derive(Clone, Copy, Debug)]
pub enum Judgement {
    /// The owner isn't known: its first operation may have any seqid.
    Unknown,
    /// It is the next one.
    Fresh,
    /// It is the last one, and the call is the same: it came before, and gets the reply that was kept.
    Again,
    /// It is neither.
    Bad,
}

/// What is kept of an owner that is known.
pub struct OwnerRow {
    pub owner: Owner,
    /// The seqid of its last operation that moved it on.
    pub seqid: u32,
    /// An OPEN_CONFIRM of it was carried out (RFC 7530, 16.18).
    pub confirmed: bool,
    /// That last operation.
    pub call: Call,
    /// The reply to it, without delegations to recall.
    pub reply: Reply,
}

impl Drop for OwnerRow {
    fn drop(self) {
        let OwnerRow {
            owner: _,
            seqid: _,
            confirmed: _,
            call: _,
            reply: _,
        } = self;
    }
}

impl OwnerRow {
    /// The same row once more.
    pub fn copy(&self) -> Result<OwnerRow, Memory>
        ensures { IfOk result (λ row. row ≡ self.now) }
    {
        Ok(OwnerRow {
            owner: self.owner.copy()?,
            seqid: self.seqid,
            confirmed: self.confirmed,
            call: self.call.copy()?,
            reply: self.reply.copy()?,
        })
    }
}
