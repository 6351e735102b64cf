//! The owners of one file system.
ghost use Rattle.std.specs.Prelude.{◌≡◌, IfOk, OnOk, OnErr, option_copied, option_map};
ghost use Rattle.nm_rules.specs.Past.{noted_row};
ghost use Rattle.nm_rules.specs.Seqids.{is_confirmed, judged, owner_at, owners_after, put_owner};
ghost use Rattle.nm_owners.specs.Rows.{no_owners, after_note, after_forget, after_end};

use crate::rows::{confirmed, copy_rows, drop_of, drop_owner, find, judge, kept, note};
use nm_types::{Call, Instance, Judgement, Memory, Owner, OwnerRow, Reply};
use std::alloc::Global;
use std::marker::Model;

/// The owners of one file system that are known, in the order in which they came. An owner becomes known by its first
/// operation that moves it on (RFC 7530, 9.1.7).
#[derive(Drop)]
pub struct Owners {
    rows: Vec<OwnerRow>,
}

impl Model for Owners {
    ghost use Rattle.nm_owners.specs.Rows.{OwnersNow};

    ghost Value = { OwnersNow };

    ghost view = { λ o. record { table = o.rows.items } };
}

impl Owners {
    /// No owners yet. It takes no memory.
    pub fn new(alloc: Global) -> Owners
        ensures { result ≡ no_owners }
    {
        Owners {
            rows: Vec::new(alloc),
        }
    }

    /// What is kept of each owner.
    pub fn rows(&self) -> &[OwnerRow]
        ensures { result.now ≡ self.now.table }
    {
        &self.rows
    }

    /// What is kept of that owner. `None` exactly where it isn't known.
    pub fn row_of(&self, owner: &Owner) -> Option<&OwnerRow>
        ensures { option_copied result ≡ owner_at owner.now self.now.table }
    {
        find(&self.rows, owner)
    }

    /// What an operation's seqid says of it: whether it is the next one of its owner, or came before.
    pub fn judge(&self, owner: &Owner, seqid: u32, call: &Call) -> Judgement
        ensures { result ≡ judged (owner_at owner.now self.now.table) seqid call.now.caller call.now.file call.now.deed }
    {
        judge(&self.rows, owner, seqid, call)
    }

    /// The reply to the owner's last operation. `None` exactly where it isn't known.
    pub fn kept(&self, owner: &Owner) -> Option<&Reply>
        ensures { option_copied result ≡ option_map (λ row. row.reply) (owner_at owner.now self.now.table) }
    {
        kept(&self.rows, owner)
    }

    /// Whether an OPEN_CONFIRM of the owner was carried out (RFC 7530, 16.18).
    pub fn is_confirmed(&self, owner: &Owner) -> bool
        ensures { result ≡ is_confirmed (owner_at owner.now self.now.table) }
    {
        confirmed(&self.rows, owner)
    }

    /// An owner moves on to that seqid by a call. The call is kept, and the reply to it without delegations to recall.
    /// After want of memory nothing has changed.
    pub fn note(
        &mut self,
        owner: &Owner,
        seqid: u32,
        call: &Call,
        reply: &Reply,
    ) -> Result<(), Memory>
        ensures ok { OnOk result (self.new ≡ after_note self.old owner.now seqid call.now reply.now) }
        ensures err { OnErr result (self.new ≡ self.old) }
    {
        note(&mut self.rows, owner, seqid, call, reply)
    }

    /// Forgets that owner. Its next operation may have any seqid.
    pub fn forget(&mut self, owner: &Owner)
        ensures { self.new ≡ after_forget self.old owner.now }
    {
        drop_owner(&mut self.rows, owner);
    }

    /// Forgets all owners of an instance, which has ended (RFC 7530, 9.6.3).
    pub fn drop_client(&mut self, instance: &Instance)
        ensures { self.new ≡ after_end self.old instance.now }
    {
        drop_of(&mut self.rows, instance);
    }

    /// The same owners once more.
    pub fn copy(&self) -> Result<Owners, Memory>
        ensures { IfOk result (λ owners. owners ≡ self.now) }
    {
        Ok(Owners {
            rows: copy_rows(*self.rows.allocator(), &self.rows)?,
        })
    }
}
