//! The seqids of owners (RFC 7530, 9.1.7): whether it is an operation's turn, and how its owner then moves on.
ghost use Rattle.std.specs.Prelude.{◌≡◌, ◌<◌, ◌+◌, Some, None, false, IfOk, OnOk, length, nat_le, option_copied};
ghost use Rattle.nm_rules.specs.Answer.{refused_value, reply_with};
ghost use Rattle.nm_rules.specs.LockOps.{newcomer_stop};
ghost use Rattle.nm_rules.specs.LockRows.{ranges_taken};
ghost use Rattle.nm_rules.specs.Opens.{rows_limit, rows_taken};
ghost use Rattle.nm_rules.specs.Past.{noted_row, opener};
ghost use Rattle.nm_rules.specs.Seqids.{owner_at};
ghost use Rattle.nm_types.specs.Calls.{seqid_of};
ghost use Rattle.nm_rules.specs.Seqids.OwnerWord.{Noted};
ghost use Rattle.nm_rules.specs.Stateids.{owner_stop};
ghost use Rattle.nm_types.specs.declared.calls.Deed.TheVariants.{Open as OpenDeed};
ghost use Rattle.nm_state.specs.declared.seqids.Turn.TheVariants.{Answered};
ghost use Rattle.nm_state.specs.Taken.{counted};
ghost use Rattle.nm_state.specs.Turns.{after_noting, lock_turn_at, note_word, turn_at, turn_behind, turn_by, turn_to_open};

use crate::claims::claim_unresolved;
use crate::closed::drop_owned;
use crate::file_ranges::taken;
use crate::stateids::{is_own, is_own_lock};
use crate::tables::Tables;
use nm_types::{
    Call, Deed, Instance, Items, Judgement, LockRow, Memory, OpStatus, OpenArgs, OpenRow, Owner,
    Reply, ReplyValue, StateRef,
};

/// The owners, the opens, the closed opens, the stateids of lock owners and the ranges of a file system.
pub const ROWS_LIMIT: usize = 65_536;

/// Whether it is an operation's turn.
#[derive(Drop)]
pub enum Turn {
    /// It isn't: it is answered so, and changes nothing.
    Answered(Reply),
    /// It is, and this owner moves on by it.
    Of(Owner),
}

impl Tables {
    // The value of a refusal: none, but that SETATTR says that it set nothing, and RELEASE_LOCKOWNER that it released nobody.
    fn refused_value(&self, deed: &Deed) -> ReplyValue
        ensures { result ≡ refused_value deed.now }
    {
        match deed {
            Deed::Access(_) => ReplyValue::Access(None),
            Deed::Close(_) => ReplyValue::Close(None),
            Deed::Commit(_) => ReplyValue::Commit(None),
            Deed::Create(_) => ReplyValue::Create(None),
            Deed::GetAttr(_) => ReplyValue::GetAttr(None),
            Deed::Lock(_) => ReplyValue::Lock(None),
            Deed::LockTest(_) => ReplyValue::LockTest(None),
            Deed::Lookup(_) => ReplyValue::Lookup(None),
            Deed::LookupP => ReplyValue::LookupP(None),
            Deed::Open(_) => ReplyValue::Open(None),
            Deed::OpenConfirm(_) => ReplyValue::OpenConfirm(None),
            Deed::OpenDowngrade(_) => ReplyValue::OpenDowngrade(None),
            Deed::Read(_) => ReplyValue::Read(None),
            Deed::ReadDir(_) => ReplyValue::ReadDir(None),
            Deed::ReleaseLockOwner(_) => ReplyValue::ReleaseLockOwner(false),
            Deed::Remove(_) => ReplyValue::Remove(None),
            Deed::SetAttr(_) => ReplyValue::SetAttr(Items::new(self.alloc)),
            Deed::Unlock(_) => ReplyValue::Unlock(None),
            Deed::Write(_) => ReplyValue::Write(None),
        }
    }

    // The answer to an operation that is refused, whose owner stays.
    fn refused(&self, status: OpStatus, deed: &Deed) -> Turn
        ensures { result ≡ Answered (reply_with status (refused_value deed.now)) }
    {
        Turn::Answered(self.reply(status, self.refused_value(deed)))
    }

    // What an owner's seqid says. There is no owner to judge by where there is no room for one either.
    #[tactic(auto, unfolding(nm_rules::specs::Stateids::owner_stop))]
    fn turn_by(&self, full: bool, owner: &Owner, seqid: u32, call: &Call) -> Result<Turn, Memory>
        ensures { IfOk result (λ turn. turn ≡ turn_by call.now.deed owner.now (owner_stop full (owner_at owner.now self.now.owners) seqid call.now.caller call.now.file call.now.deed)) }
    {
        match self.owners.row_of(owner) {
            None => {
                if full {
                    return Ok(self.refused(OpStatus::Resource, &call.deed));
                }
                Ok(Turn::Of(owner.copy()?))
            }
            Some(row) => match nm_rules::judge(row, seqid, call) {
                Judgement::Unknown => Ok(Turn::Of(owner.copy()?)),
                Judgement::Fresh => Ok(Turn::Of(owner.copy()?)),
                Judgement::Again => Ok(Turn::Answered(row.reply.copy()?)),
                Judgement::Bad => Ok(self.refused(OpStatus::BadSeqid, &call.deed)),
            },
        }
    }

    /// Whether it is the turn of an operation on an open.
    #[tactic(auto, unfolding(crate::specs::Turns::turn_at))]
    pub fn turn_at(&self, row: Option<&OpenRow>, seqid: u32, call: &Call) -> Result<Turn, Memory>
        ensures { IfOk result (λ turn. turn ≡ turn_at self.now (option_copied row.entry) seqid call.now.caller call.now.file call.now.deed) }
    {
        match row {
            None => Ok(self.refused(OpStatus::BadStateId, &call.deed)),
            Some(row) => {
                if !is_own(call.caller, row) {
                    return Ok(self.refused(OpStatus::BadStateId, &call.deed));
                }
                self.turn_by(false, &row.owner, seqid, call)
            }
        }
    }

    /// Whether it is the turn of an operation on the locks of an owner.
    #[tactic(auto, unfolding(crate::specs::Turns::lock_turn_at))]
    pub fn lock_turn_at(
        &self,
        row: Option<&LockRow>,
        seqid: u32,
        call: &Call,
    ) -> Result<Turn, Memory>
        ensures { IfOk result (λ turn. turn ≡ lock_turn_at self.now (option_copied row.entry) seqid call.now.caller call.now.file call.now.deed) }
    {
        match row {
            None => Ok(self.refused(OpStatus::BadStateId, &call.deed)),
            Some(row) => {
                if !is_own_lock(call.caller, row) {
                    return Ok(self.refused(OpStatus::BadStateId, &call.deed));
                }
                self.turn_by(false, &row.owner, seqid, call)
            }
        }
    }

    /// Its turn, unless a lock owner doesn't come as a new one.
    pub fn turn_behind(&self, call: &Call, newcomer: Option<OpStatus>, turn: Turn) -> Turn
        ensures { result ≡ turn_behind call.now.deed newcomer turn }
    {
        match turn {
            Turn::Answered(reply) => Turn::Answered(reply),
            Turn::Of(owner) => match newcomer {
                None => Turn::Of(owner),
                Some(status) => self.refused(status, &call.deed),
            },
        }
    }

    /// How many stateids of lock owners there are, and ranges that they hold.
    pub fn lock_rows(&self) -> usize
        ensures { result ≡ counted (length self.now.locks + ranges_taken self.now.ranges) }
    {
        self.locks.len().saturating_add(taken(&self.ranges))
    }

    // There is no room for one more row.
    fn is_full(&self) -> bool
        ensures { result ≡ nat_le rows_limit (rows_taken self.now) }
    {
        let owners = self.owners.rows().len();
        let opens = self.shares.rows().len();
        ROWS_LIMIT
            <= owners
                .saturating_add(opens)
                .saturating_add(self.closed.len())
                .saturating_add(self.lock_rows())
    }

    /// Whether it is the turn of an OPEN.
    #[tactic(auto, unfolding(crate::specs::Turns::turn_to_open))]
    pub fn turn_to_open(
        &self,
        party: Instance,
        owner: &Owner,
        call: &Call,
        args: &OpenArgs,
    ) -> Result<Turn, Memory>
        requires caller { call.now.caller ≡ Some party }
        requires deed { call.now.deed ≡ OpenDeed args.now }
        requires owner { owner.now ≡ opener party args.now }
        ensures { IfOk result (λ turn. turn ≡ turn_to_open self.now party call.now.file args.now) }
    {
        if let Some(status) = claim_unresolved(&args.claim) {
            return Ok(self.refused(status, &call.deed));
        }
        self.turn_by(self.is_full(), owner, args.seqid, call)
    }

    /// Keeps an owner's operation with its seqid, the reply to it, and the open that it closed.
    #[tactic(auto, unfolding(crate::specs::Turns::after_noting, nm_rules::specs::Seqids::owners_after, nm_rules::specs::Seqids::closed_after))]
    pub fn keep(
        &mut self,
        owner: &Owner,
        seqid: u32,
        call: &Call,
        reply: &Reply,
        closed: Option<OpenRow>,
    ) -> Result<(), Memory>
        ensures { OnOk result (self.new ≡ after_noting (Noted (noted_row (owner_at owner.now self.old.owners) owner.now seqid call.now reply.now) closed) self.old) }
    {
        self.owners.note(owner, seqid, call, reply)?;
        drop_owned(&mut self.closed, owner);
        match closed {
            None => Ok(()),
            Some(row) => Ok(self.closed.push(row)?),
        }
    }

    /// Moves an owner on by an operation whose turn it was, where its status does so.
    #[tactic(auto, unfolding(crate::specs::Turns::note_word, crate::specs::Turns::after_noting, nm_rules::specs::Seqids::owners_after, nm_rules::specs::Seqids::closed_after))]
    pub fn note(
        &mut self,
        owner: &Owner,
        call: &Call,
        reply: &Reply,
        closed: Option<OpenRow>,
    ) -> Result<(), Memory>
        ensures { OnOk result (self.new ≡ after_noting (note_word self.old owner.now call.now reply.now closed) self.old) }
    {
        if !reply.status.advances() {
            return Ok(());
        }
        self.keep(owner, call.deed.seqid(), call, reply, closed)
    }
}
