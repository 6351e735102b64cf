//! LOCK (RFC 7530, 16.10).
ghost use Rattle.std.specs.Prelude.{◌≡◌, ◌≤◌, ◌+◌, false, None, Some, IfOk, IsSome, OnOk, length, option_map};
ghost use Rattle.nm_rules.specs.Answer.{answer_to, reply_with};
ghost use Rattle.nm_rules.specs.LockAsks.{is_no_range};
ghost use Rattle.nm_rules.specs.LockOps.{changed_lock, denied_told, in_the_way, rows_stop};
ghost use Rattle.nm_rules.specs.LockRows.{ranges_on};
ghost use Rattle.nm_rules.specs.LockRows.LockWord.{Claimed};
ghost use Rattle.nm_rules.specs.Locks.{barrier};
ghost use Rattle.nm_rules.specs.Stateids.{lock_named};
ghost use Rattle.nm_types.specs.declared.calls.Deed.TheVariants.{Lock as LockDeed};
ghost use Rattle.nm_types.specs.declared.calls.Event.TheVariants.{Asked as AskedEvent};
ghost use Rattle.nm_types.specs.declared.calls.ReplyValue.TheVariants.{Lock as LockValue};
ghost use Rattle.nm_types.specs.declared.results.LockOutcome.TheVariants.{Denied as DeniedOutcome};
ghost use Rattle.nm_types.specs.declared.status.OpStatus.TheVariants.{Denied as DeniedStatus};
ghost use Rattle.nm_state.specs.Locking.{after_locks, refused_lock};
ghost use Rattle.nm_state.specs.Opening.{Applied};
ghost use Rattle.nm_state.specs.Taken.{counted};

use crate::checks::refuse_if;
use crate::file_ranges::{self, conflict};
use crate::lock_asks::{Newcomer, asked, last_told, lock_owner};
use crate::lock_rows;
use crate::seqids::ROWS_LIMIT;
use crate::tables::Tables;
use nm_shares::seqid_after;
use nm_types::{
    Call, Denied, Held, LockArgs, LockOutcome, LockRange, LockRow, LockType, Locker, Memory,
    OpStatus, Reply, ReplyValue, StateId, StateRef, Verdict,
};

/// More rows than there may be.
#[tactic(auto, using(crate::proofs::RangeLemmas::counted_past))]
pub fn rows_stop(rows: usize) -> Option<OpStatus>
    ensures { result ≡ rows_stop rows }
{
    refuse_if(ROWS_LIMIT < rows, OpStatus::Resource)
}

// What a LOCK tells that is denied.
fn denial(denied: Option<Denied>) -> Option<LockOutcome>
    ensures { result ≡ option_map DeniedOutcome denied }
{
    match denied {
        None => None,
        Some(denied) => Some(LockOutcome::Denied(denied)),
    }
}

impl Tables {
    /// What is in the way of a lock of the stateid with this counter.
    #[tactic(auto, unfolding(nm_rules::specs::LockOps::in_the_way))]
    pub fn in_the_way(
        &self,
        counter: u64,
        file: u64,
        kind: LockType,
        offset: u64,
        length: u64,
    ) -> Option<Held>
        requires { is_no_range offset length ≡ false }
        ensures { result ≡ in_the_way self.now counter file kind offset length }
    {
        conflict(&self.ranges, file, &asked(counter, kind, offset, length))
    }

    /// What a refusal with DENIED tells of what is in the way.
    #[tactic(auto, unfolding(nm_rules::specs::LockOps::denied_told))]
    pub fn denied(&self, held: Held) -> Result<Option<Denied>, Memory>
        ensures { IfOk result (λ denied. denied ≡ denied_told self.now.locks (Some held)) }
    {
        match lock_rows::find_at(&self.locks, held.owner) {
            None => Ok(None),
            Some(row) => Ok(Some(Denied {
                range: LockRange {
                    kind: held.kind,
                    first: held.first,
                    last: last_told(held.first, held.last),
                },
                owner: row.owner.text.copy()?,
                instance: Some(row.owner.instance),
            })),
        }
    }

    /// The reply to a LOCK that is denied.
    pub fn lock_denied(&self, held: Held) -> Result<Reply, Memory>
        ensures { IfOk result (λ r. r ≡ reply_with DeniedStatus (LockValue (option_map DeniedOutcome (denied_told self.now.locks (Some held))))) }
    {
        let denied = self.denied(held)?;
        Ok(self.reply(OpStatus::Denied, ReplyValue::Lock(denial(denied))))
    }

    /// The reply to a LOCK that a limit refuses.
    pub fn limit_refusal(&self, limit: Option<OpStatus>) -> Option<Reply>
        ensures { result ≡ refused_lock self.now None None limit }
    {
        match limit {
            None => None,
            Some(status) => Some(self.reply(status, ReplyValue::Lock(None))),
        }
    }

    // The rows but those of locks.
    fn other_rows(&self) -> usize
        ensures { result ≡ counted (length self.now.owners + length self.now.opens + length self.now.closed) }
    {
        self.owners
            .rows()
            .len()
            .saturating_add(self.shares.rows().len())
            .saturating_add(self.closed.len())
    }

    /// The rows that an operation on the locks of an owner leaves, with so many ranges.
    pub fn rows_with_known(&self, taken: usize) -> usize
        ensures { result ≡ counted (length self.now.owners + length self.now.opens + length self.now.closed + (length self.now.locks + 0 + taken)) }
    {
        self.other_rows()
            .saturating_add(self.locks.len())
            .saturating_add(taken)
    }

    /// A stateid takes a range. Nothing may be in its way.
    #[tactic(auto, unfolding(crate::specs::Locking::after_locks, nm_rules::specs::LockRows::locks_after, nm_rules::specs::LockRows::ranges_after))]
    pub fn claim(&mut self, row: LockRow, range: &Held) -> Result<(), Memory>
        requires owner { range.now.owner ≡ row.counter }
        requires order { range.now.first ≤ range.now.last }
        requires free { barrier range.now.owner range.now.kind range.now.first range.now.last (ranges_on row.file self.old.ranges) ≡ None }
        ensures { OnOk result (self.new ≡ after_locks (Claimed row range.now.kind range.now.first range.now.last) self.old) }
    {
        file_ranges::claim(&mut self.ranges, row.file, range)?;
        Ok(lock_rows::put(&mut self.locks, row)?)
    }

    /// The stateid of a lock owner with its next seqid, as it is told where it is changed.
    #[tactic(auto, unfolding(nm_rules::specs::LockOps::changed_lock))]
    pub fn changed_lock(&self, stateid: StateRef) -> StateId
        requires { IsSome (lock_named self.now stateid) }
        ensures { changed_lock self.now stateid ≡ Some result }
    {
        match self.lock_named(stateid) {
            Some(row) => StateId {
                seqid: seqid_after(row.seqid),
                fs: self.fs.number(),
                counter: row.counter,
            },
            None => unreachable!(),
        }
    }

    /// What a LOCK is answered.
    pub fn lock_answer(
        &self,
        call: &Call,
        args: &LockArgs,
        verdict: Verdict,
    ) -> Result<Reply, Memory>
        requires { call.now.deed ≡ LockDeed args.now }
        ensures { IfOk result (λ r. r ≡ answer_to self.now (AskedEvent call.now verdict)) }
    {
        match &args.locker {
            Locker::New {
                open_seqid,
                stateid,
                lock_seqid,
                owner,
            } => {
                let Some(party) = call.caller else {
                    return Ok(self.reply(OpStatus::BadStateId, ReplyValue::Lock(None)));
                };
                let new = Newcomer {
                    open_seqid: *open_seqid,
                    stateid: *stateid,
                    lock_seqid: *lock_seqid,
                    owner: lock_owner(party, owner)?,
                };
                Ok(self.new_answer(call, args, &new, verdict)?)
            }
            Locker::Known {
                stateid,
                lock_seqid,
            } => Ok(self.known_answer(call, args, *stateid, *lock_seqid, verdict)?),
        }
    }

    /// Answers a LOCK, and carries it out where nothing stops it.
    pub fn lock(&mut self, call: &Call, args: &LockArgs, verdict: Verdict) -> Result<Reply, Memory>
        requires { call.now.deed ≡ LockDeed args.now }
        ensures { IfOk result (λ r. Applied self.old (AskedEvent call.now verdict) r self.new) }
    {
        match &args.locker {
            Locker::New {
                open_seqid,
                stateid,
                lock_seqid,
                owner,
            } => {
                let Some(party) = call.caller else {
                    return Ok(self.reply(OpStatus::BadStateId, ReplyValue::Lock(None)));
                };
                let new = Newcomer {
                    open_seqid: *open_seqid,
                    stateid: *stateid,
                    lock_seqid: *lock_seqid,
                    owner: lock_owner(party, owner)?,
                };
                Ok(self.lock_new(call, args, &new, verdict)?)
            }
            Locker::Known {
                stateid,
                lock_seqid,
            } => Ok(self.lock_known(call, args, *stateid, *lock_seqid, verdict)?),
        }
    }
}
