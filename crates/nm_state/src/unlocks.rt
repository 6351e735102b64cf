//! LOCKU (RFC 7530, 16.12).
ghost use Rattle.std.specs.Prelude.{◌≡◌, ◌≤◌, false, None, IfOk, IsSome, OnOk, option_map};
ghost use Rattle.nm_rules.specs.Answer.{answer_to};
ghost use Rattle.nm_rules.specs.Checks.{behind_seqid};
ghost use Rattle.nm_rules.specs.LockAsks.{counter_of, is_no_range, last_of};
ghost use Rattle.nm_rules.specs.LockOps.{ranges_without, rows_stop, rows_with_known, unlock_checks};
ghost use Rattle.nm_rules.specs.LockRows.{clear_if, lock_at, renewed_lock};
ghost use Rattle.nm_rules.specs.LockRows.LockWord.{Cleared};
ghost use Rattle.nm_rules.specs.Seqids.OwnerWord.{Stays};
ghost use Rattle.nm_types.specs.declared.calls.Deed.TheVariants.{Unlock as UnlockDeed};
ghost use Rattle.nm_types.specs.declared.calls.Event.TheVariants.{Asked as AskedEvent};
ghost use Rattle.nm_state.specs.Locking.{IsOn, after_locks};
ghost use Rattle.nm_state.specs.Opening.{Applied};
ghost use Rattle.nm_state.specs.Turns.{Went, reply_behind};

use crate::checks::{lease_refusal, refuse_if};
use crate::file_ranges::{self, taken_with_clear};
use crate::lock_asks::{counter_of, last_of, range_stop};
use crate::lock_rows;
use crate::locks::rows_stop;
use crate::seqids::Turn;
use crate::tables::Tables;
use nm_types::{Call, LockRow, Memory, OpStatus, Reply, ReplyValue, UnlockArgs, Verdict};

impl Tables {
    // The rows that it leaves.
    #[tactic(auto, using(crate::proofs::RangeLemmas::counted_past), unfolding(nm_rules::specs::LockOps::ranges_without))]
    fn unlock_limit(&self, file: u64, args: &UnlockArgs) -> Option<OpStatus>
        requires { is_no_range args.now.offset args.now.length ≡ false }
        ensures { result ≡ rows_stop (rows_with_known self.now file (ranges_without self.now (counter_of args.now.stateid) file args.now.offset args.now.length)) }
    {
        let last = last_of(args.offset, args.length);
        let counter = counter_of(args.stateid);
        let taken = taken_with_clear(&self.ranges, file, counter, args.offset, last);
        rows_stop(self.rows_with_known(taken))
    }

    // The first class behind the seqid that refuses it.
    #[tactic(auto, using(crate::proofs::LockLemmas::range_is), unfolding(nm_rules::specs::LockOps::unlock_checks))]
    fn unlock_stop(&self, call: &Call, args: &UnlockArgs, verdict: Verdict) -> Option<OpStatus>
        ensures { result ≡ behind_seqid (unlock_checks self.now call.now.caller call.now.file args.now verdict) }
    {
        if let Some(status) = lease_refusal(verdict) {
            return Some(status);
        }
        if let Some(status) = self.missing_stop(call.file) {
            return Some(status);
        }
        if let Some(status) = refuse_if(self.is_dir(call.file), OpStatus::IsDir) {
            return Some(status);
        }
        if let Some(status) = range_stop(args.offset, args.length) {
            return Some(status);
        }
        let lock = self.lock_named(args.stateid);
        if let Some(status) = self.lock_live_stop(call.file, args.stateid, 0, lock) {
            return Some(status);
        }
        self.unlock_limit(call.file, args)
    }

    // A stateid gives up a range.
    #[tactic(auto, unfolding(crate::specs::Locking::after_locks, nm_rules::specs::LockRows::locks_after, nm_rules::specs::LockRows::ranges_after))]
    fn clear(&mut self, row: LockRow, first: u64, last: u64) -> Result<(), Memory>
        requires { first ≤ last }
        ensures { OnOk result (self.new ≡ after_locks (Cleared row first last) self.old) }
    {
        file_ranges::clear(&mut self.ranges, row.file, row.counter, first, last)?;
        Ok(lock_rows::put(&mut self.locks, row)?)
    }

    // Takes its range from a stateid that is there.
    fn take_range(&mut self, counter: u64, args: &UnlockArgs) -> Result<(), Memory>
        requires live { IsSome (lock_at counter self.old.locks) }
        requires range { is_no_range args.now.offset args.now.length ≡ false }
        ensures { OnOk result (self.new ≡ after_locks (clear_if (option_map renewed_lock (lock_at counter self.old.locks)) args.now.offset (last_of args.now.offset args.now.length)) self.old) }
    {
        match lock_rows::find_at(&self.locks, counter) {
            Some(row) => {
                let row = lock_rows::renewed(row)?;
                let last = last_of(args.offset, args.length);
                Ok(self.clear(row, args.offset, last)?)
            }
            None => unreachable!(),
        }
    }

    // What it is answered, whose turn it is.
    fn unlock_reply(&self, call: &Call, args: &UnlockArgs, verdict: Verdict) -> Reply
        ensures { result ≡ reply_behind self.now (record { caller = call.now.caller; file = call.now.file; deed = UnlockDeed args.now }) verdict }
    {
        if let Some(status) = self.unlock_stop(call, args, verdict) {
            return self.reply(status, ReplyValue::Unlock(None));
        }
        let id = self.changed_lock(args.stateid);
        self.reply(OpStatus::Nfs4Ok, ReplyValue::Unlock(Some(id)))
    }

    // What it does, whose turn it is.
    fn unlock_in_turn(
        &mut self,
        call: &Call,
        args: &UnlockArgs,
        verdict: Verdict,
    ) -> Result<Reply, Memory>
        ensures { IfOk result (λ r. Went self.old (record { caller = call.now.caller; file = call.now.file; deed = UnlockDeed args.now }) verdict r None Stays self.new) }
    {
        if let Some(status) = self.unlock_stop(call, args, verdict) {
            return Ok(self.reply(status, ReplyValue::Unlock(None)));
        }
        let id = self.changed_lock(args.stateid);
        self.take_range(id.counter, args)?;
        Ok(self.reply(OpStatus::Nfs4Ok, ReplyValue::Unlock(Some(id))))
    }

    /// What a LOCKU is answered.
    pub fn unlock_answer(
        &self,
        call: &Call,
        args: &UnlockArgs,
        verdict: Verdict,
    ) -> Result<Reply, Memory>
        requires { call.now.deed ≡ UnlockDeed args.now }
        ensures { IfOk result (λ r. r ≡ answer_to self.now (AskedEvent call.now verdict)) }
    {
        match self.lock_turn_at(self.lock_named(args.stateid), args.seqid, call)? {
            Turn::Answered(reply) => Ok(reply),
            Turn::Of(_) => Ok(self.unlock_reply(call, args, verdict)),
        }
    }

    /// Answers a LOCKU, and carries it out where nothing stops it.
    pub fn unlock(
        &mut self,
        call: &Call,
        args: &UnlockArgs,
        verdict: Verdict,
    ) -> Result<Reply, Memory>
        requires { call.now.deed ≡ UnlockDeed args.now }
        ensures { IfOk result (λ r. Applied self.old (AskedEvent call.now verdict) r self.new) }
    {
        match self.lock_turn_at(self.lock_named(args.stateid), args.seqid, call)? {
            Turn::Answered(reply) => Ok(reply),
            Turn::Of(owner) => {
                let reply = self.unlock_in_turn(call, args, verdict)?;
                self.note(&owner, call, &reply, None)?;
                Ok(reply)
            }
        }
    }
}
