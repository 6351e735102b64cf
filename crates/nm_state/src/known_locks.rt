//! LOCK of an owner that has a stateid on the file (RFC 7530, 16.10).
ghost use Rattle.std.specs.Prelude.{◌≡◌, false, None, IfOk, IsSome, OnOk, option_copied, option_map};
ghost use Rattle.nm_rules.specs.Answer.{answer_to};
ghost use Rattle.nm_rules.specs.LockAsks.{counter_of, is_no_range, kind_of, last_of};
ghost use Rattle.nm_rules.specs.LockOps.{in_the_way, ranges_with, rows_stop, rows_with_known};
ghost use Rattle.nm_rules.specs.LockRows.{claim_if, lock_at, renewed_lock};
ghost use Rattle.nm_rules.specs.Seqids.OwnerWord.{Stays};
ghost use Rattle.nm_types.specs.declared.calls.Event.TheVariants.{Asked as AskedEvent};
ghost use Rattle.nm_state.specs.Locking.{IsOn, after_locks, known_front, refused_lock};
ghost use Rattle.nm_state.specs.Opening.{Applied};
ghost use Rattle.nm_state.specs.Turns.{Locks, Went, reply_behind};

use crate::checks::{lease_refusal, refuse_if};
use crate::file_ranges::taken_with_set;
use crate::lock_asks::{access_for, asked, counter_of, kind_of, lock_fault};
use crate::lock_rows;
use crate::locks::rows_stop;
use crate::seqids::Turn;
use crate::tables::Tables;
use nm_types::{
    Call, LockArgs, LockOutcome, Memory, OpStatus, Reply, ReplyValue, StateRef, Verdict,
};

impl Tables {
    // The first class behind the seqid and before the conflict that refuses it.
    #[tactic(auto, unfolding(crate::specs::Locking::known_front))]
    fn known_front(
        &self,
        file: u64,
        args: &LockArgs,
        stateid: StateRef,
        verdict: Verdict,
    ) -> Option<OpStatus>
        ensures { result ≡ known_front self.now file args.now stateid verdict }
    {
        if let Some(status) = lease_refusal(verdict) {
            return Some(status);
        }
        if let Some(status) = self.missing_stop(file) {
            return Some(status);
        }
        if let Some(status) = refuse_if(self.is_dir(file), OpStatus::IsDir) {
            return Some(status);
        }
        if let Some(status) = lock_fault(args) {
            return Some(status);
        }
        let access = access_for(kind_of(args.kind));
        self.lock_live_stop(file, stateid, access, self.lock_named(stateid))
    }

    // The rows that it leaves.
    #[tactic(auto, using(crate::proofs::RangeLemmas::counted_past), unfolding(nm_rules::specs::LockOps::ranges_with))]
    fn known_limit(&self, file: u64, args: &LockArgs, counter: u64) -> Option<OpStatus>
        requires { is_no_range args.now.offset args.now.length ≡ false }
        ensures { result ≡ rows_stop (rows_with_known self.now file (ranges_with self.now counter file args.now.kind args.now.offset args.now.length)) }
    {
        let range = asked(counter, args.kind, args.offset, args.length);
        let taken = taken_with_set(&self.ranges, file, &range);
        rows_stop(self.rows_with_known(taken))
    }

    // What refuses it, once it is its turn.
    #[tactic(auto, using(crate::proofs::LockLemmas::known_range))]
    fn known_refusal(
        &self,
        file: u64,
        args: &LockArgs,
        stateid: StateRef,
        verdict: Verdict,
    ) -> Result<Option<Reply>, Memory>
        ensures { IfOk result (λ r. r ≡ refused_lock self.now (known_front self.now file args.now stateid verdict) (in_the_way self.now (counter_of stateid) file args.now.kind args.now.offset args.now.length) (rows_stop (rows_with_known self.now file (ranges_with self.now (counter_of stateid) file args.now.kind args.now.offset args.now.length)))) }
    {
        if let Some(status) = self.known_front(file, args, stateid, verdict) {
            return Ok(Some(self.reply(status, ReplyValue::Lock(None))));
        }
        let counter = counter_of(stateid);
        if let Some(held) = self.in_the_way(counter, file, args.kind, args.offset, args.length) {
            return Ok(Some(self.lock_denied(held)?));
        }
        Ok(self.limit_refusal(self.known_limit(file, args, counter)))
    }

    // Gives a stateid that is there its range.
    #[tactic(auto, unfolding(nm_rules::specs::LockOps::in_the_way))]
    fn give_known(&mut self, counter: u64, file: u64, args: &LockArgs) -> Result<(), Memory>
        requires live { IsOn file (lock_at counter self.old.locks) }
        requires range { is_no_range args.now.offset args.now.length ≡ false }
        requires free { in_the_way self.old counter file args.now.kind args.now.offset args.now.length ≡ None }
        ensures { OnOk result (self.new ≡ after_locks (claim_if (option_map renewed_lock (lock_at counter self.old.locks)) (kind_of args.now.kind) args.now.offset (last_of args.now.offset args.now.length)) self.old) }
    {
        match lock_rows::find_at(&self.locks, counter) {
            Some(row) => {
                let row = lock_rows::renewed(row)?;
                let range = asked(row.counter, args.kind, args.offset, args.length);
                Ok(self.claim(row, &range)?)
            }
            None => unreachable!(),
        }
    }

    // What it is answered, whose turn it is.
    fn known_reply(
        &self,
        call: &Call,
        args: &LockArgs,
        stateid: StateRef,
        lock_seqid: u32,
        verdict: Verdict,
    ) -> Result<Reply, Memory>
        requires { Locks call.now args.now stateid lock_seqid }
        ensures { IfOk result (λ r. r ≡ reply_behind self.now call.now verdict) }
    {
        let _ = lock_seqid;
        match self.known_refusal(call.file, args, stateid, verdict)? {
            Some(reply) => Ok(reply),
            None => {
                let told = LockOutcome::Locked(self.changed_lock(stateid));
                Ok(self.reply(OpStatus::Nfs4Ok, ReplyValue::Lock(Some(told))))
            }
        }
    }

    // What it does, whose turn it is.
    fn known_in_turn(
        &mut self,
        call: &Call,
        args: &LockArgs,
        stateid: StateRef,
        lock_seqid: u32,
        verdict: Verdict,
    ) -> Result<Reply, Memory>
        requires { Locks call.now args.now stateid lock_seqid }
        ensures { IfOk result (λ r. Went self.old call.now verdict r None Stays self.new) }
    {
        let _ = lock_seqid;
        match self.known_refusal(call.file, args, stateid, verdict)? {
            Some(reply) => Ok(reply),
            None => {
                let id = self.changed_lock(stateid);
                self.give_known(id.counter, call.file, args)?;
                let told = LockOutcome::Locked(id);
                Ok(self.reply(OpStatus::Nfs4Ok, ReplyValue::Lock(Some(told))))
            }
        }
    }

    /// What it is answered.
    pub fn known_answer(
        &self,
        call: &Call,
        args: &LockArgs,
        stateid: StateRef,
        lock_seqid: u32,
        verdict: Verdict,
    ) -> Result<Reply, Memory>
        requires { Locks call.now args.now stateid lock_seqid }
        ensures { IfOk result (λ r. r ≡ answer_to self.now (AskedEvent call.now verdict)) }
    {
        match self.lock_turn_at(self.lock_named(stateid), lock_seqid, call)? {
            Turn::Answered(reply) => Ok(reply),
            Turn::Of(_) => Ok(self.known_reply(call, args, stateid, lock_seqid, verdict)?),
        }
    }

    /// Answers it, and carries it out where nothing stops it.
    pub fn lock_known(
        &mut self,
        call: &Call,
        args: &LockArgs,
        stateid: StateRef,
        lock_seqid: u32,
        verdict: Verdict,
    ) -> Result<Reply, Memory>
        requires { Locks call.now args.now stateid lock_seqid }
        ensures { IfOk result (λ r. Applied self.old (AskedEvent call.now verdict) r self.new) }
    {
        match self.lock_turn_at(self.lock_named(stateid), lock_seqid, call)? {
            Turn::Answered(reply) => Ok(reply),
            Turn::Of(owner) => {
                let reply = self.known_in_turn(call, args, stateid, lock_seqid, verdict)?;
                self.note(&owner, call, &reply, None)?;
                Ok(reply)
            }
        }
    }
}
