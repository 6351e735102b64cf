//! CLOSE (RFC 7530, 16.2).
ghost use Rattle.std.specs.Prelude.{◌≡◌, Some, IfOk, IsSome, option_copied, option_map};
ghost use Rattle.nm_rules.specs.Answer.{answer_to};
ghost use Rattle.nm_rules.specs.Checks.{behind_seqid};
ghost use Rattle.nm_rules.specs.LockRows.LockWord.{ClosedWith};
ghost use Rattle.nm_rules.specs.Opens.{changed_stateid, close_checks, locks_stop};
ghost use Rattle.nm_rules.specs.Shares.{open_at, renewed_row};
ghost use Rattle.nm_rules.specs.Shares.OpenWord.{Drop as DropOpen};
ghost use Rattle.nm_rules.specs.Stateids.{open_named};
ghost use Rattle.nm_types.specs.declared.calls.Deed.TheVariants.{Close as CloseDeed};
ghost use Rattle.nm_rules.specs.Seqids.OwnerWord.{Stays};
ghost use Rattle.nm_types.specs.declared.calls.Event.TheVariants.{Asked as AskedEvent};
ghost use Rattle.nm_state.specs.Locking.{after_locks};
ghost use Rattle.nm_state.specs.Opening.{Applied, after_opens};
ghost use Rattle.nm_state.specs.Turns.{Went, reply_behind};

use crate::checks::{lease_refusal, refuse_if};
use crate::lock_rows;
use crate::seqids::Turn;
use crate::tables::Tables;
use nm_shares::seqid_after;
use nm_types::{
    Call, CloseArgs, Memory, OpStatus, OpenRow, Reply, ReplyValue, StateId, StateRef, Verdict,
};

impl Tables {
    // An open whose lock owners hold something isn't closed.
    fn locks_stop(&self, row: Option<&OpenRow>) -> Option<OpStatus>
        ensures { result ≡ locks_stop self.now (option_copied row.entry) }
    {
        match row {
            None => None,
            Some(row) => {
                let idle = lock_rows::are_idle_with(&self.locks, &self.ranges, row.counter);
                refuse_if(!idle, OpStatus::LocksHeld)
            }
        }
    }

    // The first class behind the seqid that refuses a CLOSE.
    #[tactic(auto, unfolding(nm_rules::specs::Opens::close_checks))]
    fn close_stop(&self, call: &Call, args: &CloseArgs, verdict: Verdict) -> Option<OpStatus>
        ensures { result ≡ behind_seqid (close_checks self.now call.now.caller call.now.file args.now verdict) }
    {
        if let Some(status) = lease_refusal(verdict) {
            return Some(status);
        }
        if let Some(status) = self.missing_stop(call.file) {
            return Some(status);
        }
        if let Some(status) = refuse_if(self.is_dir(call.file), OpStatus::IsDir) {
            return Some(status);
        }
        let live = self.live_stop(call.file, args.stateid, 0, self.open_named(args.stateid));
        if let Some(status) = live {
            return Some(status);
        }
        self.locks_stop(self.open_named(args.stateid))
    }

    /// The stateid of a live open with its next seqid, as it is told where it is changed.
    #[tactic(auto, unfolding(nm_rules::specs::Opens::changed_stateid))]
    pub fn changed_stateid(&self, stateid: StateRef) -> StateId
        requires { IsSome (open_named self.now stateid) }
        ensures { changed_stateid self.now stateid ≡ Some result }
    {
        match self.open_named(stateid) {
            Some(row) => StateId {
                seqid: seqid_after(row.seqid),
                fs: self.fs.number(),
                counter: row.counter,
            },
            None => unreachable!(),
        }
    }

    // What a CLOSE whose turn it is is answered.
    fn close_reply(&self, call: &Call, args: &CloseArgs, verdict: Verdict) -> Reply
        ensures { result ≡ reply_behind self.now (record { caller = call.now.caller; file = call.now.file; deed = CloseDeed args.now }) verdict }
    {
        if let Some(status) = self.close_stop(call, args, verdict) {
            return self.reply(status, ReplyValue::Close(None));
        }
        let id = self.changed_stateid(args.stateid);
        self.reply(OpStatus::Nfs4Ok, ReplyValue::Close(Some(id)))
    }

    // A live open as it is closed.
    fn closed_row(&self, counter: u64) -> Result<OpenRow, Memory>
        requires { IsSome (open_at counter self.now.opens) }
        ensures { IfOk result (λ row. Some row ≡ option_map renewed_row (open_at counter self.now.opens)) }
    {
        match self.shares.open_at(counter) {
            Some(row) => {
                let mut closed = row.copy()?;
                closed.seqid = seqid_after(closed.seqid);
                Ok(closed)
            }
            None => unreachable!(),
        }
    }

    // Closes a live open. The stateids of its lock owners go.
    #[tactic(auto, unfolding(crate::specs::Opening::after_opens, crate::specs::Locking::after_locks, nm_rules::specs::LockRows::locks_after, nm_rules::specs::LockRows::ranges_after))]
    fn drop_open(&mut self, counter: u64)
        requires { IsSome (open_at counter self.old.opens) }
        ensures { self.new ≡ after_locks (ClosedWith counter) (after_opens (DropOpen counter) self.old) }
    {
        self.shares.close(counter);
        lock_rows::drop_opened(&mut self.locks, counter);
    }

    // What a CLOSE whose turn it is does: the reply, and the open that it closed.
    fn close_in_turn(
        &mut self,
        call: &Call,
        args: &CloseArgs,
        verdict: Verdict,
    ) -> Result<(Reply, Option<OpenRow>), Memory>
        ensures { IfOk result (λ went. Went self.old (record { caller = call.now.caller; file = call.now.file; deed = CloseDeed args.now }) verdict went.0 went.1 Stays self.new) }
    {
        if let Some(status) = self.close_stop(call, args, verdict) {
            return Ok((self.reply(status, ReplyValue::Close(None)), None));
        }
        let id = self.changed_stateid(args.stateid);
        let row = self.closed_row(id.counter)?;
        self.drop_open(id.counter);
        let reply = self.reply(OpStatus::Nfs4Ok, ReplyValue::Close(Some(id)));
        Ok((reply, Some(row)))
    }

    /// What a CLOSE is answered.
    pub fn close_answer(
        &self,
        call: &Call,
        args: &CloseArgs,
        verdict: Verdict,
    ) -> Result<Reply, Memory>
        requires { call.now.deed ≡ CloseDeed args.now }
        ensures { IfOk result (λ r. r ≡ answer_to self.now (AskedEvent call.now verdict)) }
    {
        match self.turn_at(self.resolved(args.stateid), args.seqid, call)? {
            Turn::Answered(reply) => Ok(reply),
            Turn::Of(_) => Ok(self.close_reply(call, args, verdict)),
        }
    }

    /// Answers a CLOSE, and carries it out where nothing stops it.
    pub fn close(
        &mut self,
        call: &Call,
        args: &CloseArgs,
        verdict: Verdict,
    ) -> Result<Reply, Memory>
        requires { call.now.deed ≡ CloseDeed args.now }
        ensures { IfOk result (λ r. Applied self.old (AskedEvent call.now verdict) r self.new) }
    {
        match self.turn_at(self.resolved(args.stateid), args.seqid, call)? {
            Turn::Answered(reply) => Ok(reply),
            Turn::Of(owner) => {
                let (reply, closed) = self.close_in_turn(call, args, verdict)?;
                self.note(&owner, call, &reply, closed)?;
                Ok(reply)
            }
        }
    }
}
