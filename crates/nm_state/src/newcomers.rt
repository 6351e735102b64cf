//! LOCK of an owner that has no stateid on the file yet (RFC 7530, 16.10).
ghost use Rattle.std.specs.Prelude.{◌≡◌, ◌<◌, ◌+◌, ◌^◌, false, None, Some, IfOk, OnOk, is_none, length, option_copied};
ghost use Rattle.nm_rules.specs.Answer.{answer_to};
ghost use Rattle.nm_rules.specs.LockAsks.{is_no_range, lock_owner};
ghost use Rattle.nm_rules.specs.LockOps.{closed_without, in_the_way, is_out_of_turn, new_limit, newcomer_stop, rows_with_new};
ghost use Rattle.nm_rules.specs.Seqids.{owner_at};
ghost use Rattle.nm_rules.specs.Stateids.{open_named};
ghost use Rattle.nm_types.specs.declared.calls.Event.TheVariants.{Asked as AskedEvent};
ghost use Rattle.nm_state.specs.Locking.{after_drawing, after_new_lock, new_front, refused_lock};
ghost use Rattle.nm_state.specs.Opening.{Applied};
ghost use Rattle.nm_state.specs.Taken.{counted};
ghost use Rattle.nm_state.specs.Turns.{Comes, Went, after_noting, reply_behind, start_word, turn_to_lock};

use crate::checks::{LAST, lease_refusal, refuse_if};
use crate::closed::count_others;
use crate::file_ranges::taken_with_set;
use crate::lock_asks::{Newcomer, access_for, asked, counter_of, kind_of, lock_fault};
use crate::lock_rows;
use crate::locks::rows_stop;
use crate::seqids::Turn;
use crate::tables::Tables;
use nm_shares::seqid_after;
use nm_types::{
    Call, LockArgs, LockOutcome, LockRow, Memory, OpStatus, OpenRow, Owner, Reply, ReplyValue,
    StateId, StateRef, Verdict,
};

impl Tables {
    // How many closed opens an operation on an open leaves.
    fn closed_left(&self, opened: Option<&OpenRow>) -> usize
        ensures { result ≡ length (closed_without (option_copied opened.entry) self.now.closed) }
    {
        match opened {
            None => self.closed.len(),
            Some(row) => count_others(&self.closed, &row.owner),
        }
    }

    // The first class behind the seqid and before the conflict that refuses it.
    #[tactic(auto, unfolding(crate::specs::Locking::new_front))]
    fn new_front(
        &self,
        file: u64,
        args: &LockArgs,
        stateid: StateRef,
        verdict: Verdict,
    ) -> Option<OpStatus>
        ensures { result ≡ new_front self.now file args.now stateid verdict }
    {
        if let Some(status) = lease_refusal(verdict) {
            return Some(status);
        }
        if let Some(status) = self.missing_stop(file) {
            return Some(status);
        }
        if let Some(status) = refuse_if(self.is_dir(file), OpStatus::IsDir) {
            return Some(status);
        }
        if let Some(status) = lock_fault(args) {
            return Some(status);
        }
        let access = access_for(kind_of(args.kind));
        self.live_stop(file, stateid, access, self.open_named(stateid))
    }

    // The rows that an OK leaves.
    #[tactic(auto, unfolding(nm_rules::specs::LockOps::ranges_with))]
    fn rows_with_new(&self, file: u64, args: &LockArgs, new: &Newcomer) -> usize
        requires { is_no_range args.now.offset args.now.length ≡ false }
        ensures { result ≡ counted (rows_with_new self.now (open_named self.now new.now.stateid) new.now.owner file args.now) }
    {
        let range = asked(self.shares.last() + 1, args.kind, args.offset, args.length);
        let is_new = if self.owners.row_of(&new.owner).is_none() {
            1
        } else {
            0
        };
        self.owners
            .rows()
            .len()
            .saturating_add(is_new)
            .saturating_add(self.shares.rows().len())
            .saturating_add(self.closed_left(self.open_named(new.stateid)))
            .saturating_add(self.locks.len())
            .saturating_add(1)
            .saturating_add(taken_with_set(&self.ranges, file, &range))
    }

    // The counter that it draws, and the rows that it leaves.
    #[tactic(auto, using(crate::proofs::RangeLemmas::counted_past), unfolding(nm_rules::specs::LockOps::new_limit))]
    fn new_limit(&self, file: u64, args: &LockArgs, new: &Newcomer) -> Option<OpStatus>
        requires { is_no_range args.now.offset args.now.length ≡ false }
        ensures { result ≡ new_limit self.now (open_named self.now new.now.stateid) new.now.owner file args.now }
    {
        refuse_if(LAST <= self.shares.last(), OpStatus::Resource).or(rows_stop(self.rows_with_new(
            file, args, new,
        )))
    }

    // What refuses it, once it is its turn.
    #[tactic(auto, using(crate::proofs::LockLemmas::new_range))]
    fn new_refusal(
        &self,
        file: u64,
        args: &LockArgs,
        new: &Newcomer,
        verdict: Verdict,
    ) -> Result<Option<Reply>, Memory>
        ensures { IfOk result (λ r. r ≡ refused_lock self.now (new_front self.now file args.now new.now.stateid verdict) (in_the_way self.now (self.now.last + 1) file args.now.kind args.now.offset args.now.length) (new_limit self.now (open_named self.now new.now.stateid) new.now.owner file args.now)) }
    {
        if let Some(status) = self.new_front(file, args, new.stateid, verdict) {
            return Ok(Some(self.reply(status, ReplyValue::Lock(None))));
        }
        let counter = self.shares.last() + 1;
        if let Some(held) = self.in_the_way(counter, file, args.kind, args.offset, args.length) {
            return Ok(Some(self.lock_denied(held)?));
        }
        Ok(self.limit_refusal(self.new_limit(file, args, new)))
    }

    // The stateid that it gets.
    fn new_stateid(&self) -> StateId
        ensures { result ≡ record { seqid = 1; fs = self.now.fs; counter = self.now.last + 1 } }
    {
        StateId {
            seqid: 1,
            fs: self.fs.number(),
            counter: self.shares.last() + 1,
        }
    }

    // A counter is drawn.
    #[tactic(auto, unfolding(crate::specs::Locking::after_drawing))]
    fn draw(&mut self)
        requires { self.old.last < 2 ^ 63 }
        ensures { self.new ≡ after_drawing self.old }
    {
        self.shares.draw();
    }

    // Gives a lock owner its stateid and its range.
    #[tactic(auto, unfolding(crate::specs::Locking::after_new_lock, nm_rules::specs::LockOps::in_the_way))]
    fn give_new(&mut self, file: u64, args: &LockArgs, new: &Newcomer) -> Result<(), Memory>
        requires range { is_no_range args.now.offset args.now.length ≡ false }
        requires free { in_the_way self.old (self.old.last + 1) file args.now.kind args.now.offset args.now.length ≡ None }
        requires room { self.old.last < 2 ^ 63 }
        ensures { OnOk result (self.new ≡ after_new_lock self.old file args.now new.now) }
    {
        let counter = self.shares.last() + 1;
        let row = LockRow {
            counter,
            seqid: 1,
            owner: new.owner.copy()?,
            opened: counter_of(new.stateid),
            file,
        };
        let range = asked(counter, args.kind, args.offset, args.length);
        self.claim(row, &range)?;
        self.draw();
        Ok(())
    }

    // What it is answered, whose turn it is.
    fn new_reply(
        &self,
        call: &Call,
        args: &LockArgs,
        new: &Newcomer,
        verdict: Verdict,
    ) -> Result<Reply, Memory>
        requires { Comes call.now args.now new.now }
        ensures { IfOk result (λ r. r ≡ reply_behind self.now call.now verdict) }
    {
        match self.new_refusal(call.file, args, new, verdict)? {
            Some(reply) => Ok(reply),
            None => {
                let told = LockOutcome::Locked(self.new_stateid());
                Ok(self.reply(OpStatus::Nfs4Ok, ReplyValue::Lock(Some(told))))
            }
        }
    }

    // What it does, whose turn it is: the reply, and whether the lock owner starts.
    fn new_in_turn(
        &mut self,
        call: &Call,
        args: &LockArgs,
        new: &Newcomer,
        verdict: Verdict,
    ) -> Result<(Reply, bool), Memory>
        requires { Comes call.now args.now new.now }
        ensures { IfOk result (λ went. Went self.old call.now verdict went.0 None (start_word went.1 self.old new.now.owner new.now.lock_seqid call.now went.0) self.new) }
    {
        match self.new_refusal(call.file, args, new, verdict)? {
            Some(reply) => Ok((reply, false)),
            None => {
                let told = LockOutcome::Locked(self.new_stateid());
                self.give_new(call.file, args, new)?;
                let reply = self.reply(OpStatus::Nfs4Ok, ReplyValue::Lock(Some(told)));
                Ok((reply, true))
            }
        }
    }

    // An owner that has a stateid on the file, or is known with another next seqid, doesn't come as a new one.
    #[tactic(auto, unfolding(nm_rules::specs::LockOps::newcomer_stop))]
    fn newcomer_stop(&self, owner: &Owner, file: u64, seqid: u32) -> Option<OpStatus>
        ensures { result ≡ newcomer_stop self.now owner.now file seqid }
    {
        let has_one = lock_rows::find_of(&self.locks, owner, file).is_some();
        let out_of_turn = self.is_out_of_turn(owner, seqid);
        refuse_if(has_one || out_of_turn, OpStatus::BadSeqid)
    }

    // The owner is known, and this isn't its next seqid.
    #[tactic(auto, unfolding(nm_rules::specs::LockOps::is_out_of_turn))]
    fn is_out_of_turn(&self, owner: &Owner, seqid: u32) -> bool
        ensures { result ≡ is_out_of_turn (owner_at owner.now self.now.owners) seqid }
    {
        match self.owners.row_of(owner) {
            None => false,
            Some(row) => seqid != seqid_after(row.seqid),
        }
    }

    // Whether it is its turn.
    #[tactic(auto, unfolding(crate::specs::Turns::turn_to_lock))]
    fn turn_to_lock(&self, call: &Call, args: &LockArgs, new: &Newcomer) -> Result<Turn, Memory>
        requires { Comes call.now args.now new.now }
        ensures { IfOk result (λ turn. turn ≡ turn_to_lock self.now new.now.owner.instance call.now.file args.now new.now) }
    {
        let _ = args;
        let turn = self.turn_at(self.resolved(new.stateid), new.open_seqid, call)?;
        let newcomer = self.newcomer_stop(&new.owner, call.file, new.lock_seqid);
        Ok(self.turn_behind(call, newcomer, turn))
    }

    /// What it is answered.
    pub fn new_answer(
        &self,
        call: &Call,
        args: &LockArgs,
        new: &Newcomer,
        verdict: Verdict,
    ) -> Result<Reply, Memory>
        requires { Comes call.now args.now new.now }
        ensures { IfOk result (λ r. r ≡ answer_to self.now (AskedEvent call.now verdict)) }
    {
        match self.turn_to_lock(call, args, new)? {
            Turn::Answered(reply) => Ok(reply),
            Turn::Of(_) => Ok(self.new_reply(call, args, new, verdict)?),
        }
    }

    // Starts a lock owner, where its LOCK was carried out.
    #[tactic(auto, unfolding(crate::specs::Turns::after_noting, nm_rules::specs::Seqids::owners_after, nm_rules::specs::Seqids::closed_after))]
    fn start(
        &mut self,
        starts: bool,
        new: &Newcomer,
        call: &Call,
        reply: &Reply,
    ) -> Result<(), Memory>
        ensures { OnOk result (self.new ≡ after_noting (start_word starts self.old new.now.owner new.now.lock_seqid call.now reply.now) self.old) }
    {
        if !starts {
            return Ok(());
        }
        self.keep(&new.owner, new.lock_seqid, call, reply, None)
    }

    /// Answers it, and carries it out where nothing stops it.
    pub fn lock_new(
        &mut self,
        call: &Call,
        args: &LockArgs,
        new: &Newcomer,
        verdict: Verdict,
    ) -> Result<Reply, Memory>
        requires { Comes call.now args.now new.now }
        ensures { IfOk result (λ r. Applied self.old (AskedEvent call.now verdict) r self.new) }
    {
        match self.turn_to_lock(call, args, new)? {
            Turn::Answered(reply) => Ok(reply),
            Turn::Of(owner) => {
                let (reply, starts) = self.new_in_turn(call, args, new, verdict)?;
                self.note(&owner, call, &reply, None)?;
                self.start(starts, new, call, &reply)?;
                Ok(reply)
            }
        }
    }
}
