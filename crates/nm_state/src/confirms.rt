//! OPEN_CONFIRM and OPEN_DOWNGRADE (RFC 7530, 16.18 and 16.19).
ghost use Rattle.std.specs.Prelude.{◌≡◌, true, None, IfOk, IsSome, option_copied, option_map};
ghost use Rattle.nm_rules.specs.Answer.{answer_to};
ghost use Rattle.nm_rules.specs.Checks.{behind_seqid};
ghost use Rattle.nm_rules.specs.Opens.{confirm_checks, downgrade_checks, is_narrower};
ghost use Rattle.nm_rules.specs.Shares.{narrowed_row, open_at, put_if, renewed_row};
ghost use Rattle.nm_types.specs.declared.calls.Deed.TheVariants.{OpenConfirm as ConfirmDeed, OpenDowngrade as DowngradeDeed};
ghost use Rattle.nm_rules.specs.Seqids.OwnerWord.{Stays};
ghost use Rattle.nm_types.specs.declared.calls.Event.TheVariants.{Asked as AskedEvent};
ghost use Rattle.nm_state.specs.Opening.{Applied, after_opens};
ghost use Rattle.nm_state.specs.Turns.{Went, reply_behind};

use crate::checks::{lease_refusal, refuse_if};
use crate::seqids::Turn;
use crate::tables::Tables;
use nm_shares::is_narrower;
use nm_types::{
    Call, Memory, OpStatus, OpenConfirmArgs, OpenDowngradeArgs, Reply, ReplyValue, Verdict,
};

impl Tables {
    // The first class behind the seqid that refuses an OPEN_CONFIRM.
    #[tactic(auto, unfolding(nm_rules::specs::Opens::confirm_checks))]
    fn confirm_refusal(
        &self,
        call: &Call,
        args: &OpenConfirmArgs,
        verdict: Verdict,
    ) -> Option<OpStatus>
        ensures { result ≡ behind_seqid (confirm_checks self.now call.now.caller call.now.file args.now verdict) }
    {
        if let Some(status) = lease_refusal(verdict) {
            return Some(status);
        }
        if let Some(status) = self.missing_stop(call.file) {
            return Some(status);
        }
        if let Some(status) = refuse_if(self.is_dir(call.file), OpStatus::IsDir) {
            return Some(status);
        }
        self.confirm_stop(call.file, args.stateid, self.open_named(args.stateid))
    }

    // The first class behind the seqid that refuses an OPEN_DOWNGRADE.
    #[tactic(auto, unfolding(nm_rules::specs::Opens::downgrade_checks))]
    fn downgrade_refusal(
        &self,
        call: &Call,
        args: &OpenDowngradeArgs,
        verdict: Verdict,
    ) -> Option<OpStatus>
        ensures { result ≡ behind_seqid (downgrade_checks self.now call.now.caller call.now.file args.now verdict) }
    {
        if let Some(status) = lease_refusal(verdict) {
            return Some(status);
        }
        if let Some(status) = self.missing_stop(call.file) {
            return Some(status);
        }
        let narrower = is_narrower(args.access, args.deny, self.open_named(args.stateid));
        if let Some(status) = refuse_if(!narrower, OpStatus::Inval) {
            return Some(status);
        }
        self.live_stop(call.file, args.stateid, 0, self.open_named(args.stateid))
    }

    // What an OPEN_CONFIRM whose turn it is is answered.
    fn confirm_reply(&self, call: &Call, args: &OpenConfirmArgs, verdict: Verdict) -> Reply
        ensures { result ≡ reply_behind self.now (record { caller = call.now.caller; file = call.now.file; deed = ConfirmDeed args.now }) verdict }
    {
        if let Some(status) = self.confirm_refusal(call, args, verdict) {
            return self.reply(status, ReplyValue::OpenConfirm(None));
        }
        let id = self.changed_stateid(args.stateid);
        self.reply(OpStatus::Nfs4Ok, ReplyValue::OpenConfirm(Some(id)))
    }

    // What an OPEN_DOWNGRADE whose turn it is is answered.
    fn downgrade_reply(&self, call: &Call, args: &OpenDowngradeArgs, verdict: Verdict) -> Reply
        ensures { result ≡ reply_behind self.now (record { caller = call.now.caller; file = call.now.file; deed = DowngradeDeed args.now }) verdict }
    {
        if let Some(status) = self.downgrade_refusal(call, args, verdict) {
            return self.reply(status, ReplyValue::OpenDowngrade(None));
        }
        let id = self.changed_stateid(args.stateid);
        self.reply(OpStatus::Nfs4Ok, ReplyValue::OpenDowngrade(Some(id)))
    }

    // Confirms a live open.
    #[tactic(auto, unfolding(crate::specs::Opening::after_opens))]
    fn confirm_open(&mut self, counter: u64)
        requires { IsSome (open_at counter self.old.opens) }
        ensures { self.new ≡ after_opens (put_if (option_map renewed_row (open_at counter self.old.opens))) self.old }
    {
        self.shares.confirm(counter);
    }

    // Leaves a live open less.
    #[tactic(auto, unfolding(crate::specs::Opening::after_opens))]
    fn narrow_open(&mut self, counter: u64, access: u32, deny: u32)
        requires live { IsSome (open_at counter self.old.opens) }
        requires narrower { is_narrower access deny (open_at counter self.old.opens) ≡ true }
        ensures { self.new ≡ after_opens (put_if (option_map (narrowed_row access deny) (open_at counter self.old.opens))) self.old }
    {
        match self.shares.downgrade(counter, access, deny) {
            Ok(_) => {}
            // It has all of it.
            Err(_) => unreachable!(),
        }
    }

    // What an OPEN_CONFIRM whose turn it is does.
    fn confirm_in_turn(&mut self, call: &Call, args: &OpenConfirmArgs, verdict: Verdict) -> Reply
        ensures { Went self.old (record { caller = call.now.caller; file = call.now.file; deed = ConfirmDeed args.now }) verdict result None Stays self.new }
    {
        if let Some(status) = self.confirm_refusal(call, args, verdict) {
            return self.reply(status, ReplyValue::OpenConfirm(None));
        }
        let id = self.changed_stateid(args.stateid);
        self.confirm_open(id.counter);
        self.reply(OpStatus::Nfs4Ok, ReplyValue::OpenConfirm(Some(id)))
    }

    // What an OPEN_DOWNGRADE whose turn it is does.
    fn downgrade_in_turn(
        &mut self,
        call: &Call,
        args: &OpenDowngradeArgs,
        verdict: Verdict,
    ) -> Reply
        ensures { Went self.old (record { caller = call.now.caller; file = call.now.file; deed = DowngradeDeed args.now }) verdict result None Stays self.new }
    {
        if let Some(status) = self.downgrade_refusal(call, args, verdict) {
            return self.reply(status, ReplyValue::OpenDowngrade(None));
        }
        let id = self.changed_stateid(args.stateid);
        self.narrow_open(id.counter, args.access, args.deny);
        self.reply(OpStatus::Nfs4Ok, ReplyValue::OpenDowngrade(Some(id)))
    }

    /// What an OPEN_CONFIRM is answered.
    pub fn confirm_answer(
        &self,
        call: &Call,
        args: &OpenConfirmArgs,
        verdict: Verdict,
    ) -> Result<Reply, Memory>
        requires { call.now.deed ≡ ConfirmDeed args.now }
        ensures { IfOk result (λ r. r ≡ answer_to self.now (AskedEvent call.now verdict)) }
    {
        match self.turn_at(self.resolved(args.stateid), args.seqid, call)? {
            Turn::Answered(reply) => Ok(reply),
            Turn::Of(_) => Ok(self.confirm_reply(call, args, verdict)),
        }
    }

    /// Answers an OPEN_CONFIRM, and carries it out where nothing stops it.
    pub fn confirm(
        &mut self,
        call: &Call,
        args: &OpenConfirmArgs,
        verdict: Verdict,
    ) -> Result<Reply, Memory>
        requires { call.now.deed ≡ ConfirmDeed args.now }
        ensures { IfOk result (λ r. Applied self.old (AskedEvent call.now verdict) r self.new) }
    {
        match self.turn_at(self.resolved(args.stateid), args.seqid, call)? {
            Turn::Answered(reply) => Ok(reply),
            Turn::Of(owner) => {
                let reply = self.confirm_in_turn(call, args, verdict);
                self.note(&owner, call, &reply, None)?;
                Ok(reply)
            }
        }
    }

    /// What an OPEN_DOWNGRADE is answered.
    pub fn downgrade_answer(
        &self,
        call: &Call,
        args: &OpenDowngradeArgs,
        verdict: Verdict,
    ) -> Result<Reply, Memory>
        requires { call.now.deed ≡ DowngradeDeed args.now }
        ensures { IfOk result (λ r. r ≡ answer_to self.now (AskedEvent call.now verdict)) }
    {
        match self.turn_at(self.resolved(args.stateid), args.seqid, call)? {
            Turn::Answered(reply) => Ok(reply),
            Turn::Of(_) => Ok(self.downgrade_reply(call, args, verdict)),
        }
    }

    /// Answers an OPEN_DOWNGRADE, and carries it out where nothing stops it.
    pub fn downgrade(
        &mut self,
        call: &Call,
        args: &OpenDowngradeArgs,
        verdict: Verdict,
    ) -> Result<Reply, Memory>
        requires { call.now.deed ≡ DowngradeDeed args.now }
        ensures { IfOk result (λ r. Applied self.old (AskedEvent call.now verdict) r self.new) }
    {
        match self.turn_at(self.resolved(args.stateid), args.seqid, call)? {
            Turn::Answered(reply) => Ok(reply),
            Turn::Of(owner) => {
                let reply = self.downgrade_in_turn(call, args, verdict);
                self.note(&owner, call, &reply, None)?;
                Ok(reply)
            }
        }
    }
}
