//! RELEASE_LOCKOWNER (RFC 7530, 16.37).
ghost use Rattle.std.specs.Prelude.{◌≡◌, Some, IfOk, OnOk};
ghost use Rattle.nm_rules.specs.Answer.{answer_to};
ghost use Rattle.nm_rules.specs.Checks.{first, refusal};
ghost use Rattle.nm_rules.specs.LockAsks.{lock_owner};
ghost use Rattle.nm_rules.specs.LockOps.{release_checks};
ghost use Rattle.nm_types.specs.declared.calls.Deed.TheVariants.{ReleaseLockOwner as ReleaseDeed};
ghost use Rattle.nm_types.specs.declared.calls.Event.TheVariants.{Asked as AskedEvent};
ghost use Rattle.nm_state.specs.Opening.{Applied, after_release};

use crate::checks::{lease_refusal, refuse_if};
use crate::lock_asks::lock_owner;
use crate::tables::Tables;
use crate::{closed, lock_rows};
use nm_types::{
    Instance, Memory, OpStatus, Owner, ReleaseLockOwnerArgs, Reply, ReplyValue, Verdict,
};

impl Tables {
    // The first class that refuses it.
    #[tactic(auto, unfolding(nm_rules::specs::LockOps::release_checks))]
    fn release_stop(
        &self,
        party: Instance,
        owner: &Owner,
        args: &ReleaseLockOwnerArgs,
        verdict: Verdict,
    ) -> Option<OpStatus>
        requires { owner.now ≡ lock_owner party args.now.owner }
        ensures { refusal result ≡ first (release_checks self.now (Some party) args.now verdict) }
    {
        let _ = party;
        let _ = args;
        if let Some(status) = lease_refusal(verdict) {
            return Some(status);
        }
        let idle = lock_rows::are_idle_of(&self.locks, &self.ranges, owner);
        refuse_if(!idle, OpStatus::LocksHeld)
    }

    // The stateids of a lock owner go, and what is kept of it.
    #[tactic(auto, unfolding(crate::specs::Opening::after_release, nm_rules::specs::LockRows::locks_after, nm_rules::specs::LockRows::ranges_after, nm_rules::specs::Seqids::owners_after, nm_rules::specs::Seqids::closed_after))]
    fn drop_locker(&mut self, owner: &Owner)
        ensures { self.new ≡ after_release owner.now self.old }
    {
        lock_rows::drop_owned(&mut self.locks, owner);
        self.owners.forget(owner);
        closed::drop_owned(&mut self.closed, owner);
    }

    /// What a RELEASE_LOCKOWNER is answered.
    pub fn release_answer(
        &self,
        caller: Option<Instance>,
        file: u64,
        args: &ReleaseLockOwnerArgs,
        verdict: Verdict,
    ) -> Result<Reply, Memory>
        ensures { IfOk result (λ r. r ≡ answer_to self.now (AskedEvent (record { caller = caller; file = file; deed = ReleaseDeed args.now }) verdict)) }
    {
        let _ = file;
        let Some(party) = caller else {
            return Ok(self.reply(OpStatus::StaleClientId, ReplyValue::ReleaseLockOwner(false)));
        };
        let owner = lock_owner(party, &args.owner)?;
        if let Some(status) = self.release_stop(party, &owner, args, verdict) {
            return Ok(self.reply(status, ReplyValue::ReleaseLockOwner(false)));
        }
        Ok(self.reply(OpStatus::Nfs4Ok, ReplyValue::ReleaseLockOwner(true)))
    }

    /// Answers a RELEASE_LOCKOWNER, and carries it out where nothing stops it.
    pub fn release(
        &mut self,
        caller: Option<Instance>,
        file: u64,
        args: &ReleaseLockOwnerArgs,
        verdict: Verdict,
    ) -> Result<Reply, Memory>
        ensures { IfOk result (λ r. Applied self.old (AskedEvent (record { caller = caller; file = file; deed = ReleaseDeed args.now }) verdict) r self.new) }
    {
        let _ = file;
        let Some(party) = caller else {
            return Ok(self.reply(OpStatus::StaleClientId, ReplyValue::ReleaseLockOwner(false)));
        };
        let owner = lock_owner(party, &args.owner)?;
        if let Some(status) = self.release_stop(party, &owner, args, verdict) {
            return Ok(self.reply(status, ReplyValue::ReleaseLockOwner(false)));
        }
        self.drop_locker(&owner);
        Ok(self.reply(OpStatus::Nfs4Ok, ReplyValue::ReleaseLockOwner(true)))
    }
}
