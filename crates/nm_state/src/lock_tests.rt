//! LOCKT (RFC 7530, 16.11).
ghost use Rattle.std.specs.Prelude.{◌≡◌, ◌+◌, false, Some, None, IfOk};
ghost use Rattle.nm_rules.specs.Answer.{answer_to};
ghost use Rattle.nm_rules.specs.LockAsks.{is_no_range};
ghost use Rattle.nm_rules.specs.LockOps.{counter_or, test_barrier};
ghost use Rattle.nm_rules.specs.LockRows.{lock_of};
ghost use Rattle.nm_types.specs.declared.calls.Deed.TheVariants.{LockTest as TestDeed};
ghost use Rattle.nm_types.specs.declared.calls.Event.TheVariants.{Asked as AskedEvent};
ghost use Rattle.nm_state.specs.Locking.{test_front};

use crate::checks::{lease_refusal, refuse_if};
use crate::lock_asks::{lock_owner, range_stop};
use crate::lock_rows;
use crate::tables::Tables;
use nm_types::{Held, Instance, LockTestArgs, Memory, OpStatus, Owner, Reply, ReplyValue, Verdict};

impl Tables {
    // The first class before the conflict that refuses it.
    #[tactic(auto, unfolding(crate::specs::Locking::test_front))]
    fn test_front(&self, file: u64, args: &LockTestArgs, verdict: Verdict) -> Option<OpStatus>
        ensures { result ≡ test_front self.now file args.now verdict }
    {
        if let Some(status) = lease_refusal(verdict) {
            return Some(status);
        }
        if let Some(status) = self.missing_stop(file) {
            return Some(status);
        }
        if let Some(status) = refuse_if(self.is_dir(file), OpStatus::IsDir) {
            return Some(status);
        }
        range_stop(args.offset, args.length)
    }

    // The counter by which an owner is tested: that of its stateid on the file, or the one that a new stateid would get.
    fn tester(&self, owner: &Owner, file: u64) -> u64
        ensures { result ≡ counter_or (self.now.last + 1) (lock_of owner.now file self.now.locks) }
    {
        match lock_rows::find_of(&self.locks, owner, file) {
            None => self.shares.last() + 1,
            Some(row) => row.counter,
        }
    }

    // What is in the way of it.
    fn test_barrier(
        &self,
        party: Instance,
        file: u64,
        args: &LockTestArgs,
    ) -> Result<Option<Held>, Memory>
        requires { is_no_range args.now.offset args.now.length ≡ false }
        ensures { IfOk result (λ found. found ≡ test_barrier self.now party file args.now) }
    {
        let owner = lock_owner(party, &args.owner)?;
        let counter = self.tester(&owner, file);
        Ok(self.in_the_way(counter, file, args.kind, args.offset, args.length))
    }

    /// What a LOCKT is answered.
    pub fn test_answer(
        &self,
        caller: Option<Instance>,
        file: u64,
        args: &LockTestArgs,
        verdict: Verdict,
    ) -> Result<Reply, Memory>
        ensures { IfOk result (λ r. r ≡ answer_to self.now (AskedEvent (record { caller = caller; file = file; deed = TestDeed args.now }) verdict)) }
    {
        let Some(party) = caller else {
            return Ok(self.reply(OpStatus::StaleClientId, ReplyValue::LockTest(None)));
        };
        if let Some(status) = self.test_front(file, args, verdict) {
            return Ok(self.reply(status, ReplyValue::LockTest(None)));
        }
        match self.test_barrier(party, file, args)? {
            None => Ok(self.reply(OpStatus::Nfs4Ok, ReplyValue::LockTest(None))),
            Some(held) => {
                let denied = self.denied(held)?;
                Ok(self.reply(OpStatus::Denied, ReplyValue::LockTest(denied)))
            }
        }
    }
}
