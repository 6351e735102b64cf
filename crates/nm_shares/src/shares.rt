//! The opens of one file system.
ghost use Rattle.std.specs.Prelude.{◌≡◌, ◌<◌, ◌≤◌, ◌+◌, ◌^◌, ◌↔◌, ℕ, true, IsSome, IfSome, IfOk, OnOk, OnErr, is_none, option_copied};
ghost use Rattle.nm_rules.specs.Shares.{open_at, open_of, is_opposed};
ghost use Rattle.nm_rules.specs.Opens.{is_share};
ghost use Rattle.nm_rules.specs.Sound.{rises};
ghost use Rattle.nm_shares.specs.Rows.{no_opens, Tells, take_answer, after_take, after_close, after_end, after_confirm, after_downgrade, after_draw, downgrade_answer, renewed_state};

use crate::State;
use crate::rows::{
    Change, copy_rows, drop_at, drop_of, find_at, find_of, is_narrower, next_state, opposed, renew,
    take,
};
use nm_types::{FsNum, Instance, Memory, OpStatus, OpenRow, Owner, Refusal};
use std::alloc::Global;
use std::marker::Model;

/// The live opens of one file system, by rising counter, with the counter of the last stateid that was made.
#[derive(Drop)]
pub struct Shares {
    fs: FsNum,
    grants: bool,
    rows: Vec<OpenRow>,
    last: u64,
}

impl Model for Shares {
    ghost use Rattle.nm_shares.specs.Rows.{SharesNow};

    ghost Value = { SharesNow };

    ghost use Rattle.std.specs.Prelude.{◌≡◌, ◌≤◌, ◌^◌, true};
    ghost use Rattle.nm_rules.specs.Sound.{rises};

    ghost view = { λ s. record { fs = s.fs; grants = s.grants; table = s.rows.items; last = s.last } };

    ghost invariant = { λ s. (rises 0 s.last s.rows.items ≡ true) × (s.last ≤ 2 ^ 63) };
}

impl Shares {
    /// No opens yet, in that file system. It takes no memory.
    pub fn new(alloc: Global, fs: FsNum, grants: bool) -> Shares
        ensures { result ≡ no_opens fs grants }
    {
        Shares {
            fs,
            grants,
            rows: Vec::new(alloc),
            last: 0,
        }
    }

    /// The live opens, by rising counter.
    pub fn rows(&self) -> &[OpenRow]
        ensures table { result.now ≡ self.now.table }
        ensures rising { rises 0 self.now.last self.now.table ≡ true }
    {
        &self.rows
    }

    /// The counter of the last stateid that was made, 0 before the first. It is at most 2^63.
    pub fn last(&self) -> u64
        ensures value { result ≡ self.now.last }
        ensures bound { result ≤ 2 ^ 63 }
    {
        self.last
    }

    /// The live open of that counter. `None` exactly where there is none.
    pub fn open_at(&self, counter: u64) -> Option<&OpenRow>
        ensures { option_copied result ≡ open_at counter self.now.table }
    {
        find_at(&self.rows, counter)
    }

    /// The live open of that owner on that file. `None` exactly where there is none.
    pub fn open_of(&self, owner: &Owner, file: u64) -> Option<&OpenRow>
        ensures { option_copied result ≡ open_of owner.now file self.now.table }
    {
        find_of(&self.rows, owner, file)
    }

    /// Whether another owner's open of the file conflicts with this share (RFC 7530, 9.9).
    pub fn is_opposed(&self, owner: &Owner, file: u64, access: u32, deny: u32) -> bool
        ensures { result ≡ is_opposed owner.now file access deny self.now.table }
    {
        opposed(&self.rows, owner, file, access, deny)
    }

    /// Opens a file for an owner, or joins what the owner has open there (RFC 7530, 16.16). `SHARE_DENIED` exactly
    /// where another owner's open of the file conflicts. After an error nothing has changed. A first open of the owner
    /// there draws the next counter, so the last one must be below 2^63.
    #[tactic(auto, unfolding(crate::specs::Rows::take_answer, crate::specs::Rows::after_take))]
    pub fn take_open(
        &mut self,
        owner: &Owner,
        file: u64,
        access: u32,
        deny: u32,
    ) -> Result<State, Refusal>
        requires room { is_none (open_of owner.now file self.old.table) ≡ true → self.old.last < 2 ^ 63 }
        requires share { is_share access deny ≡ true }

        ensures rising { rises 0 self.old.last self.old.table ≡ true }
        ensures answer { Tells result (take_answer self.old owner.now file access deny) }
        ensures ok { OnOk result (self.new ≡ after_take self.old owner.now file access deny) }
        ensures err { OnErr result (self.new ≡ self.old) }
    {
        if opposed(&self.rows, owner, file, access, deny) {
            return Err(Refusal::Status(OpStatus::ShareDenied));
        }
        let (state, last) = take(&mut self.rows, self.last, owner, file, access, deny)?;
        self.last = last;
        Ok(state)
    }

    /// Closes the live open of that counter. Its state is told with the seqid that a CLOSE answers (RFC 7530, 16.2).
    #[tactic(auto, unfolding(nm_rules::specs::Shares::opens_after))]
    pub fn close(&mut self, counter: u64) -> State
        requires live { IsSome (open_at counter self.old.table) }
        ensures state { IfSome (open_at counter self.old.table) (λ row. result ≡ renewed_state row) }
        ensures closed { self.new ≡ after_close self.old counter }
    {
        let state = next_state(&self.rows, counter);
        drop_at(&mut self.rows, counter);
        state
    }

    /// Confirms the live open of that counter (RFC 7530, 16.18): the seqid of its stateid goes on by one.
    pub fn confirm(&mut self, counter: u64) -> State
        requires live { IsSome (open_at counter self.old.table) }
        ensures state { IfSome (open_at counter self.old.table) (λ row. result ≡ renewed_state row) }
        ensures confirmed { self.new ≡ after_confirm self.old counter }
    {
        let state = next_state(&self.rows, counter);
        renew(&mut self.rows, counter, Change::Renewed);
        state
    }

    /// Leaves the live open of that counter this access and deny (RFC 7530, 16.19). `INVAL` exactly where they are none of an
    /// open, or more than it has. After an error nothing has changed.
    #[tactic(auto, unfolding(crate::specs::Rows::downgrade_answer))]
    pub fn downgrade(&mut self, counter: u64, access: u32, deny: u32) -> Result<State, OpStatus>
        requires live { IsSome (open_at counter self.old.table) }
        ensures answer { IfSome (open_at counter self.old.table) (λ row. result ≡ downgrade_answer row access deny) }
        ensures ok { OnOk result (self.new ≡ after_downgrade self.old counter access deny) }
        ensures err { OnErr result (self.new ≡ self.old) }
    {
        if !is_narrower(access, deny, find_at(&self.rows, counter)) {
            return Err(OpStatus::Inval);
        }
        let state = next_state(&self.rows, counter);
        renew(&mut self.rows, counter, Change::Narrowed { access, deny });
        Ok(state)
    }

    /// The counter of a further stateid, which counts as made. The last one must be below 2^63.
    #[tactic(auto, using(crate::proofs::RowLemmas::rises_further))]
    pub fn draw(&mut self) -> u64
        requires room { self.old.last < 2 ^ 63 }
        ensures counter { result ≡ self.old.last + 1 }
        ensures drawn { self.new ≡ after_draw self.old }
    {
        self.last += 1;
        self.last
    }

    /// Closes all opens of an instance, which has ended (RFC 7530, 9.6.3).
    pub fn drop_client(&mut self, instance: &Instance)
        ensures { self.new ≡ after_end self.old instance.now }
    {
        drop_of(&mut self.rows, instance);
    }

    /// The same opens once more.
    pub fn copy(&self) -> Result<Shares, Memory>
        ensures { IfOk result (λ shares. shares ≡ self.now) }
    {
        Ok(Shares {
            fs: self.fs,
            grants: self.grants,
            rows: copy_rows(*self.rows.allocator(), &self.rows)?,
            last: self.last,
        })
    }
}
