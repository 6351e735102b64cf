//! The tables of a file system: its files, its opens, its locks and its owners, and what each event is answered and leaves.
ghost use Rattle.std.specs.Prelude.{◌≡◌, IfOk};
ghost use Rattle.nm_rules.specs.Seen.{empty};
ghost use Rattle.nm_types.specs.declared.calls.Event.TheVariants.{Asked};
ghost use Rattle.nm_rules.specs.Answer.{answer_to, reply_with};
ghost use Rattle.nm_state.specs.Opening.{Applied, after_end};

use crate::closed::{copy_rows, drop_of};
use crate::file_ranges::{self, FileRanges};
use crate::lock_rows;
use nm_owners::Owners;
use nm_shares::Shares;
use nm_tree::Tree;
use nm_types::{
    Call, Deed, Event, FileRow, FsNum, Instance, Items, LockRow, Memory, OpStatus, OpenRow,
    OwnerRow, Reply, ReplyValue, Verdict,
};
use std::alloc::Global;
use std::marker::Model;

/// The tables of one file system.
pub struct Tables {
    pub(crate) alloc: Global,
    pub(crate) fs: FsNum,
    pub(crate) grants: bool,
    pub(crate) tree: Tree,
    pub(crate) shares: Shares,
    pub(crate) owners: Owners,
    // The opens whose CLOSE is their owner's kept call, as they were closed.
    pub(crate) closed: Vec<OpenRow>,
    // The stateids of lock owners, by rising counter.
    pub(crate) locks: Vec<LockRow>,
    // What they hold, of each file on which they hold something.
    pub(crate) ranges: Vec<FileRanges>,
}

impl Drop for Tables {
    fn drop(self) {
        let Tables {
            alloc: _,
            fs: _,
            grants: _,
            tree: _,
            shares: _,
            owners: _,
            closed: _,
            locks: _,
            ranges: _,
        } = self;
    }
}

impl Model for Tables {
    ghost use Rattle.nm_rules.specs.Seen.{Seen};

    ghost Value = { Seen };

    ghost view = { λ f. record {
      fs = f.fs;
      grants = f.grants;
      tree = f.tree;
      opens = f.shares.table;
      owners = f.owners.table;
      closed = f.closed.items;
      locks = f.locks.items;
      ranges = f.ranges.items;
      last = f.shares.last;
    } };
}

impl Tables {
    /// A file system with no file but the root, no opens, no locks and no owners.
    pub fn new(alloc: Global, fs: FsNum, grants: bool) -> Result<Tables, Memory>
        ensures { IfOk result (λ tables. tables ≡ empty fs grants) }
    {
        Ok(Tables {
            alloc,
            fs,
            grants,
            tree: Tree::new(alloc)?,
            shares: Shares::new(alloc, fs, grants),
            owners: Owners::new(alloc),
            closed: Vec::new(alloc),
            locks: Vec::new(alloc),
            ranges: Vec::new(alloc),
        })
    }

    /// The files, by rising number.
    pub fn files(&self) -> &[FileRow]
        ensures { result.now ≡ self.now.tree.table }
    {
        self.tree.rows()
    }

    /// The live opens, by rising counter.
    pub fn opens(&self) -> &[OpenRow]
        ensures { result.now ≡ self.now.opens }
    {
        self.shares.rows()
    }

    /// The stateids of lock owners, by rising counter.
    pub fn locks(&self) -> &[LockRow]
        ensures { result.now ≡ self.now.locks }
    {
        &self.locks
    }

    /// What they hold of each file.
    pub fn ranges(&self) -> &[FileRanges]
        ensures { result.now ≡ self.now.ranges }
    {
        &self.ranges
    }

    /// What is kept of the owners that are known.
    pub fn owners(&self) -> &[OwnerRow]
        ensures { result.now ≡ self.now.owners }
    {
        self.owners.rows()
    }

    /// The same tables once more.
    pub fn copy(&self) -> Result<Tables, Memory>
        ensures { IfOk result (λ tables. tables ≡ self.now) }
    {
        Ok(Tables {
            alloc: self.alloc,
            fs: self.fs,
            grants: self.grants,
            tree: self.tree.copy()?,
            shares: self.shares.copy()?,
            owners: self.owners.copy()?,
            closed: copy_rows(self.alloc, &self.closed)?,
            locks: lock_rows::copy_rows(self.alloc, &self.locks)?,
            ranges: file_ranges::copy_rows(self.alloc, &self.ranges)?,
        })
    }

    /// A reply that recalls nothing.
    pub fn reply(&self, status: OpStatus, value: ReplyValue) -> Reply
        ensures { result ≡ reply_with status value }
    {
        Reply {
            status,
            value,
            recalls: Items::new(self.alloc),
        }
    }

    /// What an event would be answered.
    #[tactic(auto, unfolding(nm_rules::specs::Answer::answer_to))]
    pub fn answer(&self, event: &Event) -> Result<Reply, Memory>
        ensures { IfOk result (λ r. r ≡ answer_to self.now event.now) }
    {
        match event {
            Event::Asked(call, verdict) => self.call_answer(call, *verdict),
            Event::Ended(_) => Ok(self.reply(OpStatus::Nfs4Ok, ReplyValue::Nothing)),
        }
    }

    // What a call is answered.
    fn call_answer(&self, call: &Call, verdict: Verdict) -> Result<Reply, Memory>
        ensures { IfOk result (λ r. r ≡ answer_to self.now (Asked call.now verdict)) }
    {
        let (caller, file) = (call.caller, call.file);
        match &call.deed {
            Deed::Access(args) => Ok(self.access_answer(caller, file, args, verdict)?),
            Deed::Close(args) => Ok(self.close_answer(call, args, verdict)?),
            Deed::Commit(args) => Ok(self.commit_answer(caller, file, args, verdict)?),
            Deed::Create(args) => Ok(self.create_answer(caller, file, args, verdict)?),
            Deed::GetAttr(args) => Ok(self.getattr_answer(caller, file, args, verdict)?),
            Deed::Lock(args) => Ok(self.lock_answer(call, args, verdict)?),
            Deed::LockTest(args) => Ok(self.test_answer(caller, file, args, verdict)?),
            Deed::Lookup(args) => Ok(self.lookup_answer(caller, file, args, verdict)?),
            Deed::LookupP => Ok(self.lookupp_answer(caller, file, verdict)?),
            Deed::Open(args) => Ok(self.open_answer(call, args, verdict)?),
            Deed::OpenConfirm(args) => Ok(self.confirm_answer(call, args, verdict)?),
            Deed::OpenDowngrade(args) => Ok(self.downgrade_answer(call, args, verdict)?),
            Deed::Read(args) => Ok(self.read_answer(caller, file, args, verdict)?),
            Deed::ReadDir(args) => Ok(self.readdir_answer(caller, file, args, verdict)?),
            Deed::ReleaseLockOwner(args) => {
                Ok(self.release_answer(caller, file, args, verdict)?)
            }
            Deed::Remove(args) => Ok(self.remove_answer(caller, file, args, verdict)?),
            Deed::SetAttr(args) => Ok(self.setattr_answer(caller, file, args, verdict)?),
            Deed::Unlock(args) => Ok(self.unlock_answer(call, args, verdict)?),
            Deed::Write(args) => Ok(self.write_answer(caller, file, args, verdict)?),
        }
    }

    // Answers a call, and carries it out where nothing stops it.
    fn call(&mut self, call: &Call, verdict: Verdict) -> Result<Reply, Memory>
        ensures { IfOk result (λ r. Applied self.old (Asked call.now verdict) r self.new) }
    {
        let (caller, file) = (call.caller, call.file);
        match &call.deed {
            Deed::Access(args) => Ok(self.access_answer(caller, file, args, verdict)?),
            Deed::Close(args) => Ok(self.close(call, args, verdict)?),
            Deed::Commit(args) => Ok(self.commit_answer(caller, file, args, verdict)?),
            Deed::Create(args) => Ok(self.create(caller, file, args, verdict)?),
            Deed::GetAttr(args) => Ok(self.getattr_answer(caller, file, args, verdict)?),
            Deed::Lock(args) => Ok(self.lock(call, args, verdict)?),
            Deed::LockTest(args) => Ok(self.test_answer(caller, file, args, verdict)?),
            Deed::Lookup(args) => Ok(self.lookup_answer(caller, file, args, verdict)?),
            Deed::LookupP => Ok(self.lookupp_answer(caller, file, verdict)?),
            Deed::Open(args) => Ok(self.open(call, args, verdict)?),
            Deed::OpenConfirm(args) => Ok(self.confirm(call, args, verdict)?),
            Deed::OpenDowngrade(args) => Ok(self.downgrade(call, args, verdict)?),
            Deed::Read(args) => Ok(self.read_answer(caller, file, args, verdict)?),
            Deed::ReadDir(args) => Ok(self.readdir_answer(caller, file, args, verdict)?),
            Deed::ReleaseLockOwner(args) => Ok(self.release(caller, file, args, verdict)?),
            Deed::Remove(args) => Ok(self.remove(caller, file, args, verdict)?),
            Deed::SetAttr(args) => Ok(self.setattr(caller, file, args, verdict)?),
            Deed::Unlock(args) => Ok(self.unlock(call, args, verdict)?),
            Deed::Write(args) => Ok(self.write(caller, file, args, verdict)?),
        }
    }

    /// All that an instance holds goes, and all that is kept of its owners.
    #[tactic(auto, unfolding(crate::specs::Opening::after_end, nm_rules::specs::Seqids::owners_after, nm_rules::specs::Seqids::closed_after, nm_rules::specs::LockRows::locks_after, nm_rules::specs::LockRows::ranges_after))]
    pub fn end(&mut self, instance: &Instance)
        ensures { self.new ≡ after_end self.old instance.now }
    {
        self.shares.drop_client(instance);
        self.owners.drop_client(instance);
        drop_of(&mut self.closed, instance);
        file_ranges::drop_of(&mut self.ranges, &self.locks, instance);
        lock_rows::drop_of(&mut self.locks, instance);
    }

    /// Answers an event, and changes the tables as the answer says. After want of memory nothing is promised of them.
    pub fn apply(&mut self, event: &Event) -> Result<Reply, Memory>
        ensures { IfOk result (λ r. Applied self.old event.now r self.new) }
    {
        match event {
            Event::Asked(call, verdict) => Ok(self.call(call, *verdict)?),
            Event::Ended(instance) => {
                self.end(instance);
                Ok(self.reply(OpStatus::Nfs4Ok, ReplyValue::Nothing))
            }
        }
    }
}
