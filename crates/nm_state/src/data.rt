//! Operations on the bytes of a file (RFC 7530, 16.3, 16.23 and 16.36).
ghost use Rattle.std.specs.Prelude.{◌≡◌, ◌≤◌, ◌+◌, None, IfOk, OnOk, length, option_copied};
ghost use Rattle.nm_rules.specs.Answer.{answer_to};
ghost use Rattle.nm_rules.specs.Checks.{first, refusal};
ghost use Rattle.nm_rules.specs.Contents.{size_limit, taken};
ghost use Rattle.nm_rules.specs.Data.{commit_checks, read_checks, read_of, read_value, read_denied, stale_stop, unresolved_stop, write_checks, write_denied, write_limit, write_value, written_size};
ghost use Rattle.nm_rules.specs.Files.{current};
ghost use Rattle.nm_rules.specs.Opens.{is_denied};
ghost use Rattle.nm_rules.specs.Past.{parent_of, write_tree};
ghost use Rattle.nm_types.specs.declared.calls.Event.TheVariants.{Asked};
ghost use Rattle.nm_types.specs.declared.calls.Deed.TheVariants.{Commit as CommitDeed, Read as ReadDeed, Write as WriteDeed};
ghost use Rattle.nm_state.specs.Opening.{Applied, after_word};

use crate::checks::{is_empty, lease_refusal, refuse_if, size_of};
use crate::parts::{TRANSFER_LIMIT, part, taken};
use crate::stateids::{any_unresolved, meets};
use crate::tables::Tables;
use nm_types::{
    Bytes, CommitArgs, FileRow, Instance, Memory, OpStatus, ReadArgs, ReadOk, Reply, ReplyValue,
    StateRef, Verdict, WriteArgs, WriteOk,
};
use std::alloc::Global;

/// The bytes of a file.
const SIZE_LIMIT: u64 = 1 << 20;

// What a READ tells of a file's bytes: at most 64 KiB, and whether the file ends with them.
fn read_of(alloc: Global, args: &ReadArgs, bytes: &[u8]) -> Result<ReadOk, Memory>
    ensures { IfOk result (λ value. value ≡ read_of args.now bytes.now) }
{
    let found = part(
        bytes,
        args.offset,
        (args.count as usize).min(TRANSFER_LIMIT),
    );
    let before = (bytes.len() as u64).saturating_sub(found.len() as u64);
    Ok(ReadOk {
        eof: before <= args.offset,
        data: Bytes::from_slice(alloc, found)?,
    })
}

// The size that a WRITE within the limit leaves.
fn written_size(row: Option<&FileRow>, args: &WriteArgs) -> u64
    requires { args.now.offset + length (taken args.now.«data») ≤ size_limit }
    ensures { result ≡ written_size (option_copied row.entry) args.now }
{
    let bytes = taken(args.data.items());
    if is_empty(bytes) {
        return size_of(row);
    }
    size_of(row).max(args.offset + bytes.len() as u64)
}

// What an OK of WRITE tells: all that it took is in stable storage, and the server's run is 0.
#[tactic(auto, unfolding(nm_rules::specs::Data::write_value))]
fn write_value(args: &WriteArgs) -> Option<WriteOk>
    ensures { result ≡ write_value args.now }
{
    Some(WriteOk {
        count: taken(args.data.items()).len() as u32,
        committed: 2,
        writeverf: 0,
    })
}

impl Tables {
    // A stateid that a server made has to stand for an open or for locks of the caller's own.
    #[tactic(auto, unfolding(nm_rules::specs::Data::unresolved_stop))]
    pub(crate) fn unresolved_stop(
        &self,
        caller: Option<Instance>,
        stateid: StateRef,
    ) -> Option<OpStatus>
        ensures { result ≡ unresolved_stop self.now caller stateid }
    {
        match stateid {
            StateRef::Zeros => None,
            StateRef::Ones => None,
            StateRef::Named(_) => {
                any_unresolved(caller, self.resolved(stateid), self.lock_named(stateid))
            }
        }
    }

    // What the open or the locks say that the stateid stands for, unless it is a special one.
    #[tactic(auto, unfolding(nm_rules::specs::Data::stale_stop))]
    pub(crate) fn stale_stop(&self, file: u64, stateid: StateRef, access: u32) -> Option<OpStatus>
        ensures { result ≡ stale_stop self.now file stateid access }
    {
        match stateid {
            StateRef::Zeros => None,
            StateRef::Ones => None,
            StateRef::Named(_) => {
                let (row, lock) = (self.open_named(stateid), self.lock_named(stateid));
                self.any_stop(file, stateid, access, row, lock)
            }
        }
    }

    // Some open of the file denies that access.
    #[tactic(auto, unfolding(nm_rules::specs::Opens::is_denied))]
    fn is_denied(&self, access: u32, file: u64) -> bool
        ensures { result ≡ is_denied access file self.now.opens }
    {
        self.shares
            .rows()
            .iter()
            .any(|row| row.file == file && meets(access, row.deny))
    }

    // The stateid of all zeros meets denies of reading.
    #[tactic(auto, unfolding(nm_rules::specs::Data::read_denied))]
    fn read_denied(&self, file: u64, stateid: StateRef) -> bool
        ensures { result ≡ read_denied self.now file stateid }
    {
        match stateid {
            StateRef::Zeros => self.is_denied(1, file),
            StateRef::Ones => false,
            StateRef::Named(_) => false,
        }
    }

    // Both special stateids meet denies of writing.
    #[tactic(auto, unfolding(nm_rules::specs::Data::write_denied))]
    pub(crate) fn write_denied(&self, file: u64, stateid: StateRef) -> bool
        ensures { result ≡ write_denied self.now file stateid }
    {
        match stateid {
            StateRef::Zeros => self.is_denied(2, file),
            StateRef::Ones => self.is_denied(2, file),
            StateRef::Named(_) => false,
        }
    }

    // The first class that refuses a COMMIT.
    #[tactic(auto, unfolding(nm_rules::specs::Data::commit_checks))]
    fn commit_stop(&self, file: u64, verdict: Verdict) -> Option<OpStatus>
        ensures { refusal result ≡ first (commit_checks self.now file verdict) }
    {
        if let Some(status) = lease_refusal(verdict) {
            return Some(status);
        }
        if let Some(status) = self.missing_stop(file) {
            return Some(status);
        }
        refuse_if(self.is_dir(file), OpStatus::IsDir)
    }

    // The first class that refuses a READ.
    #[tactic(auto, unfolding(nm_rules::specs::Data::read_checks))]
    fn read_stop(
        &self,
        caller: Option<Instance>,
        file: u64,
        args: &ReadArgs,
        verdict: Verdict,
    ) -> Option<OpStatus>
        ensures { refusal result ≡ first (read_checks self.now caller file args.now verdict) }
    {
        if let Some(status) = self.unresolved_stop(caller, args.stateid) {
            return Some(status);
        }
        if let Some(status) = lease_refusal(verdict) {
            return Some(status);
        }
        if let Some(status) = self.missing_stop(file) {
            return Some(status);
        }
        if let Some(status) = refuse_if(self.is_dir(file), OpStatus::IsDir) {
            return Some(status);
        }
        if let Some(status) = self.stale_stop(file, args.stateid, 1) {
            return Some(status);
        }
        refuse_if(self.read_denied(file, args.stateid), OpStatus::Locked)
    }

    // What an OK of READ tells.
    #[tactic(auto, unfolding(nm_rules::specs::Data::read_value))]
    fn read_value(&self, file: u64, args: &ReadArgs) -> Result<Option<ReadOk>, Memory>
        ensures { IfOk result (λ value. value ≡ read_value (current self.now file) args.now) }
    {
        match self.tree.row(file) {
            None => Ok(None),
            Some(row) => Ok(Some(read_of(self.alloc, args, row.bytes.items())?)),
        }
    }

    // The limits that a WRITE passes.
    #[tactic(auto, unfolding(nm_rules::specs::Data::write_limit))]
    fn write_limit(&self, file: u64, args: &WriteArgs) -> Option<OpStatus>
        ensures { result ≡ write_limit self.now file args.now }
    {
        let bytes = taken(args.data.items());
        if SIZE_LIMIT - (bytes.len() as u64) < args.offset {
            return Some(OpStatus::FBig);
        }
        let row = self.tree.row(file);
        if self.fills_up(size_of(row), written_size(row, args)) {
            return Some(OpStatus::NoSpc);
        }
        refuse_if(
            !is_empty(bytes) && self.changes_past_end(),
            OpStatus::Resource,
        )
    }

    // The first class that refuses a WRITE.
    #[tactic(auto, unfolding(nm_rules::specs::Data::write_checks))]
    fn write_stop(
        &self,
        caller: Option<Instance>,
        file: u64,
        args: &WriteArgs,
        verdict: Verdict,
    ) -> Option<OpStatus>
        ensures { refusal result ≡ first (write_checks self.now caller file args.now verdict) }
    {
        if let Some(status) = self.unresolved_stop(caller, args.stateid) {
            return Some(status);
        }
        if let Some(status) = lease_refusal(verdict) {
            return Some(status);
        }
        if let Some(status) = self.missing_stop(file) {
            return Some(status);
        }
        if let Some(status) = refuse_if(self.is_dir(file), OpStatus::IsDir) {
            return Some(status);
        }
        if let Some(status) = self.stale_stop(file, args.stateid, 2) {
            return Some(status);
        }
        if let Some(status) = refuse_if(self.write_denied(file, args.stateid), OpStatus::Locked) {
            return Some(status);
        }
        self.write_limit(file, args)
    }

    // The directory that a file is in, 0 where there is no such file.
    pub(crate) fn parent_of(&self, file: u64) -> u64
        ensures { result ≡ parent_of (current self.now file) }
    {
        match self.tree.row(file) {
            None => 0,
            Some(row) => row.parent,
        }
    }

    // Writes what a WRITE within the limits brings.
    #[tactic(auto, using(crate::proofs::EditLemmas::write_fits, crate::proofs::EditLemmas::write_room, crate::proofs::EditLemmas::write_changes), unfolding(nm_rules::specs::Past::write_tree, nm_rules::specs::Contents::tree_after, crate::specs::Opening::after_word))]
    fn write_bytes(&mut self, file: u64, args: &WriteArgs) -> Result<(), Memory>
        requires { write_limit self.old file args.now ≡ None }
        ensures { OnOk result (self.new ≡ after_word (write_tree (current self.old file) file args.now) self.old) }
    {
        let bytes = taken(args.data.items());
        if is_empty(bytes) {
            return Ok(());
        }
        let dir = self.parent_of(file);
        self.tree.write_at(dir, file, args.offset, bytes)
    }

    /// What a COMMIT is answered.
    #[tactic(auto, unfolding(nm_rules::specs::Answer::answer_to))]
    pub fn commit_answer(
        &self,
        caller: Option<Instance>,
        file: u64,
        args: &CommitArgs,
        verdict: Verdict,
    ) -> Result<Reply, Memory>
        ensures { IfOk result (λ r. r ≡ answer_to self.now (Asked (record { caller = caller; file = file; deed = CommitDeed args.now }) verdict)) }
    {
        let _ = caller;
        let _ = args;
        if let Some(status) = self.commit_stop(file, verdict) {
            return Ok(self.reply(status, ReplyValue::Commit(None)));
        }
        Ok(self.reply(OpStatus::Nfs4Ok, ReplyValue::Commit(Some(0))))
    }

    /// What a READ is answered.
    #[tactic(auto, unfolding(nm_rules::specs::Answer::answer_to))]
    pub fn read_answer(
        &self,
        caller: Option<Instance>,
        file: u64,
        args: &ReadArgs,
        verdict: Verdict,
    ) -> Result<Reply, Memory>
        ensures { IfOk result (λ r. r ≡ answer_to self.now (Asked (record { caller = caller; file = file; deed = ReadDeed args.now }) verdict)) }
    {
        if let Some(status) = self.read_stop(caller, file, args, verdict) {
            return Ok(self.reply(status, ReplyValue::Read(None)));
        }
        let value = self.read_value(file, args)?;
        Ok(self.reply(OpStatus::Nfs4Ok, ReplyValue::Read(value)))
    }

    /// What a WRITE is answered.
    #[tactic(auto, unfolding(nm_rules::specs::Answer::answer_to))]
    pub fn write_answer(
        &self,
        caller: Option<Instance>,
        file: u64,
        args: &WriteArgs,
        verdict: Verdict,
    ) -> Result<Reply, Memory>
        ensures { IfOk result (λ r. r ≡ answer_to self.now (Asked (record { caller = caller; file = file; deed = WriteDeed args.now }) verdict)) }
    {
        if let Some(status) = self.write_stop(caller, file, args, verdict) {
            return Ok(self.reply(status, ReplyValue::Write(None)));
        }
        Ok(self.reply(OpStatus::Nfs4Ok, ReplyValue::Write(write_value(args))))
    }

    /// Answers a WRITE, and writes its bytes where nothing stops it.
    pub fn write(
        &mut self,
        caller: Option<Instance>,
        file: u64,
        args: &WriteArgs,
        verdict: Verdict,
    ) -> Result<Reply, Memory>
        ensures { IfOk result (λ r. Applied self.old (Asked (record { caller = caller; file = file; deed = WriteDeed args.now }) verdict) r self.new) }
    {
        if let Some(status) = self.write_stop(caller, file, args, verdict) {
            return Ok(self.reply(status, ReplyValue::Write(None)));
        }
        self.write_bytes(file, args)?;
        Ok(self.reply(OpStatus::Nfs4Ok, ReplyValue::Write(write_value(args))))
    }
}
