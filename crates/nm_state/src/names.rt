//! Operations that look up names, and that ask for rights and attributes (RFC 7530, 16.1, 16.7, 16.13 and 16.14).
ghost use Rattle.std.specs.Prelude.{◌≡◌, IfOk, option_map};
ghost use Rattle.nm_rules.specs.Answer.{answer_to};
ghost use Rattle.nm_rules.specs.Checks.{first, refusal, name_stop};
ghost use Rattle.nm_rules.specs.Contents.{is_entry_of};
ghost use Rattle.nm_rules.specs.Files.{access_value, attributes_of, current, dir_checks, file_checks, getattr_value, lookup_checks};
ghost use Rattle.nm_types.specs.declared.calls.Deed.TheVariants.{Access as AccessDeed, GetAttr as GetAttrDeed, Lookup as LookupDeed, LookupP as LookupPDeed};
ghost use Rattle.nm_types.specs.declared.calls.Event.TheVariants.{Asked};

use crate::attributes;
use crate::checks::{arguments_fault, lease_refusal, refuse_if};
use crate::tables::Tables;
use nm_types::{
    AccessArgs, AccessOk, FileAttrs, FileKind, FileRow, GetAttrArgs, GetAttrOk, Instance,
    LookupArgs, Memory, OpStatus, Reply, ReplyValue, Verdict,
};

/// The rights that ACCESS tells: read, lookup, modify, extend, delete and execute.
const TOLD_RIGHTS: u32 = 63;

// What an OK of ACCESS tells: everyone has every right.
#[tactic(auto, unfolding(nm_rules::specs::Files::access_value))]
fn access_value(args: &AccessArgs) -> Option<AccessOk>
    ensures { result ≡ access_value args.now }
{
    Some(AccessOk {
        supported: args.access & TOLD_RIGHTS,
        access: args.access & TOLD_RIGHTS,
    })
}

/// The attributes of a file that change from file to file.
#[tactic(auto, unfolding(nm_rules::specs::Files::attributes_of, nm_rules::specs::Contents::is_directory))]
pub fn attributes_of(row: &FileRow) -> FileAttrs
    ensures { result ≡ attributes_of row.now }
{
    FileAttrs {
        kind: match row.kind {
            FileKind::File => 1,
            FileKind::Directory => 2,
        },
        mode: row.mode,
        size: row.bytes.items().len() as u64,
        change: row.change,
        file: row.number,
    }
}

/// What is wrong with a name alone.
#[tactic(auto, unfolding(nm_rules::specs::Checks::name_stop))]
pub fn name_stop(name: &[u8]) -> Option<OpStatus>
    ensures { result ≡ name_stop name.now }
{
    let nothing = attributes::Asked::Sets {
        size: None,
        mode: None,
    };
    arguments_fault(false, name, nothing)
}

/// The row is an entry of the directory. The root is none of its own.
pub fn is_entry_of(dir: u64, row: &FileRow) -> bool
    ensures { result ≡ is_entry_of dir row.now }
{
    row.parent == dir && row.number != 1
}

impl Tables {
    // The first class that refuses an operation on a file, whatever it is.
    #[tactic(auto, unfolding(nm_rules::specs::Files::file_checks))]
    fn file_stop(&self, file: u64, verdict: Verdict) -> Option<OpStatus>
        ensures { refusal result ≡ first (file_checks self.now file verdict) }
    {
        if let Some(status) = lease_refusal(verdict) {
            return Some(status);
        }
        self.missing_stop(file)
    }

    // The first class that refuses an operation on a directory.
    #[tactic(auto, unfolding(nm_rules::specs::Files::dir_checks, nm_rules::specs::Files::file_checks))]
    fn dir_stop(&self, dir: u64, verdict: Verdict) -> Option<OpStatus>
        ensures { refusal result ≡ first (dir_checks self.now dir verdict) }
    {
        if let Some(status) = lease_refusal(verdict) {
            return Some(status);
        }
        if let Some(status) = self.missing_stop(dir) {
            return Some(status);
        }
        refuse_if(self.is_no_dir(dir), OpStatus::NotDir)
    }

    // The first class that refuses a LOOKUP.
    #[tactic(auto, unfolding(nm_rules::specs::Files::lookup_checks, nm_rules::specs::Files::dir_checks, nm_rules::specs::Files::file_checks))]
    fn lookup_stop(&self, dir: u64, args: &LookupArgs, verdict: Verdict) -> Option<OpStatus>
        ensures { refusal result ≡ first (lookup_checks self.now dir args.now verdict) }
    {
        if let Some(status) = lease_refusal(verdict) {
            return Some(status);
        }
        if let Some(status) = self.missing_stop(dir) {
            return Some(status);
        }
        if let Some(status) = refuse_if(self.is_no_dir(dir), OpStatus::NotDir) {
            return Some(status);
        }
        if let Some(status) = name_stop(args.name.items()) {
            return Some(status);
        }
        refuse_if(
            self.tree.child(dir, args.name.items()).is_none(),
            OpStatus::NoEnt,
        )
    }

    // What an OK of GETATTR tells.
    fn getattr_value(&self, file: u64, args: &GetAttrArgs) -> Result<Option<GetAttrOk>, Memory>
        ensures { IfOk result (λ value. value ≡ getattr_value (current self.now file) args.now) }
    {
        match self.tree.row(file) {
            None => Ok(None),
            Some(row) => Ok(Some(GetAttrOk {
                attributes: attributes_of(row),
                words: args.words.copy()?,
            })),
        }
    }

    // The directory that a file is in.
    fn parent(&self, file: u64) -> Option<u64>
        ensures { result ≡ option_map (λ row. row.parent) (current self.now file) }
    {
        match self.tree.row(file) {
            None => None,
            Some(row) => Some(row.parent),
        }
    }

    /// What an ACCESS is answered.
    #[tactic(auto, unfolding(nm_rules::specs::Answer::answer_to))]
    pub fn access_answer(
        &self,
        caller: Option<Instance>,
        file: u64,
        args: &AccessArgs,
        verdict: Verdict,
    ) -> Result<Reply, Memory>
        ensures { IfOk result (λ r. r ≡ answer_to self.now (Asked (record { caller = caller; file = file; deed = AccessDeed args.now }) verdict)) }
    {
        let _ = caller;
        if let Some(status) = self.file_stop(file, verdict) {
            return Ok(self.reply(status, ReplyValue::Access(None)));
        }
        Ok(self.reply(OpStatus::Nfs4Ok, ReplyValue::Access(access_value(args))))
    }

    /// What a GETATTR is answered.
    #[tactic(auto, unfolding(nm_rules::specs::Answer::answer_to))]
    pub fn getattr_answer(
        &self,
        caller: Option<Instance>,
        file: u64,
        args: &GetAttrArgs,
        verdict: Verdict,
    ) -> Result<Reply, Memory>
        ensures { IfOk result (λ r. r ≡ answer_to self.now (Asked (record { caller = caller; file = file; deed = GetAttrDeed args.now }) verdict)) }
    {
        let _ = caller;
        if let Some(status) = self.file_stop(file, verdict) {
            return Ok(self.reply(status, ReplyValue::GetAttr(None)));
        }
        let value = self.getattr_value(file, args)?;
        Ok(self.reply(OpStatus::Nfs4Ok, ReplyValue::GetAttr(value)))
    }

    /// What a LOOKUP is answered.
    #[tactic(auto, unfolding(nm_rules::specs::Answer::answer_to))]
    pub fn lookup_answer(
        &self,
        caller: Option<Instance>,
        file: u64,
        args: &LookupArgs,
        verdict: Verdict,
    ) -> Result<Reply, Memory>
        ensures { IfOk result (λ r. r ≡ answer_to self.now (Asked (record { caller = caller; file = file; deed = LookupDeed args.now }) verdict)) }
    {
        let _ = caller;
        if let Some(status) = self.lookup_stop(file, args, verdict) {
            return Ok(self.reply(status, ReplyValue::Lookup(None)));
        }
        let child = self.tree.child(file, args.name.items());
        Ok(self.reply(OpStatus::Nfs4Ok, ReplyValue::Lookup(child)))
    }

    /// What a LOOKUPP is answered.
    #[tactic(auto, unfolding(nm_rules::specs::Answer::answer_to))]
    pub fn lookupp_answer(
        &self,
        caller: Option<Instance>,
        file: u64,
        verdict: Verdict,
    ) -> Result<Reply, Memory>
        ensures { IfOk result (λ r. r ≡ answer_to self.now (Asked (record { caller = caller; file = file; deed = LookupPDeed }) verdict)) }
    {
        let _ = caller;
        if let Some(status) = self.dir_stop(file, verdict) {
            return Ok(self.reply(status, ReplyValue::LookupP(None)));
        }
        let parent = self.parent(file);
        Ok(self.reply(OpStatus::Nfs4Ok, ReplyValue::LookupP(parent)))
    }
}
