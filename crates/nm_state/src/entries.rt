//! CREATE and REMOVE (RFC 7530, 16.4 and 16.26): directories are made, and names are taken away.
ghost use Rattle.std.specs.Prelude.{◌≡◌, ◌+◌, false, Some, IfOk, OnOk};
ghost use Rattle.nm_rules.specs.Answer.{answer_to};
ghost use Rattle.nm_rules.specs.Attributes.{asks_of};
ghost use Rattle.nm_rules.specs.Checks.{first, refusal};
ghost use Rattle.nm_rules.specs.Contents.TreeWord.{Made, Removed};
ghost use Rattle.nm_rules.specs.Files.{changes_past_end, create_checks, create_fault, create_value, has_entries, is_open, is_some_size, makes_past_end, remove_checks, remove_conflict, sizes_directory, type_fault};
ghost use Rattle.nm_rules.specs.Past.{new_directory};
ghost use Rattle.nm_types.specs.declared.calls.Deed.TheVariants.{Create as CreateDeed, Remove as RemoveDeed};
ghost use Rattle.nm_types.specs.declared.calls.Event.TheVariants.{Asked};
ghost use Rattle.nm_state.specs.Asked.{asks_of_code};
ghost use Rattle.nm_state.specs.Opening.{Applied, after_word};

use crate::attributes::{self, asks_of, set_words};
use crate::checks::{arguments_fault, lease_refusal, refuse_if};
use crate::names::{is_entry_of, name_stop};
use crate::tables::Tables;
use nm_types::{
    Bytes, CreateArgs, CreateOk, CreateType, Created, FileKind, FileRow, Instance, Memory,
    OpStatus, RemoveArgs, Reply, ReplyValue, Verdict,
};

// What CREATE doesn't make.
#[tactic(auto, unfolding(nm_rules::specs::Files::type_fault))]
fn type_fault(kind: &CreateType) -> Option<OpStatus>
    ensures { result ≡ type_fault kind.now }
{
    match kind {
        CreateType::Directory => None,
        CreateType::Link(_) => Some(OpStatus::NotSupp),
        CreateType::File => Some(OpStatus::BadType),
        CreateType::Block(_) => Some(OpStatus::BadType),
        CreateType::Character(_) => Some(OpStatus::BadType),
        CreateType::Socket => Some(OpStatus::BadType),
        CreateType::Fifo => Some(OpStatus::BadType),
        CreateType::AttributeDirectory => Some(OpStatus::BadType),
        CreateType::NamedAttribute => Some(OpStatus::BadType),
    }
}

// A directory has no size to set.
#[tactic(auto, unfolding(nm_rules::specs::Files::sizes_directory))]
fn sizes_directory(kind: &CreateType, asks: attributes::Asked) -> bool
    ensures { result ≡ sizes_directory kind.now (asks_of_code asks) }
{
    match kind {
        CreateType::Directory => is_some(asks.size()),
        CreateType::Link(_) => false,
        CreateType::File => false,
        CreateType::Block(_) => false,
        CreateType::Character(_) => false,
        CreateType::Socket => false,
        CreateType::Fifo => false,
        CreateType::AttributeDirectory => false,
        CreateType::NamedAttribute => false,
    }
}

// A size is given.
fn is_some(size: Option<u64>) -> bool
    ensures { result ≡ is_some_size size }
{
    match size {
        None => false,
        Some(_) => true,
    }
}

// What is wrong with the arguments of a CREATE.
#[tactic(auto, unfolding(nm_rules::specs::Files::create_fault))]
fn create_fault(args: &CreateArgs) -> Option<OpStatus>
    ensures { result ≡ create_fault args.now }
{
    let asks = asks_of(&args.attributes);
    let invalid = sizes_directory(&args.kind, asks);
    arguments_fault(invalid, args.name.items(), asks).or(type_fault(&args.kind))
}

impl Tables {
    // The first class that refuses a CREATE.
    #[tactic(auto, unfolding(nm_rules::specs::Files::create_checks, nm_rules::specs::Files::dir_checks, nm_rules::specs::Files::file_checks))]
    fn create_stop(&self, dir: u64, args: &CreateArgs, verdict: Verdict) -> Option<OpStatus>
        ensures { refusal result ≡ first (create_checks self.now dir args.now verdict) }
    {
        if let Some(status) = lease_refusal(verdict) {
            return Some(status);
        }
        if let Some(status) = self.missing_stop(dir) {
            return Some(status);
        }
        if let Some(status) = refuse_if(self.is_no_dir(dir), OpStatus::NotDir) {
            return Some(status);
        }
        if let Some(status) = create_fault(args) {
            return Some(status);
        }
        let is_there = self.tree.child(dir, args.name.items()).is_some();
        if let Some(status) = refuse_if(is_there, OpStatus::Exist) {
            return Some(status);
        }
        refuse_if(self.makes_past_end(), OpStatus::Resource)
    }

    // What an OK of CREATE leaves.
    #[tactic(auto, unfolding(nm_rules::specs::Files::create_value))]
    fn created(&self, dir: u64, args: &CreateArgs) -> Result<Created, Memory>
        ensures { IfOk result (λ created. Some created ≡ create_value self.now dir args.now) }
    {
        let attrset = set_words(self.alloc, None, asks_of(&args.attributes).mode())?;
        Ok(Created {
            ok: CreateOk {
                cinfo: self.changed_dir(dir),
                attrset,
            },
            file: self.tree.last_file() + 1,
        })
    }

    // The directory that a CREATE makes: with mode 0755, unless the attributes say otherwise.
    fn new_directory(&self, dir: u64, args: &CreateArgs) -> Result<FileRow, Memory>
        ensures { IfOk result (λ row. row ≡ new_directory (self.now.tree.last_file + 1) dir args.now.name (asks_of args.now.attributes)) }
    {
        Ok(FileRow {
            number: self.tree.last_file() + 1,
            parent: dir,
            name: args.name.copy()?,
            kind: FileKind::Directory,
            mode: asks_of(&args.attributes).mode().unwrap_or(0o755),
            change: 0,
            verifier: None,
            bytes: Bytes::new(self.alloc),
        })
    }

    // Makes the directory of a CREATE.
    #[tactic(auto, using(crate::proofs::EditLemmas::makes_changes, crate::proofs::EditLemmas::makes_files), unfolding(crate::specs::Opening::after_word))]
    fn make_directory(&mut self, dir: u64, args: &CreateArgs) -> Result<(), Memory>
        requires { makes_past_end self.old ≡ false }
        ensures { OnOk result (self.new ≡ after_word (Made (new_directory (self.old.tree.last_file + 1) dir args.now.name (asks_of args.now.attributes))) self.old) }
    {
        let row = self.new_directory(dir, args)?;
        // The bytes of all files are within their limit, and it has none.
        let _ = self.tree.total_size();
        Ok(self.tree.add(row)?)
    }

    // What stands against a REMOVE: opens of the file, and entries of a directory.
    fn remove_conflict(&self, file: Option<u64>) -> Option<OpStatus>
        ensures { result ≡ remove_conflict self.now file }
    {
        match file {
            None => None,
            Some(file) => refuse_if(self.is_open(file), OpStatus::FileOpen).or(refuse_if(
                self.has_entries(file),
                OpStatus::NotEmpty,
            )),
        }
    }

    // Some open of the file stands.
    #[tactic(auto, unfolding(nm_rules::specs::Files::is_open))]
    fn is_open(&self, file: u64) -> bool
        ensures { result ≡ is_open file self.now.opens }
    {
        self.shares.rows().iter().any(|row| row.file == file)
    }

    // Some file is in the directory.
    #[tactic(auto, unfolding(nm_rules::specs::Files::has_entries))]
    fn has_entries(&self, dir: u64) -> bool
        ensures { result ≡ has_entries dir self.now.tree.table }
    {
        self.tree.rows().iter().any(|row| is_entry_of(dir, row))
    }

    // The first class that refuses a REMOVE.
    #[tactic(auto, unfolding(nm_rules::specs::Files::remove_checks, nm_rules::specs::Files::dir_checks, nm_rules::specs::Files::file_checks))]
    fn remove_stop(&self, dir: u64, args: &RemoveArgs, verdict: Verdict) -> Option<OpStatus>
        ensures { refusal result ≡ first (remove_checks self.now dir args.now verdict) }
    {
        if let Some(status) = lease_refusal(verdict) {
            return Some(status);
        }
        if let Some(status) = self.missing_stop(dir) {
            return Some(status);
        }
        if let Some(status) = refuse_if(self.is_no_dir(dir), OpStatus::NotDir) {
            return Some(status);
        }
        if let Some(status) = name_stop(args.name.items()) {
            return Some(status);
        }
        let child = self.tree.child(dir, args.name.items());
        if let Some(status) = refuse_if(child.is_none(), OpStatus::NoEnt) {
            return Some(status);
        }
        if let Some(status) = self.remove_conflict(child) {
            return Some(status);
        }
        refuse_if(self.changes_past_end(), OpStatus::Resource)
    }

    // Takes a name from a directory.
    #[tactic(auto, using(crate::proofs::EditLemmas::below_end), unfolding(crate::specs::Opening::after_word))]
    fn drop_name(&mut self, dir: u64, name: &[u8])
        requires { changes_past_end self.old ≡ false }
        ensures { self.new ≡ after_word (Removed dir name.now) self.old }
    {
        self.tree.drop_name(dir, name);
    }

    /// What a CREATE is answered.
    #[tactic(auto, unfolding(nm_rules::specs::Answer::answer_to))]
    pub fn create_answer(
        &self,
        caller: Option<Instance>,
        file: u64,
        args: &CreateArgs,
        verdict: Verdict,
    ) -> Result<Reply, Memory>
        ensures { IfOk result (λ r. r ≡ answer_to self.now (Asked (record { caller = caller; file = file; deed = CreateDeed args.now }) verdict)) }
    {
        let _ = caller;
        if let Some(status) = self.create_stop(file, args, verdict) {
            return Ok(self.reply(status, ReplyValue::Create(None)));
        }
        let created = self.created(file, args)?;
        Ok(self.reply(OpStatus::Nfs4Ok, ReplyValue::Create(Some(created))))
    }

    /// Answers a CREATE, and makes its directory where nothing stops it.
    pub fn create(
        &mut self,
        caller: Option<Instance>,
        file: u64,
        args: &CreateArgs,
        verdict: Verdict,
    ) -> Result<Reply, Memory>
        ensures { IfOk result (λ r. Applied self.old (Asked (record { caller = caller; file = file; deed = CreateDeed args.now }) verdict) r self.new) }
    {
        let _ = caller;
        if let Some(status) = self.create_stop(file, args, verdict) {
            return Ok(self.reply(status, ReplyValue::Create(None)));
        }
        let created = self.created(file, args)?;
        self.make_directory(file, args)?;
        Ok(self.reply(OpStatus::Nfs4Ok, ReplyValue::Create(Some(created))))
    }

    /// What a REMOVE is answered.
    #[tactic(auto, unfolding(nm_rules::specs::Answer::answer_to))]
    pub fn remove_answer(
        &self,
        caller: Option<Instance>,
        file: u64,
        args: &RemoveArgs,
        verdict: Verdict,
    ) -> Result<Reply, Memory>
        ensures { IfOk result (λ r. r ≡ answer_to self.now (Asked (record { caller = caller; file = file; deed = RemoveDeed args.now }) verdict)) }
    {
        let _ = caller;
        if let Some(status) = self.remove_stop(file, args, verdict) {
            return Ok(self.reply(status, ReplyValue::Remove(None)));
        }
        let change = self.changed_dir(file);
        Ok(self.reply(OpStatus::Nfs4Ok, ReplyValue::Remove(Some(change))))
    }

    /// Answers a REMOVE, and takes its name away where nothing stops it.
    pub fn remove(
        &mut self,
        caller: Option<Instance>,
        file: u64,
        args: &RemoveArgs,
        verdict: Verdict,
    ) -> Result<Reply, Memory>
        ensures { IfOk result (λ r. Applied self.old (Asked (record { caller = caller; file = file; deed = RemoveDeed args.now }) verdict) r self.new) }
    {
        let _ = caller;
        if let Some(status) = self.remove_stop(file, args, verdict) {
            return Ok(self.reply(status, ReplyValue::Remove(None)));
        }
        let change = self.changed_dir(file);
        self.drop_name(file, args.name.items());
        Ok(self.reply(OpStatus::Nfs4Ok, ReplyValue::Remove(Some(change))))
    }
}
