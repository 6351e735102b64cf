//! READDIR (RFC 7530, 16.24): the entries of a directory behind a cookie, as many as there is room for.
ghost use Rattle.std.specs.Prelude.{◌≡◌, ◌-◌, Some, IfOk, option_copied};
ghost use Rattle.nm_rules.specs.Answer.{answer_to};
ghost use Rattle.nm_rules.specs.Checks.{first, refusal};
ghost use Rattle.nm_rules.specs.Files.{asks_any, entry_of, entry_size, fitting, is_listed, is_too_small, listed, readdir_checks, readdir_rows, readdir_value, reply_size};
ghost use Rattle.nm_types.specs.declared.calls.Deed.TheVariants.{ReadDir as ReadDirDeed};
ghost use Rattle.nm_types.specs.declared.calls.Event.TheVariants.{Asked};
ghost use Rattle.nm_state.specs.Pages.{IsPage, first_listed, has_no_room};

use crate::checks::{lease_refusal, refuse_if};
use crate::names::{attributes_of, is_entry_of};
use crate::tables::Tables;
use nm_types::{
    DirEntry, FileRow, Instance, Items, Memory, OpStatus, ReadDirArgs, ReadDirOk, Reply,
    ReplyValue, Verdict,
};
use std::alloc::Global;

// What a reply counts without its entries.
const REPLY_SIZE: u64 = 16;

// An attribute is asked.
#[tactic(auto, unfolding(nm_rules::specs::Files::asks_any))]
fn asks_any(words: &[u32]) -> bool
    ensures { result ≡ asks_any words.now }
{
    words.iter().any(|word| *word != 0)
}

// The row is an entry of the directory behind the cookie.
fn is_listed(dir: u64, cookie: u64, row: &FileRow) -> bool
    ensures { result ≡ is_listed dir cookie row.now }
{
    is_entry_of(dir, row) && cookie < row.number
}

// What an entry counts: 24 bytes, its name up to a multiple of 4, and 256 more where an attribute is asked.
#[tactic(auto, unfolding(nm_rules::specs::Files::entry_size))]
fn entry_size(asks: bool, row: &FileRow) -> u64
    ensures { result ≡ entry_size asks row.now }
{
    let length = row.name.items().len() as u64;
    let attributes = if asks { 256 } else { 0 };
    24 + (length + (4 - length % 4) % 4) + attributes
}

// An entry of a reply.
fn entry_of(asks: bool, row: &FileRow) -> Result<DirEntry, Memory>
    ensures { IfOk result (λ entry. entry ≡ entry_of asks row.now) }
{
    Ok(DirEntry {
        cookie: row.number,
        name: row.name.copy()?,
        attributes: if asks { Some(attributes_of(row)) } else { None },
    })
}

// The entries that there is room for, and whether they are all.
fn page(
    alloc: Global,
    rows: &[FileRow],
    dir: u64,
    cookie: u64,
    asks: bool,
    room: u64,
) -> Result<(Items<DirEntry>, bool), Memory>
    ensures { IfOk result (λ page. IsPage dir cookie asks room rows.now page.0 page.1) }
{
    let mut entries = Items::new(alloc);
    let mut left = room;
    for row in rows {
        if !is_listed(dir, cookie, row) {
            continue;
        }
        let size = entry_size(asks, row);
        if left < size {
            return Ok((entries, false));
        }
        left -= size;
        entries.push(entry_of(asks, row)?)?;
    }
    Ok((entries, true))
}

// The first entry behind the cookie.
#[tactic(auto, unfolding(crate::specs::Pages::first_listed))]
fn first_listed(rows: &[FileRow], dir: u64, cookie: u64) -> Option<&FileRow>
    ensures { option_copied result ≡ first_listed dir cookie rows.now }
{
    rows.iter().find(|row| is_listed(dir, cookie, row))
}

// There is a first entry, and no room for it.
#[tactic(auto, unfolding(crate::specs::Pages::has_no_room))]
fn has_no_room(asks: bool, room: u64, row: Option<&FileRow>) -> bool
    ensures { result ≡ has_no_room asks room (option_copied row.entry) }
{
    match row {
        None => false,
        Some(row) => room < entry_size(asks, row),
    }
}

// The bytes of a reply's entries.
fn room_in(args: &ReadDirArgs) -> u64
    ensures { result ≡ args.now.maxcount - reply_size }
{
    u64::from(args.maxcount).saturating_sub(REPLY_SIZE)
}

impl Tables {
    // There are entries, and not even the first has room.
    #[tactic(auto, using(crate::proofs::PageLemmas::first_has_no_room), unfolding(nm_rules::specs::Files::readdir_rows))]
    fn is_too_small(&self, dir: u64, args: &ReadDirArgs) -> bool
        ensures { result ≡ is_too_small (listed dir args.now.cookie self.now.tree.table) (readdir_rows self.now dir args.now) }
    {
        let row = first_listed(self.tree.rows(), dir, args.cookie);
        has_no_room(asks_any(args.words.items()), room_in(args), row)
    }

    // The first class that refuses a READDIR.
    #[tactic(auto, unfolding(nm_rules::specs::Files::readdir_checks, nm_rules::specs::Files::dir_checks, nm_rules::specs::Files::file_checks))]
    fn readdir_stop(&self, dir: u64, args: &ReadDirArgs, verdict: Verdict) -> Option<OpStatus>
        ensures { refusal result ≡ first (readdir_checks self.now dir args.now verdict) }
    {
        if let Some(status) = lease_refusal(verdict) {
            return Some(status);
        }
        if let Some(status) = self.missing_stop(dir) {
            return Some(status);
        }
        if let Some(status) = refuse_if(self.is_no_dir(dir), OpStatus::NotDir) {
            return Some(status);
        }
        if let Some(status) = refuse_if(args.verifier != 0, OpStatus::NotSame) {
            return Some(status);
        }
        refuse_if(self.is_too_small(dir, args), OpStatus::TooSmall)
    }

    // What an OK of READDIR tells.
    #[tactic(auto, unfolding(nm_rules::specs::Files::readdir_value, nm_rules::specs::Files::readdir_rows))]
    fn readdir_value(&self, dir: u64, args: &ReadDirArgs) -> Result<ReadDirOk, Memory>
        ensures { IfOk result (λ value. Some value ≡ readdir_value self.now dir args.now) }
    {
        let asks = asks_any(args.words.items());
        let (entries, eof) = page(
            self.alloc,
            self.tree.rows(),
            dir,
            args.cookie,
            asks,
            room_in(args),
        )?;
        Ok(ReadDirOk {
            words: args.words.copy()?,
            entries,
            eof,
        })
    }

    /// What a READDIR is answered.
    #[tactic(auto, unfolding(nm_rules::specs::Answer::answer_to))]
    pub fn readdir_answer(
        &self,
        caller: Option<Instance>,
        file: u64,
        args: &ReadDirArgs,
        verdict: Verdict,
    ) -> Result<Reply, Memory>
        ensures { IfOk result (λ r. r ≡ answer_to self.now (Asked (record { caller = caller; file = file; deed = ReadDirDeed args.now }) verdict)) }
    {
        let _ = caller;
        if let Some(status) = self.readdir_stop(file, args, verdict) {
            return Ok(self.reply(status, ReplyValue::ReadDir(None)));
        }
        let value = self.readdir_value(file, args)?;
        Ok(self.reply(OpStatus::Nfs4Ok, ReplyValue::ReadDir(Some(value))))
    }
}
