//! Lines of the opens of one file system.
ghost use Rattle.std.specs.Prelude.{◌≡◌};
ghost use Rattle.nm_rules.specs.Opens.{is_share};

use crate::fault::Fault;
use crate::replies::append_id;
use crate::text::{append, append_bytes, append_debug, append_instance, append_number};
use crate::words::{chosen, number, open_owner, small};
use nm_shares::{Shares, State, is_share};
use nm_types::{FsNum, Memory, OpStatus, OpenRow, Owner, Refusal, StateId};
use std::alloc::Global;
use std::mem;

/// The opens that lines are about, and a copy that was made of them.
#[derive(Drop)]
pub(crate) struct Opens {
    now: Shares,
    kept: Shares,
}

#[derive(Clone, Copy)]
enum Verb {
    New,
    Copy,
    Swap,
    Open,
    Close,
    Confirm,
    Narrow,
    Draw,
    At,
    Show,
}

const VERBS: [(&str, Verb); 10] = [
    ("new", Verb::New),
    ("copy", Verb::Copy),
    ("swap", Verb::Swap),
    ("open", Verb::Open),
    ("close", Verb::Close),
    ("confirm", Verb::Confirm),
    ("narrow", Verb::Narrow),
    ("draw", Verb::Draw),
    ("at", Verb::At),
    ("show", Verb::Show),
];

// The opens of file system 0, which grants no delegations: none yet.
fn no_opens(alloc: Global) -> Result<Shares, Memory> {
    match FsNum::new(0) {
        Some(fs) => Ok(Shares::new(alloc, fs, false)),
        None => Err(Memory),
    }
}

// What a call that needs more than there is would have been.
fn not_asked(out: &mut Vec<u8>) -> Result<(), Fault> {
    Ok(append(out, b"not asked")?)
}

impl Opens {
    /// Twice no opens.
    pub(crate) fn new(alloc: Global) -> Result<Opens, Memory> {
        Ok(Opens {
            now: no_opens(alloc)?,
            kept: no_opens(alloc)?,
        })
    }

    /// What comes of a line, behind its first word.
    pub(crate) fn line(&mut self, words: &[&[u8]], out: &mut Vec<u8>) -> Result<(), Fault> {
        let [verb, args @ ..] = words else {
            return Err(Fault::Word);
        };
        match (chosen(&VERBS, verb)?, args) {
            (Verb::New, []) => self.now = no_opens(*out.allocator())?,
            (Verb::Copy, []) => self.kept = self.now.copy()?,
            (Verb::Swap, []) => mem::swap(&mut self.now, &mut self.kept),
            (Verb::Draw, []) => return self.draw(out),
            (Verb::Show, []) => return self.show(out),
            (Verb::Open, [who, text, file, access, deny]) => {
                let file = number(file)?;
                let access = small(access)?;
                let deny = small(deny)?;
                let owner = open_owner(*out.allocator(), who, text)?;
                return self.open(&owner, file, access, deny, out);
            }
            (Verb::At, [counter]) => return self.at(number(counter)?, out),
            (verb, [counter, args @ ..]) => return self.on_open(verb, number(counter)?, args, out),
            _ => return Err(Fault::Word),
        }
        Ok(append(out, verb)?)
    }

    // Opens a file, where there is room for a counter and the share is one.
    fn open(
        &mut self,
        owner: &Owner,
        file: u64,
        access: u32,
        deny: u32,
        out: &mut Vec<u8>,
    ) -> Result<(), Fault> {
        if !is_share(access, deny) {
            return not_asked(out);
        }
        if self.now.last() < 1 << 63 {
            return append_taken(self.now.take_open(owner, file, access, deny), out);
        }
        not_asked(out)
    }

    // Draws a counter, where there is room for one.
    fn draw(&mut self, out: &mut Vec<u8>) -> Result<(), Fault> {
        if self.now.last() < 1 << 63 {
            return Ok(append_number(out, self.now.draw())?);
        }
        not_asked(out)
    }

    // A line about the live open of a counter.
    fn on_open(
        &mut self,
        verb: Verb,
        counter: u64,
        args: &[&[u8]],
        out: &mut Vec<u8>,
    ) -> Result<(), Fault> {
        if self.now.open_at(counter).is_none() {
            return not_asked(out);
        }
        match (verb, args) {
            (Verb::Close, []) => append_state(self.now.close(counter), out),
            (Verb::Confirm, []) => append_state(self.now.confirm(counter), out),
            (Verb::Narrow, [access, deny]) => {
                let access = small(access)?;
                let deny = small(deny)?;
                append_narrowed(self.now.downgrade(counter, access, deny), out)
            }
            _ => Err(Fault::Word),
        }
    }

    // The live open of a counter.
    fn at(&self, counter: u64, out: &mut Vec<u8>) -> Result<(), Fault> {
        match self.now.open_at(counter) {
            Some(row) => append_open(row, out),
            None => Ok(append(out, b"none")?),
        }
    }

    fn show(&self, out: &mut Vec<u8>) -> Result<(), Fault> {
        append_number(out, self.now.rows().len() as u64)?;
        append(out, b" open last ")?;
        append_number(out, self.now.last())?;
        for row in self.now.rows() {
            append(out, b"; ")?;
            append_open(row, out)?;
        }
        Ok(())
    }
}

fn append_taken(taken: Result<State, Refusal>, out: &mut Vec<u8>) -> Result<(), Fault> {
    match taken {
        Ok(state) => append_state(state, out),
        Err(Refusal::Status(status)) => Ok(append_debug(out, &status)?),
        Err(Refusal::Memory) => Err(Fault::Memory),
    }
}

fn append_narrowed(narrowed: Result<State, OpStatus>, out: &mut Vec<u8>) -> Result<(), Fault> {
    match narrowed {
        Ok(state) => append_state(state, out),
        Err(status) => Ok(append_debug(out, &status)?),
    }
}

fn append_state(state: State, out: &mut Vec<u8>) -> Result<(), Fault> {
    let stateid = StateId {
        seqid: state.seqid,
        fs: 0,
        counter: state.counter,
    };
    Ok(append_id(out, stateid)?)
}

fn append_open(row: &OpenRow, out: &mut Vec<u8>) -> Result<(), Fault> {
    let state = State {
        counter: row.counter,
        seqid: row.seqid,
    };
    append_state(state, out)?;
    append(out, b" ")?;
    append_instance(out, &row.owner.instance)?;
    append(out, b" ")?;
    append_bytes(out, row.owner.text.items())?;
    append(out, b" ")?;
    append_number(out, row.file)?;
    append(out, b" ")?;
    append_number(out, u64::from(row.access))?;
    append(out, b" ")?;
    Ok(append_number(out, u64::from(row.deny))?)
}
