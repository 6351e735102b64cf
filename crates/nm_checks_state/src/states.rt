//! Lines of one file system's state: what is asked of it, and what it shows.
use crate::deeds::call;
use crate::fault::Fault;
use crate::replies::{append_id, append_range, append_reply};
use crate::text::{append, append_bytes, append_debug, append_instance, append_number};
use crate::words::{chosen, instance, named};
use nm_state::FsState;
use nm_types::{Event, FsNum, HeldKind, HeldRow, Memory, Reply, StateId, Verdict};
use std::alloc::Global;
use std::mem;

/// The file system that lines are about, and a copy that was made of it.
#[derive(Drop)]
pub(crate) struct States {
    now: FsState,
    kept: FsState,
}

#[derive(Clone, Copy)]
enum Verb {
    New,
    Ask,
    Moved,
    End,
    Gone,
    Show,
    Holders,
    Holder,
    Has,
}

const VERBS: [(&str, Verb); 9] = [
    ("fs", Verb::New),
    ("ask", Verb::Ask),
    ("moved", Verb::Moved),
    ("end", Verb::End),
    ("gone", Verb::Gone),
    ("show", Verb::Show),
    ("holders", Verb::Holders),
    ("holder", Verb::Holder),
    ("has", Verb::Has),
];

// A file system, number 0, with no file but the root. It grants no delegations.
fn no_files(alloc: Global) -> Result<FsState, Memory> {
    match FsNum::new(0) {
        Some(fs) => FsState::new(alloc, fs, false),
        None => Err(Memory),
    }
}

impl States {
    /// Two file systems with no files.
    pub(crate) fn new(alloc: Global) -> Result<States, Memory> {
        Ok(States {
            now: no_files(alloc)?,
            kept: no_files(alloc)?,
        })
    }

    /// What comes of a line.
    pub(crate) fn line(&mut self, words: &[&[u8]], out: &mut Vec<u8>) -> Result<(), Fault> {
        let [verb, args @ ..] = words else {
            return Err(Fault::Word);
        };
        match (chosen(&VERBS, verb)?, args) {
            (Verb::New, [what]) => self.change(what, out),
            (Verb::Ask, asked) => self.ask(asked, Verdict::Pass, out),
            (Verb::Moved, asked) => self.ask(asked, Verdict::LeaseMoved, out),
            (Verb::End, [who]) => self.end(who, out),
            (Verb::Gone, [who]) => self.gone(who, out),
            (Verb::Show, []) => self.show(out),
            (Verb::Holders, []) => self.holders(out),
            (Verb::Holder, [id]) => self.holder(named(id)?, out),
            (Verb::Has, [who]) => Ok(append_debug(out, &self.now.has(&instance(who)?))?),
            _ => Err(Fault::Word),
        }
    }

    // Begins anew, copies, or goes on with the copy.
    fn change(&mut self, what: &[u8], out: &mut Vec<u8>) -> Result<(), Fault> {
        match what {
            b"new" => self.now = no_files(*out.allocator())?,
            b"copy" => self.kept = self.now.copy()?,
            b"swap" => mem::swap(&mut self.now, &mut self.kept),
            _ => return Err(Fault::Word),
        }
        Ok(append(out, what)?)
    }

    // The reply that is told before an event.
    fn told(&self, event: &Event, out: &mut Vec<u8>) -> Result<(), Memory> {
        append_reply(out, &self.now.answer(event)?)
    }

    // A copy of the reply to an event. The reply is dropped before it is printed.
    fn copied(&mut self, event: &Event) -> Result<Reply, Memory> {
        self.now.apply(event)?.copy()
    }

    fn replied(&mut self, event: &Event, out: &mut Vec<u8>) -> Result<(), Memory> {
        append_reply(out, &self.copied(event)?)
    }

    // What a call is answered.
    fn ask(&mut self, words: &[&[u8]], verdict: Verdict, out: &mut Vec<u8>) -> Result<(), Fault> {
        let event = Event::Asked(call(*out.allocator(), words)?, verdict);
        self.step(&event, out)
    }

    // What the end of an instance is answered.
    fn end(&mut self, who: &[u8], out: &mut Vec<u8>) -> Result<(), Fault> {
        let event = Event::Ended(instance(who)?);
        self.step(&event, out)
    }

    // What an event is answered, and what was told before, where that is another reply.
    fn step(&mut self, event: &Event, out: &mut Vec<u8>) -> Result<(), Fault> {
        let mut told = Vec::new(*out.allocator());
        self.told(event, &mut told)?;
        let mut replied = Vec::new(*out.allocator());
        self.replied(event, &mut replied)?;
        append(out, &replied)?;
        if told.as_slice() != replied.as_slice() {
            append(out, b" but told ")?;
            append(out, &told)?;
        }
        Ok(())
    }

    // An instance goes without an event.
    fn gone(&mut self, who: &[u8], out: &mut Vec<u8>) -> Result<(), Fault> {
        self.now.end(&instance(who)?);
        Ok(append(out, b"gone")?)
    }

    // What is held.
    fn show(&self, out: &mut Vec<u8>) -> Result<(), Fault> {
        let table = self.now.table()?;
        append_number(out, table.items().len() as u64)?;
        append(out, b" held")?;
        for row in table.items() {
            append_row(out, row)?;
        }
        Ok(())
    }

    // The holders, and how many rows there are.
    fn holders(&self, out: &mut Vec<u8>) -> Result<(), Fault> {
        append_number(out, self.now.rows() as u64)?;
        append(out, b" rows")?;
        for holder in self.now.holders()?.iter() {
            append(out, b" ")?;
            append_instance(out, holder)?;
        }
        Ok(())
    }

    // Whose a stateid is.
    fn holder(&self, stateid: StateId, out: &mut Vec<u8>) -> Result<(), Fault> {
        match self.now.holder_of(stateid) {
            Ok(holder) => Ok(append_instance(out, &holder)?),
            Err(status) => Ok(append_debug(out, &status)?),
        }
    }
}

// Writes a stateid and what it stands for.
fn append_row(out: &mut Vec<u8>, row: &HeldRow) -> Result<(), Memory> {
    append(out, b"; ")?;
    let stateid = StateId {
        seqid: row.seqid,
        fs: 0,
        counter: row.counter,
    };
    append_id(out, stateid)?;
    append(out, b" ")?;
    append_instance(out, &row.instance)?;
    append(out, b" ")?;
    append_bytes(out, row.owner.items())?;
    append(out, b" ")?;
    append_number(out, row.file)?;
    append(out, b" ")?;
    append_bytes(out, row.name.items())?;
    append_held(out, &row.row)
}

fn append_held(out: &mut Vec<u8>, held: &HeldKind) -> Result<(), Memory> {
    match held {
        HeldKind::Open { access, deny } => {
            append(out, b" open ")?;
            append_number(out, u64::from(*access))?;
            append(out, b" ")?;
            append_number(out, u64::from(*deny))
        }
        HeldKind::Lock { ranges } => {
            append(out, b" lock")?;
            for range in ranges.items() {
                append_range(out, *range)?;
            }
            Ok(())
        }
    }
}
