//! Lines of the byte-range locks of one file.
use crate::fault::Fault;
use crate::replies::append_range;
use crate::text::{append, append_debug, append_number};
use crate::words::{chosen, number};
use nm_ranges::{Held, Ranges};
use nm_types::{LockKind, LockRange};
use std::alloc::Global;
use std::mem;

/// The locks that lines are about, and a copy that was made of them.
#[derive(Drop)]
pub(crate) struct Locks {
    now: Ranges,
    kept: Ranges,
}

#[derive(Clone, Copy)]
enum Verb {
    New,
    Copy,
    Swap,
    Lock,
    Unlock,
    Gone,
    Holds,
    Show,
}

const VERBS: [(&str, Verb); 8] = [
    ("new", Verb::New),
    ("copy", Verb::Copy),
    ("swap", Verb::Swap),
    ("lock", Verb::Lock),
    ("unlock", Verb::Unlock),
    ("gone", Verb::Gone),
    ("holds", Verb::Holds),
    ("show", Verb::Show),
];

const KINDS: [(&str, LockKind); 2] = [("r", LockKind::Read), ("w", LockKind::Write)];

impl Locks {
    /// Twice no locks.
    pub(crate) fn new(alloc: Global) -> Locks {
        Locks {
            now: Ranges::new(alloc),
            kept: Ranges::new(alloc),
        }
    }

    /// What comes of a line, behind its first word.
    pub(crate) fn line(&mut self, words: &[&[u8]], out: &mut Vec<u8>) -> Result<(), Fault> {
        let [verb, args @ ..] = words else {
            return Err(Fault::Word);
        };
        match (chosen(&VERBS, verb)?, args) {
            (Verb::New, []) => self.now = Ranges::new(*out.allocator()),
            (Verb::Copy, []) => self.kept = self.now.copy()?,
            (Verb::Swap, []) => mem::swap(&mut self.now, &mut self.kept),
            (Verb::Gone, [owner]) => self.now.drop_owner(number(owner)?),
            (Verb::Show, []) => return self.show(out),
            (Verb::Holds, [owner]) => {
                return Ok(append_debug(out, &self.now.held_by(number(owner)?))?);
            }
            (Verb::Lock, [owner, kind, first, last]) => {
                let asked = Held {
                    owner: number(owner)?,
                    kind: chosen(&KINDS, kind)?,
                    first: number(first)?,
                    last: number(last)?,
                };
                return self.lock(asked, out);
            }
            (Verb::Unlock, [owner, first, last]) => {
                return self.unlock(number(owner)?, number(first)?, number(last)?, out);
            }
            _ => return Err(Fault::Word),
        }
        Ok(append(out, verb)?)
    }

    // Locks a range, or tells what is in the way.
    fn lock(&mut self, asked: Held, out: &mut Vec<u8>) -> Result<(), Fault> {
        let Held {
            owner,
            kind,
            first,
            last,
        } = asked;
        if last < first {
            return Ok(append(out, b"not asked")?);
        }
        match self.now.conflict(owner, kind, first, last) {
            Some(held) => {
                append(out, b"denied ")?;
                append_held(held, out)
            }
            None => {
                let counted = self.now.count_with_set(owner, kind, first, last);
                self.now.set(owner, kind, first, last)?;
                self.counted(counted, out)
            }
        }
    }

    fn unlock(
        &mut self,
        owner: u64,
        first: u64,
        last: u64,
        out: &mut Vec<u8>,
    ) -> Result<(), Fault> {
        if last < first {
            return Ok(append(out, b"not asked")?);
        }
        let counted = self.now.count_with_clear(owner, first, last);
        self.now.clear(owner, first, last)?;
        self.counted(counted, out)
    }

    // How many ranges there are, and how many were counted before.
    fn counted(&self, counted: usize, out: &mut Vec<u8>) -> Result<(), Fault> {
        append_number(out, self.now.rows().len() as u64)?;
        append(out, b" of ")?;
        Ok(append_number(out, counted as u64)?)
    }

    fn show(&self, out: &mut Vec<u8>) -> Result<(), Fault> {
        append_number(out, self.now.rows().len() as u64)?;
        append(out, b" held")?;
        for held in self.now.rows() {
            append(out, b"; ")?;
            append_held(*held, out)?;
        }
        Ok(())
    }
}

fn append_held(held: Held, out: &mut Vec<u8>) -> Result<(), Fault> {
    append_number(out, held.owner)?;
    let range = LockRange {
        kind: held.kind,
        first: held.first,
        last: held.last,
    };
    Ok(append_range(out, range)?)
}
