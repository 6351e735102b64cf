//! Lines of what is kept of owners, and of calls that are repeats.
use crate::deeds::call;
use crate::fault::Fault;
use crate::replies::append_reply;
use crate::text::{append, append_bytes, append_debug, append_instance, append_number};
use crate::words::{chosen, instance, number, open_owner, small};
use nm_owners::Owners;
use nm_types::{
    Call, Instance, Items, Memory, OpStatus, Owner, OwnerRow, Recall, Recalls, Reply, ReplyValue,
    StateId,
};
use std::alloc::Global;
use std::mem;

/// The owners that lines are about, a copy that was made of them, and a call that may be repeated.
#[derive(Drop)]
pub(crate) struct Known {
    now: Owners,
    kept: Owners,
    call: Option<Call>,
}

#[derive(Clone, Copy)]
enum Verb {
    New,
    Copy,
    Swap,
    Call,
    Again,
    Show,
    Drop,
    Judge,
    Note,
    Kept,
    Confirmed,
    Forget,
}

const VERBS: [(&str, Verb); 12] = [
    ("new", Verb::New),
    ("copy", Verb::Copy),
    ("swap", Verb::Swap),
    ("call", Verb::Call),
    ("again", Verb::Again),
    ("show", Verb::Show),
    ("drop", Verb::Drop),
    ("judge", Verb::Judge),
    ("note", Verb::Note),
    ("kept", Verb::Kept),
    ("confirmed", Verb::Confirmed),
    ("forget", Verb::Forget),
];

impl Known {
    /// Twice no owners, and no call.
    pub(crate) fn new(alloc: Global) -> Known {
        Known {
            now: Owners::new(alloc),
            kept: Owners::new(alloc),
            call: None,
        }
    }

    /// What comes of a line, behind its first word.
    pub(crate) fn line(&mut self, words: &[&[u8]], out: &mut Vec<u8>) -> Result<(), Fault> {
        let [verb, args @ ..] = words else {
            return Err(Fault::Word);
        };
        let alloc = *out.allocator();
        match (chosen(&VERBS, verb)?, args) {
            (Verb::New, []) => self.now = Owners::new(alloc),
            (Verb::Copy, []) => self.kept = self.now.copy()?,
            (Verb::Swap, []) => mem::swap(&mut self.now, &mut self.kept),
            (Verb::Call, asked) => self.call = Some(call(alloc, asked)?),
            (Verb::Drop, [who]) => self.now.drop_client(&instance(who)?),
            (Verb::Again, asked) => return self.again(asked, out),
            (Verb::Show, []) => return self.show(out),
            (verb, [who, text, args @ ..]) => return self.of(verb, who, text, args, out),
            _ => return Err(Fault::Word),
        }
        Ok(append(out, verb)?)
    }

    // Whether a call repeats the one that is kept.
    fn again(&self, words: &[&[u8]], out: &mut Vec<u8>) -> Result<(), Fault> {
        let call = call(*out.allocator(), words)?;
        Ok(append_debug(out, &self.repeats(&call)?)?)
    }

    fn repeats(&self, call: &Call) -> Result<bool, Fault> {
        match &self.call {
            Some(kept) => Ok(nm_rules::is_repeat(call, kept)),
            None => Err(Fault::Word),
        }
    }

    // A line about an owner, by its start of a client and its text.
    fn of(
        &mut self,
        verb: Verb,
        who: &[u8],
        text: &[u8],
        args: &[&[u8]],
        out: &mut Vec<u8>,
    ) -> Result<(), Fault> {
        let owner = open_owner(*out.allocator(), who, text)?;
        self.on_owner(verb, &owner, args, out)
    }

    fn on_owner(
        &mut self,
        verb: Verb,
        owner: &Owner,
        args: &[&[u8]],
        out: &mut Vec<u8>,
    ) -> Result<(), Fault> {
        match (verb, args) {
            (Verb::Judge, [seqid, asked @ ..]) => self.judge(owner, small(seqid)?, asked, out),
            (Verb::Note, [seqid, status, recalls, asked @ ..]) => {
                let seqid = small(seqid)?;
                let status = small(status)?;
                self.note(owner, seqid, status, number(recalls)?, asked, out)
            }
            (Verb::Kept, []) => self.kept(owner, out),
            (Verb::Confirmed, []) => Ok(append_debug(out, &self.now.is_confirmed(owner))?),
            (Verb::Forget, []) => {
                self.now.forget(owner);
                Ok(append(out, b"forget")?)
            }
            _ => Err(Fault::Word),
        }
    }

    // What the seqid of a call of an owner says of it.
    fn judge(
        &self,
        owner: &Owner,
        seqid: u32,
        words: &[&[u8]],
        out: &mut Vec<u8>,
    ) -> Result<(), Fault> {
        let call = call(*out.allocator(), words)?;
        Ok(append_debug(out, &self.now.judge(owner, seqid, &call))?)
    }

    // Notes a call of an owner and the reply to it: a status by its number, and so many delegations to recall.
    fn note(
        &mut self,
        owner: &Owner,
        seqid: u32,
        status: u32,
        recalls: u64,
        words: &[&[u8]],
        out: &mut Vec<u8>,
    ) -> Result<(), Fault> {
        let reply = reply(*out.allocator(), status, recalls, &owner.instance)?;
        self.note_reply(owner, seqid, words, &reply, out)?;
        Ok(append_reply(out, &reply)?)
    }

    fn note_reply(
        &mut self,
        owner: &Owner,
        seqid: u32,
        words: &[&[u8]],
        reply: &Reply,
        out: &Vec<u8>,
    ) -> Result<(), Fault> {
        let call = call(*out.allocator(), words)?;
        Ok(self.now.note(owner, seqid, &call, reply)?)
    }

    // The reply that is kept of an owner.
    fn kept(&self, owner: &Owner, out: &mut Vec<u8>) -> Result<(), Fault> {
        match self.now.kept(owner) {
            Some(reply) => Ok(append_reply(out, reply)?),
            None => Ok(append(out, b"none")?),
        }
    }

    fn show(&self, out: &mut Vec<u8>) -> Result<(), Fault> {
        append_number(out, self.now.rows().len() as u64)?;
        append(out, b" known")?;
        for row in self.now.rows() {
            append_owner(out, row)?;
        }
        Ok(())
    }
}

// A reply of the status of that number, with so many delegations to recall, all of that start of a client.
fn reply(alloc: Global, status: u32, recalls: u64, instance: &Instance) -> Result<Reply, Fault> {
    let Some(status) = OpStatus::read(status) else {
        return Err(Fault::Number);
    };
    Ok(Reply {
        status,
        value: ReplyValue::Nothing,
        recalls: recalls_of(alloc, recalls, instance)?,
    })
}

fn recalls_of(alloc: Global, count: u64, instance: &Instance) -> Result<Recalls, Memory> {
    let mut recalls = Items::new(alloc);
    for counter in 0..count {
        recalls.push(Recall {
            instance: instance.share(),
            stateid: StateId {
                seqid: 1,
                fs: 0,
                counter: counter.saturating_add(1),
            },
            file: 16,
        })?;
    }
    Ok(recalls)
}

// Writes an owner, its last seqid, whether it is confirmed, and the reply that is kept.
fn append_owner(out: &mut Vec<u8>, row: &OwnerRow) -> Result<(), Memory> {
    append(out, b"; ")?;
    append_instance(out, &row.owner.instance)?;
    append(out, b" ")?;
    append_bytes(out, row.owner.text.items())?;
    append(out, b" ")?;
    append_number(out, u64::from(row.seqid))?;
    append(out, if row.confirmed { b" confirmed " } else { b" " })?;
    append_reply(out, &row.reply)
}
