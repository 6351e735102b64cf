//! Lines of journals: the latest entries of a file system one by one, and how many have gone into the state before them.
ghost use Rattle.std.specs.Prelude.{◌≡◌, ◌≤◌, ◌+◌, length, OnOk, IfOk, false};

use crate::fault::Fault;
use crate::leases::{append_client, append_counted, instances};
use crate::named::Named;
use crate::text::append;
use crate::words::{chosen, instance, small};
use nm_journal::Journal;
use nm_state::FsState;
use nm_types::{Entry, Event, FsNum, Instance, Items, Memory, OpStatus, Reply, ReplyValue};
use std::alloc::Global;

/// A journal of file system 0, and how many entries it keeps at most.
#[derive(Drop)]
pub(crate) struct Kept {
    journal: Journal,
    keep: u32,
    ghost keeps: { journal.keep ≡ keep },
}

#[derive(Clone, Copy)]
enum Verb {
    New,
    Room,
    Ends,
    Add,
    Into,
}

const VERBS: [(&str, Verb); 5] = [
    ("new", Verb::New),
    ("room", Verb::Room),
    ("ends", Verb::Ends),
    ("add", Verb::Add),
    ("into", Verb::Into),
];

// A journal of a file system without files, which keeps so many entries.
fn new_journal(alloc: Global, keep: u32) -> Result<Kept, Fault> {
    let fs = FsNum::new(0).ok_or(Fault::Number)?;
    Ok(Kept {
        journal: Journal::new(alloc, keep, FsState::new(alloc, fs, false)?),
        keep,
    })
}

// Makes room for so many entries.
fn room(journal: &mut Journal, places: u32) -> Result<(), Fault>
    ensures keep { journal.new.keep ≡ journal.old.keep }
{
    if journal.is_spent() {
        return Err(Fault::Memory);
    }
    Ok(journal.make_room(places)?)
}

// Makes room for the ends of these, and adds them.
fn end_all(journal: &mut Journal, clients: &[Instance]) -> Result<(), Fault>
    ensures keep { journal.new.keep ≡ journal.old.keep }
{
    if clients.len() > 1 << 16 {
        return Err(Fault::Number);
    }
    if journal.is_spent() {
        return Err(Fault::Memory);
    }
    journal.make_room(clients.len() as u32)?;
    journal.end_all(clients);
    Ok(())
}

// Makes room for the end of an instance, and adds it by itself.
#[tactic(auto, unfolding(nm_rules::specs::Answer::answer_to))]
fn add(alloc: Global, journal: &mut Journal, client: Instance) -> Result<(), Fault>
    requires some { 1 ≤ journal.old.keep }
    ensures keep { journal.new.keep ≡ journal.old.keep }
{
    if journal.is_spent() {
        return Err(Fault::Memory);
    }
    journal.make_room(1)?;
    journal.add(Entry {
        event: Event::Ended(client),
        reply: Reply {
            status: OpStatus::Nfs4Ok,
            value: ReplyValue::Nothing,
            recalls: Items::new(alloc),
        },
    });
    Ok(())
}

// Writes whose end an entry is.
fn append_entry(out: &mut Vec<u8>, entry: &Entry) -> Result<(), Memory> {
    match &entry.event {
        Event::Ended(client) => append_client(out, client),
        Event::Asked(..) => append(out, b" call"),
    }
}

fn append_entries(out: &mut Vec<u8>, entries: &[Entry]) -> Result<(), Memory> {
    for entry in entries {
        append_entry(out, entry)?;
    }
    Ok(())
}

// Writes the entries that are kept, and how many have gone into the state before them.
fn append_journal(out: &mut Vec<u8>, journal: &Journal) -> Result<(), Memory> {
    append_counted(out, b"kept ", journal.entries().len() as u64)?;
    append_entries(out, journal.entries())?;
    append_counted(out, b"; folded ", journal.folded())?;
    if journal.is_spent() {
        append(out, b"; spent")?;
    }
    Ok(())
}

// Adds the end of a client by itself, where any entry may be kept.
fn add_if(kept: &mut Kept, client: Instance, out: &mut Vec<u8>) -> Result<(), Fault> {
    if kept.keep == 0 {
        return Ok(append(out, b"not asked; ")?);
    }
    add(*out.allocator(), &mut kept.journal, client)
}

fn by_word(kept: &mut Kept, verb: Verb, args: &[&[u8]], out: &mut Vec<u8>) -> Result<(), Fault> {
    let [word] = args else {
        return Err(Fault::Word);
    };
    match verb {
        Verb::Room => room(&mut kept.journal, small(word)?),
        Verb::Add => add_if(kept, instance(word)?, out),
        _ => Err(Fault::Word),
    }
}

// What a line does with a journal.
fn on_journal(kept: &mut Kept, verb: Verb, args: &[&[u8]], out: &mut Vec<u8>) -> Result<(), Fault> {
    match verb {
        Verb::Ends => end_all(&mut kept.journal, &instances(*out.allocator(), args)?),
        _ => by_word(kept, verb, args, out),
    }
}

// The journal of that name ends: its entries go on alone.
fn into(journals: &mut Named<Kept>, name: &[u8], out: &mut Vec<u8>) -> Result<(), Fault> {
    let kept = journals.take(name).ok_or(Fault::Word)?;
    append(out, b"entries")?;
    Ok(append_entries(out, &kept.journal.into_entries())?)
}

// Makes a journal of that name, which keeps so many entries.
fn make(
    journals: &mut Named<Kept>,
    name: &[u8],
    args: &[&[u8]],
    alloc: Global,
) -> Result<(), Fault> {
    let [keep] = args else {
        return Err(Fault::Word);
    };
    Ok(journals.put(name, new_journal(alloc, small(keep)?)?)?)
}

fn go_on(
    journals: &mut Named<Kept>,
    name: &[u8],
    verb: Verb,
    args: &[&[u8]],
    out: &mut Vec<u8>,
) -> Result<(), Fault> {
    match verb {
        Verb::New => make(journals, name, args, *out.allocator())?,
        _ => on_journal(journals.get_mut(name).ok_or(Fault::Word)?, verb, args, out)?,
    }
    let kept = journals.get(name).ok_or(Fault::Word)?;
    Ok(append_journal(out, &kept.journal)?)
}

/// The line `journal NAME VERB ..`, behind its first word.
pub(crate) fn journal_line(
    journals: &mut Named<Kept>,
    words: &[&[u8]],
    out: &mut Vec<u8>,
) -> Result<(), Fault> {
    let [name, verb, args @ ..] = words else {
        return Err(Fault::Word);
    };
    match chosen(&VERBS, verb)? {
        Verb::Into => into(journals, name, out),
        verb => go_on(journals, name, verb, args, out),
    }
}
