//! The journal of a file system at a server.
ghost use Rattle.std.specs.Prelude.{◌≡◌, ◌≤◌, ◌<◌, ◌+◌, ◌-◌, ◌++◌, ◌∷◌, [], false, true, min, length, map, drop, take, OnOk, OnErr};
ghost use Rattle.std.specs.Vec.{vec_capacity};
ghost use Rattle.nm_rules.specs.Answer.{answer_to};
ghost use Rattle.nm_journal.specs.Journals.{AreAnswered, after_entries, tables_now, left_of, halved, counted, folded_by, with_room, end_of, with_ends};

use nm_state::FsState;
use nm_types::{Entry, Event, Instance, Items, Memory, OpStatus, Reply, ReplyValue};
use std::alloc::Global;
use std::marker::Model;

/// The latest entries of a file system at a server, one by one, and the state before the first of them. Contracts see the tables of
/// that state, the entries, how many have gone into it, and how many more can be added without memory.
pub struct Journal {
    keep: u32,
    base: FsState,
    entries: Vec<Entry>,
    folded: u64,
}

impl Drop for Journal {
    fn drop(self) {
        let Journal {
            keep: _,
            base: _,
            entries: _,
            folded: _,
        } = self;
    }
}

impl Model for Journal {
    ghost use Rattle.nm_journal.specs.Journals.{JournalNow};

    ghost Value = { JournalNow };

    ghost use Rattle.std.specs.Prelude.{◌≡◌, ◌≤◌, ◌-◌, length, false, vec_capacity};
    ghost use Rattle.nm_journal.specs.Journals.{AreAnswered};

    ghost view = { λ j. record {
      keep = j.keep;
      base = j.base.seen;
      spent = j.base.spent;
      entries = j.entries.items;
      folded = j.folded;
      room = vec_capacity j.entries - length j.entries.items;
    } };

    ghost invariant = { λ j. (length j.entries.items ≤ j.keep) × (j.base.spent ≡ false → AreAnswered j.base.seen j.entries.items) };
}

// How many of so many entries stay where at most so many may.
#[tactic(auto, unfolding(crate::specs::Journals::left_of))]
fn left_of(count: usize, most: usize) -> usize
    ensures value { result ≡ left_of count most }
    ensures fewer { result ≤ count }
    ensures few { result ≤ most }
{
    let mut left = count;
    for _time in 0..64_u32 {
        if left <= most {
            return left;
        }
        left /= 2;
    }
    0
}

// The first so many entries go into the state before them. After want of memory nothing is known of it.
fn fold(base: &mut FsState, entries: &[Entry], count: usize) -> Result<(), Memory>
    requires count { count ≤ length entries.now }
    requires unspent { base.old.spent ≡ false }
    requires answered { AreAnswered base.old.seen entries.now }
    ensures ok { OnOk result (base.new ≡ record { seen = after_entries base.old.seen (take count entries.now); spent = false }) }
    ensures err { OnErr result (base.new.spent ≡ true) }
{
    for at in 0..count {
        base.apply(&entries[at].event)?;
    }
    Ok(())
}

// The end of an instance, as an entry.
fn end_of(alloc: Global, instance: &Instance) -> Entry
    ensures { result ≡ end_of instance.now }
{
    Entry {
        event: Event::Ended(*instance),
        reply: Reply {
            status: OpStatus::Nfs4Ok,
            value: ReplyValue::Nothing,
            recalls: Items::new(alloc),
        },
    }
}

// Ends instances in the state before the entries.
#[tactic(auto, unfolding(nm_rules::specs::Answer::answer_to))]
fn end_first(base: &mut FsState, instances: &[Instance])
    ensures seen { base.new.seen ≡ after_entries base.old.seen (map end_of instances.now) }
    ensures spent { base.new.spent ≡ base.old.spent }
{
    for instance in instances {
        base.end(instance);
    }
}

// Adds the ends of instances, for which there is room.
fn push_ends(entries: &mut Vec<Entry>, instances: &[Instance])
    requires room { length entries.old.items + length instances.now ≤ vec_capacity entries.old }
    ensures items { entries.new.items ≡ entries.old.items ++ map end_of instances.now }
    ensures capacity { vec_capacity entries.old ≤ vec_capacity entries.new }
{
    let alloc = *entries.allocator();
    for instance in instances {
        match entries.push(end_of(alloc, instance)) {
            Ok(()) => {}
            // There is room.
            Err(_) => unreachable!(),
        }
    }
}

impl Journal {
    /// A journal without entries on top of that state, which keeps at most so many. It takes no memory.
    pub fn new(alloc: Global, keep: u32, base: FsState) -> Journal
        ensures { result ≡ record { keep = keep; base = base.seen; spent = base.spent; entries = []; folded = 0; room = result.room } }
    {
        Journal {
            keep,
            base,
            entries: Vec::new(alloc),
            folded: 0,
        }
    }

    /// The entries that are kept, oldest first.
    pub fn entries(&self) -> &[Entry]
        ensures { result.now ≡ self.now.entries }
    {
        &self.entries
    }

    /// How many entries have gone into the state before them, at most 2^64 - 1.
    pub fn folded(&self) -> u64
        ensures { result ≡ self.now.folded }
    {
        self.folded
    }

    /// Whether memory was wanting while entries went into the state before them. Then nothing is known of it.
    pub fn is_spent(&self) -> bool
        ensures { result ≡ self.now.spent }
    {
        self.base.is_spent()
    }

    /// Makes places for so many further entries, as many as are kept at most: where there are fewer, the older half of the entries,
    /// rounded up, goes into the state before them, again and again. After want of memory nothing has changed, or nothing is known of
    /// that state.
    #[tactic(auto, unfolding(crate::specs::Journals::with_room))]
    pub fn make_room(&mut self, places: u32) -> Result<(), Memory>
        requires { self.old.spent ≡ false }
        ensures ok { OnOk result (self.new ≡ record (with_room places self.old) { room = self.new.room }) }
        ensures fits { OnOk result (length self.new.entries + min places self.old.keep ≤ self.old.keep) }
        ensures unspent { OnOk result (self.new.spent ≡ false) }
        ensures keep { self.new.keep ≡ self.old.keep }
        ensures room { OnOk result (min places self.old.keep ≤ self.new.room) }
        ensures err { OnErr result (self.new.spent ≡ false → self.new ≡ record self.old { room = self.new.room }) }
    {
        let most = self.keep.saturating_sub(places) as usize;
        let count = self.entries.len();
        let left = left_of(count, most);
        self.entries.reserve(places.min(self.keep) as usize)?;
        fold(&mut self.base, &self.entries, count - left)?;
        self.entries.drain(..count - left);
        self.folded = self.folded.saturating_add((count - left) as u64);
        Ok(())
    }

    /// Adds an entry, whose reply is the answer after those before it. It takes no memory.
    pub fn add(&mut self, entry: Entry)
        requires room { 1 ≤ self.old.room }
        requires fits { length self.old.entries < self.old.keep }
        requires answered { self.old.spent ≡ false → entry.reply ≡ answer_to (tables_now self.old) entry.event }
        ensures after { self.new ≡ record self.old { entries = self.old.entries ++ entry ∷ []; room = self.new.room } }
        ensures room { self.old.room ≤ self.new.room + 1 }
    {
        match self.entries.push(entry) {
            Ok(()) => {}
            // There is room.
            Err(_) => unreachable!(),
        }
    }

    /// Adds the ends of instances, one after the other. Of more than are kept the first go into the state before the entries at once. It
    /// takes no memory.
    #[tactic(auto, unfolding(crate::specs::Journals::with_ends))]
    pub fn end_all(&mut self, instances: &[Instance])
        requires room { min (length instances.now) self.old.keep ≤ self.old.room }
        requires fits { length self.old.entries + min (length instances.now) self.old.keep ≤ self.old.keep }
        ensures after { self.new ≡ record (with_ends instances.now self.old) { room = self.new.room } }
        ensures spent { self.new.spent ≡ self.old.spent }
        ensures keep { self.new.keep ≡ self.old.keep }
    {
        let over = instances.len().saturating_sub(self.keep as usize);
        let (first, rest) = instances.split_at(over);
        end_first(&mut self.base, first);
        push_ends(&mut self.entries, rest);
        self.folded = self.folded.saturating_add(over as u64);
    }

    /// The entries that are kept, oldest first. What went before them is gone.
    pub fn into_entries(self) -> Vec<Entry>
        ensures { result.items ≡ self.entries }
    {
        let Journal {
            keep: _,
            base: _,
            entries,
            folded: _,
        } = self;
        entries
    }
}
