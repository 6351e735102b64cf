//! The state of one file system.
ghost use Rattle.std.specs.Prelude.{◌≡◌, ◌≤◌, ◌+◌, [], false, ℕ, Bool, IfOk, length};
ghost use Rattle.std.specs.Vec.{vec_capacity};
ghost use Rattle.nm_rules.specs.Past.{Past};
ghost use Rattle.nm_rules.specs.Seen.{seen};
ghost use Rattle.nm_rules.specs.Sound.{IsSound};
ghost use Rattle.nm_rules.specs.Answer.{answer, add};
ghost use Rattle.nm_rules.specs.Held.{held_table};
ghost use Rattle.nm_rules.specs.Holders.{has_row, holders};
ghost use Rattle.nm_state.specs.State.{fresh, ended, holder_of, Applies, Answers};

use crate::holders::{gather, has_open, has_owner};
use crate::shown::show;
use crate::tables::Tables;
use nm_types::{Event, FsNum, HeldTable, Instance, Memory, OpStatus, Reply, StateId, StateRef};
use std::alloc::Global;
use std::marker::Model;

/// The state of one file system. Contracts see its tables, which hold what stands after the entries so far, and whether
/// memory was wanting in the middle of a change. From then on it answers want of memory alone.
pub struct FsState {
    alloc: Global,
    tables: Tables,
    spent: bool,
}

impl Drop for FsState {
    fn drop(self) {
        let FsState {
            alloc: _,
            tables: _,
            spent: _,
        } = self;
    }
}

impl Model for FsState {
    ghost use Rattle.nm_state.specs.State.{StateNow};

    ghost Value = { StateNow };

    ghost use Rattle.std.specs.Prelude.{◌≡◌, false};
    ghost use Rattle.nm_rules.specs.Sound.{IsSound};

    ghost view = { λ s. record { seen = s.tables; spent = s.spent } };

    ghost invariant = { λ s. s.spent ≡ false → IsSound s.tables };
}

impl FsState {
    /// The state of a file system before the first entry: no file but the root, and nothing open.
    #[tactic(auto, using(crate::proofs::OpeningLemmas::empty_sound))]
    pub fn new(alloc: Global, fs: FsNum, grants: bool) -> Result<FsState, Memory>
        ensures { IfOk result (λ s. s ≡ fresh fs grants) }
    {
        Ok(FsState {
            alloc,
            tables: Tables::new(alloc, fs, grants)?,
            spent: false,
        })
    }

    /// The tables of a state that isn't spent are sound: counters rise up to the last one, and all opens may stand
    /// together.
    pub fn tables_are_sound(&self)
        ensures { self.now.spent ≡ false → IsSound self.now.seen }
    {
        let _ = &self.spent;
    }

    /// Whether it answers want of memory alone.
    pub fn is_spent(&self) -> bool
        ensures { result ≡ self.now.spent }
    {
        self.spent
    }

    /// The reply that `apply` would give.
    pub fn answer(&self, event: &Event) -> Result<Reply, Memory>
        ensures answer { Answers self.now event.now result }
        ensures stands { (fs : ℕ) (grants : Bool) (es : Past) → self.now.seen ≡ seen fs grants es
            → IfOk result (λ r. r ≡ answer fs grants es event.now) }
    {
        if self.spent {
            return Err(Memory);
        }
        self.tables.answer(event)
    }

    /// Answers an event, and changes the tables as the answer says. A state that stands for a list of entries answers as
    /// the unmoving server does after that list, and then stands for the list with this entry.
    #[tactic(auto, unfolding(nm_rules::specs::Seen::seen))]
    pub fn apply(&mut self, event: &Event) -> Result<Reply, Memory>
        ensures applies { Applies self.old event.now result self.new }
        ensures stands { (fs : ℕ) (grants : Bool) (es : Past) → self.old.seen ≡ seen fs grants es
            → IfOk result (λ r. (r ≡ answer fs grants es event.now) × (self.new.seen ≡ seen fs grants (add fs grants es event.now))) }
    {
        if self.spent {
            return Err(Memory);
        }
        match self.tables.apply(event) {
            Ok(reply) => Ok(reply),
            Err(fault) => {
                self.spent = true;
                Err(fault)
            }
        }
    }

    /// What is held, by rising counter of the stateid.
    #[tactic(auto, unfolding(nm_rules::specs::Held::held_table))]
    pub fn table(&self) -> Result<HeldTable, Memory>
        ensures table { IfOk result (λ table. table ≡ held_table self.now.seen) }
        ensures unspent { IfOk result (λ table. self.now.spent ≡ false) }
    {
        if self.spent {
            return Err(Memory);
        }
        show(
            self.alloc,
            self.tables.files(),
            self.tables.opens(),
            self.tables.locks(),
            self.tables.ranges(),
        )
    }

    /// Who holds something, in the order of string, verifier, flavor and user, each once.
    pub fn holders(&self) -> Result<Vec<Instance>, Memory>
        ensures value { IfOk result (λ list. list.items ≡ holders self.now.seen) }
        ensures unspent { IfOk result (λ list. self.now.spent ≡ false) }
    {
        if self.spent {
            return Err(Memory);
        }
        let mut list = Vec::new(self.alloc);
        gather(self.tables.opens(), self.tables.owners(), &mut list)?;
        Ok(list)
    }

    /// How many opens and owners there are. There are no more holders than that.
    #[tactic(auto, using(nm_rules::proofs::HolderLaws::holders_fit))]
    pub fn rows(&self) -> usize
        ensures value { result ≡ length self.now.seen.opens + length self.now.seen.owners }
        ensures holders { length (holders self.now.seen) ≤ result }
    {
        self.tables.opens().len() + self.tables.owners().len()
    }

    /// The holders, in an empty list that has room for them: it takes no memory, and is there for a spent state too.
    pub fn list_holders(&self, room: Vec<Instance>) -> Vec<Instance>
        requires empty { room.items ≡ [] }
        requires fits { length (holders self.now.seen) ≤ vec_capacity room }
        ensures value { result.items ≡ holders self.now.seen }
        ensures capacity { vec_capacity room ≤ vec_capacity result }
    {
        let mut list = room;
        match gather(self.tables.opens(), self.tables.owners(), &mut list) {
            Ok(()) => list,
            // There is room for them.
            Err(Memory) => unreachable!(),
        }
    }

    /// The instance for whose owner a stateid stands here. `BAD_STATEID` exactly where it isn't resolvable.
    #[tactic(auto, unfolding(crate::specs::State::holder_of))]
    pub fn holder_of(&self, state: StateId) -> Result<Instance, OpStatus>
        ensures { result ≡ holder_of self.now.seen state }
    {
        let stateid = StateRef::Named(state);
        if let Some(row) = self.tables.resolved(stateid) {
            return Ok(row.owner.instance);
        }
        match self.tables.lock_named(stateid) {
            None => Err(OpStatus::BadStateId),
            Some(row) => Ok(row.owner.instance),
        }
    }

    /// Whether an owner of the instance is known, or an open of it is live.
    pub fn has(&self, instance: &Instance) -> bool
        ensures { result ≡ has_row instance.now self.now.seen }
    {
        has_open(self.tables.opens(), instance) || has_owner(self.tables.owners(), instance)
    }

    /// Carries out the end of an instance: it takes no memory, and is there for a spent state too.
    pub fn end(&mut self, instance: &Instance)
        ensures { self.new ≡ ended self.old instance.now }
    {
        self.tables.end(instance);
    }

    /// The same state once more.
    pub fn copy(&self) -> Result<FsState, Memory>
        ensures value { IfOk result (λ s. s ≡ self.now) }
        ensures unspent { IfOk result (λ s. self.now.spent ≡ false) }
    {
        if self.spent {
            return Err(Memory);
        }
        Ok(FsState {
            alloc: self.alloc,
            tables: self.tables.copy()?,
            spent: false,
        })
    }
}
