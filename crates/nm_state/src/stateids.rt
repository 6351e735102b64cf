//! What a stateid stands for, and when it is refused (RFC 7530, 9.1.4).
ghost use Rattle.std.specs.Prelude.{◌≡◌, option_copied};
ghost use Rattle.std.specs.Option.{option_or};
ghost use Rattle.nm_rules.specs.Shares.{meets, open_at};
ghost use Rattle.nm_rules.specs.Stateids.{any_stop, any_unresolved, confirm_stop, given_seqid, is_own, is_own_lock, is_owner_confirmed, live_stop, lock_live_stop, lock_named, lock_stop, lock_unresolved, mode_stop, open_named, opened_access, resolved, seqid_stop, stateid_stop, unresolved_at};

use crate::checks::refuse_if;
use crate::lock_rows;
use crate::tables::Tables;
use nm_types::{Instance, LockRow, OpStatus, OpenRow, StateRef};

/// An open is the caller's own.
pub fn is_own(caller: Option<Instance>, row: &OpenRow) -> bool
    ensures { result ≡ is_own caller row.now }
{
    match caller {
        Some(party) => party.is_same(&row.owner.instance),
        None => false,
    }
}

/// A stateid has to stand for an open of the caller's own.
pub fn unresolved_at(caller: Option<Instance>, row: Option<&OpenRow>) -> Option<OpStatus>
    ensures { result ≡ unresolved_at caller (option_copied row.entry) }
{
    match row {
        None => Some(OpStatus::BadStateId),
        Some(row) => refuse_if(!is_own(caller, row), OpStatus::BadStateId),
    }
}

/// The stateid of a lock owner is the caller's own.
pub fn is_own_lock(caller: Option<Instance>, row: &LockRow) -> bool
    ensures { result ≡ is_own_lock caller row.now }
{
    match caller {
        Some(party) => party.is_same(&row.owner.instance),
        None => false,
    }
}

/// A stateid has to stand for locks of the caller's own.
pub fn lock_unresolved(caller: Option<Instance>, row: Option<&LockRow>) -> Option<OpStatus>
    ensures { result ≡ lock_unresolved caller (option_copied row.entry) }
{
    match row {
        None => Some(OpStatus::BadStateId),
        Some(row) => refuse_if(!is_own_lock(caller, row), OpStatus::BadStateId),
    }
}

/// A stateid has to stand for an open or for locks of the caller's own.
pub fn any_unresolved(
    caller: Option<Instance>,
    row: Option<&OpenRow>,
    lock: Option<&LockRow>,
) -> Option<OpStatus>
    ensures { result ≡ any_unresolved caller (option_copied row.entry) (option_copied lock.entry) }
{
    match row {
        None => lock_unresolved(caller, lock),
        Some(row) => unresolved_at(caller, Some(row)),
    }
}

// The seqid that a request's stateid gives.
fn given_seqid(stateid: StateRef) -> u32
    ensures { result ≡ given_seqid stateid }
{
    match stateid {
        StateRef::Zeros => 0,
        StateRef::Ones => u32::MAX,
        StateRef::Named(id) => id.seqid,
    }
}

// What a stateid's seqid says, by the one that stands.
fn seqid_refusal(now: u32, given: u32) -> Option<OpStatus>
    ensures { result ≡ seqid_stop now given }
{
    if now == given {
        return None;
    }
    let behind = (u64::from(now) + (1 << 32) - u64::from(given)) % (1 << 32);
    if behind <= 1 << 31 {
        Some(OpStatus::OldStateId)
    } else {
        Some(OpStatus::BadStateId)
    }
}

/// Whether what one opener does is what the other denies, or has.
pub fn meets(access: u32, deny: u32) -> bool
    ensures { result ≡ meets access deny }
{
    access & deny != 0
}

// What the access of an open says, which has to be at least this.
fn mode_refusal(access: u32, its: u32) -> Option<OpStatus>
    ensures { result ≡ mode_stop access its }
{
    refuse_if(access != 0 && !meets(access, its), OpStatus::OpenMode)
}

// What the stateid of a lock owner says: it has to be of the current file and as it was told last, and its open has to have this
// access.
#[tactic(auto, unfolding(nm_rules::specs::Stateids::lock_stop))]
fn lock_stop(file: u64, stateid: StateRef, access: u32, its: u32, row: &LockRow) -> Option<OpStatus>
    ensures { result ≡ lock_stop file stateid access its row.now }
{
    if row.file != file {
        return Some(OpStatus::BadStateId);
    }
    seqid_refusal(row.seqid, given_seqid(stateid)).or(mode_refusal(access, its))
}

// What a stateid of an open says: it has to be of the current file and as it was told last, and the open has to have this
// access. Whether its owner is as it has to be is told.
#[tactic(auto, unfolding(nm_rules::specs::Stateids::stateid_stop))]
fn stateid_stop(
    suits: bool,
    file: u64,
    stateid: StateRef,
    access: u32,
    row: &OpenRow,
) -> Option<OpStatus>
    ensures { result ≡ stateid_stop suits file stateid access row.now }
{
    if !suits || row.file != file {
        return Some(OpStatus::BadStateId);
    }
    seqid_refusal(row.seqid, given_seqid(stateid)).or(mode_refusal(access, row.access))
}

// The open with that counter.
#[tactic(auto, unfolding(nm_rules::specs::Shares::open_at))]
fn find_at(rows: &[OpenRow], counter: u64) -> Option<&OpenRow>
    ensures { option_copied result ≡ open_at counter rows.now }
{
    rows.iter().find(|row| row.counter == counter)
}

impl Tables {
    /// The live open that a stateid names here.
    #[tactic(auto, unfolding(nm_rules::specs::Stateids::open_named))]
    pub fn open_named(&self, stateid: StateRef) -> Option<&OpenRow>
        ensures { option_copied result ≡ open_named self.now stateid }
    {
        match stateid {
            StateRef::Named(id) if id.fs == self.fs.number() => self.shares.open_at(id.counter),
            _ => None,
        }
    }

    /// The open that a stateid stands for here: a live one, or one whose CLOSE is its owner's kept call.
    #[tactic(auto, unfolding(nm_rules::specs::Stateids::resolved))]
    pub fn resolved(&self, stateid: StateRef) -> Option<&OpenRow>
        ensures { option_copied result ≡ resolved self.now stateid }
    {
        match stateid {
            StateRef::Named(id) if id.fs == self.fs.number() => self.row_at(id.counter),
            _ => None,
        }
    }

    // The live open with that counter, else the closed one.
    fn row_at(&self, counter: u64) -> Option<&OpenRow>
        ensures { option_copied result ≡ option_or (open_at counter self.now.opens) (open_at counter self.now.closed) }
    {
        match self.shares.open_at(counter) {
            Some(row) => Some(row),
            None => find_at(&self.closed, counter),
        }
    }

    // The owner of an open is confirmed.
    fn is_owner_confirmed(&self, row: &OpenRow) -> bool
        ensures { result ≡ is_owner_confirmed self.now row.now }
    {
        self.owners.is_confirmed(&row.owner)
    }

    /// What refuses the stateid of an open that has to be live, of a confirmed owner, and to have this access.
    #[tactic(auto, unfolding(nm_rules::specs::Stateids::live_stop))]
    pub fn live_stop(
        &self,
        file: u64,
        stateid: StateRef,
        access: u32,
        row: Option<&OpenRow>,
    ) -> Option<OpStatus>
        ensures { result ≡ live_stop self.now file stateid access (option_copied row.entry) }
    {
        match row {
            None => Some(OpStatus::BadStateId),
            Some(row) => stateid_stop(self.is_owner_confirmed(row), file, stateid, access, row),
        }
    }

    /// What refuses the stateid of an OPEN_CONFIRM: the open has to be live, of an owner that isn't confirmed.
    #[tactic(auto, unfolding(nm_rules::specs::Stateids::confirm_stop))]
    pub fn confirm_stop(
        &self,
        file: u64,
        stateid: StateRef,
        row: Option<&OpenRow>,
    ) -> Option<OpStatus>
        ensures { result ≡ confirm_stop self.now file stateid (option_copied row.entry) }
    {
        match row {
            None => Some(OpStatus::BadStateId),
            Some(row) => stateid_stop(!self.is_owner_confirmed(row), file, stateid, 0, row),
        }
    }

    /// The locks for which a stateid stands here.
    #[tactic(auto, unfolding(nm_rules::specs::Stateids::lock_named))]
    pub fn lock_named(&self, stateid: StateRef) -> Option<&LockRow>
        ensures { option_copied result ≡ lock_named self.now stateid }
    {
        match stateid {
            StateRef::Named(id) if id.fs == self.fs.number() => {
                lock_rows::find_at(&self.locks, id.counter)
            }
            _ => None,
        }
    }

    // The access of a lock owner's open.
    fn opened_access(&self, row: &LockRow) -> u32
        ensures { result ≡ opened_access self.now row.now }
    {
        match self.shares.open_at(row.opened) {
            None => 0,
            Some(row) => row.access,
        }
    }

    /// What refuses the stateid of a lock owner, which has to be live, and its open to have this access.
    #[tactic(auto, unfolding(nm_rules::specs::Stateids::lock_live_stop))]
    pub fn lock_live_stop(
        &self,
        file: u64,
        stateid: StateRef,
        access: u32,
        row: Option<&LockRow>,
    ) -> Option<OpStatus>
        ensures { result ≡ lock_live_stop self.now file stateid access (option_copied row.entry) }
    {
        match row {
            None => Some(OpStatus::BadStateId),
            Some(row) => lock_stop(file, stateid, access, self.opened_access(row), row),
        }
    }

    /// What refuses the stateid of an open or of a lock owner.
    #[tactic(auto, unfolding(nm_rules::specs::Stateids::any_stop))]
    pub fn any_stop(
        &self,
        file: u64,
        stateid: StateRef,
        access: u32,
        row: Option<&OpenRow>,
        lock: Option<&LockRow>,
    ) -> Option<OpStatus>
        ensures { result ≡ any_stop self.now file stateid access (option_copied row.entry) (option_copied lock.entry) }
    {
        match row {
            None => self.lock_live_stop(file, stateid, access, lock),
            Some(row) => self.live_stop(file, stateid, access, Some(row)),
        }
    }
}
