//! What the clients of a script know of byte-range locks, and what they send for them.
ghost use Rattle.std.specs.Prelude.{◌≡◌, ◌≤◌, length, IfOk, OnOk, option_copied, option_map};
ghost use Rattle.nm_short.specs.Requests.{frees_more};
ghost use Rattle.nm_short.specs.Known.{is_believed, is_released, still_held, known_freed, seqid_of, held_of, told_lock, holds_lock, started_on, learned_by, learned_lock, learned_unlock, locker_for, type_of, lock_call, locking_call, unlock_call, lookup_call, test_call, release_call};

use crate::clients::{
    Believed, Clients, Holding, OwnerSeqid, find_held, find_seqid, hold_now, move_on,
};
use crate::sends::{instance_of, text_of_owner};
use nm_script::ClientRow;
use nm_types::{
    Action, Bytes, Call, Deed, FsNum, LockAction, LockArgs, LockKind, LockOutcome, LockTestArgs,
    LockType, Locker, LookupArgs, Memory, OpStatus, ReleaseAction, ReleaseLockOwnerArgs, Reply,
    ReplyValue, ServerNum, StateId, StateRef, UnlockAction, UnlockArgs,
};
use std::alloc::Global;

/// What came of a release of a lock owner in a file system.
#[derive(Clone, Copy)]
pub enum Freed {
    /// It was OK, or nothing is there: the next one comes.
    On,
    /// It is on its way.
    Waits,
    /// It was refused, which is the answer.
    Ends(OpStatus),
}

impl Freed {
    /// Whether the next file system comes.
    #[tactic(auto, unfolding(crate::specs::Requests::frees_more))]
    pub fn frees_more(&self) -> bool
        ensures { result ≡ frees_more self.now }
    {
        match self {
            Freed::On => true,
            Freed::Waits | Freed::Ends(_) => false,
        }
    }
}

// The stateid of a lock owner that a reply tells anew.
#[tactic(auto, unfolding(crate::specs::Known::told_lock))]
fn told_lock(value: &ReplyValue) -> Option<StateId>
    ensures { result ≡ told_lock value.now }
{
    match value {
        ReplyValue::Lock(Some(LockOutcome::Locked(id))) => Some(*id),
        ReplyValue::Unlock(stateid) => *stateid,
        _ => None,
    }
}

// What a reply to a LOCK or to a LOCKU leaves in a client's hands.
fn hold_lock(
    rows: &mut Vec<Holding>,
    client: u32,
    fs: FsNum,
    owner: &Bytes,
    file: &Bytes,
    handle: u64,
    value: &ReplyValue,
) -> Result<(), Memory>
    ensures { OnOk result (rows.new.items ≡ holds_lock client fs owner.now file.now handle (told_lock value.now) rows.old.items) }
{
    match told_lock(value) {
        Some(id) => Ok(hold_now(rows, client, fs, owner, file, handle, id)?),
        None => Ok(()),
    }
}

// Starts a lock owner, where its LOCK was OK.
fn start_on(
    rows: &mut Vec<OwnerSeqid>,
    client: u32,
    fs: FsNum,
    owner: &Bytes,
    status: OpStatus,
) -> Result<(), Memory>
    ensures { OnOk result (rows.new.items ≡ started_on client fs owner.now status rows.old.items) }
{
    if status.is_done() {
        move_on(rows, client, fs, owner, status)?;
    }
    Ok(())
}

// A client believes a file system to be at that server.
#[tactic(auto, unfolding(crate::specs::Known::is_believed))]
fn is_believed(places: &[Believed], client: u32, fs: FsNum, at: ServerNum) -> bool
    ensures { result ≡ is_believed client fs at places.now }
{
    places
        .iter()
        .any(|row| row.client == client && row.fs == fs && row.at == at)
}

// A release of that owner at a server ends what the client holds so.
fn is_released(row: &Holding, places: &[Believed], client: u32, owner: &[u8], at: ServerNum) -> bool
    ensures { result ≡ is_released client owner.now at places.now row.now }
{
    row.client == client && row.owner.items() == owner && is_believed(places, client, row.fs, at)
}

// What a release of that owner at a server leaves in the clients' hands.
#[tactic(auto, unfolding(crate::specs::Known::still_held))]
fn drop_released(
    rows: &mut Vec<Holding>,
    places: &[Believed],
    client: u32,
    owner: &[u8],
    at: ServerNum,
)
    ensures { rows.new.items ≡ still_held client owner.now at places.now rows.old.items }
{
    rows.retain(|row| !is_released(row, places, client, owner, at));
}

// The type of a lock.
#[tactic(auto, unfolding(crate::specs::Known::type_of))]
fn type_of(kind: LockKind) -> LockType
    ensures { result ≡ type_of kind }
{
    match kind {
        LockKind::Read => LockType::Read,
        LockKind::Write => LockType::Write,
    }
}

// The call of a LOCK.
#[tactic(auto, unfolding(crate::specs::Known::lock_call))]
fn make_lock(
    alloc: Global,
    client: u32,
    row: &ClientRow,
    a: &LockAction,
    file: u64,
    locker: Locker,
) -> Result<Call, Memory>
    requires { length row.now.name ≤ 16 }
    ensures { IfOk result (λ call. call ≡ lock_call client row.now a.now file locker) }
{
    let args = LockArgs {
        kind: type_of(a.kind),
        reclaim: false,
        offset: a.offset,
        length: a.length,
        locker,
    };
    Ok(Call {
        caller: Some(instance_of(alloc, client, row)?),
        file,
        deed: Deed::Lock(args),
    })
}

// The call of a LOCKU.
#[tactic(auto, unfolding(crate::specs::Known::unlock_call))]
fn make_unlock(
    alloc: Global,
    client: u32,
    row: &ClientRow,
    a: &UnlockAction,
    seqid: u32,
    lock: &Holding,
) -> Result<Call, Memory>
    requires { length row.now.name ≤ 16 }
    ensures { IfOk result (λ call. call ≡ unlock_call client row.now a.now seqid lock.now) }
{
    let args = UnlockArgs {
        kind: LockType::Read,
        seqid,
        stateid: StateRef::Named(lock.stateid),
        offset: a.offset,
        length: a.length,
    };
    Ok(Call {
        caller: Some(instance_of(alloc, client, row)?),
        file: lock.handle,
        deed: Deed::Unlock(args),
    })
}

/// The call of a LOOKUP in the root.
#[tactic(auto, unfolding(crate::specs::Known::lookup_call))]
pub fn make_lookup(name: &Bytes) -> Result<Call, Memory>
    ensures { IfOk result (λ call. call ≡ lookup_call name.now) }
{
    Ok(Call {
        caller: None,
        file: 1,
        deed: Deed::Lookup(LookupArgs { name: name.copy()? }),
    })
}

/// The call of a LOCKT on a file that a LOOKUP told.
#[tactic(auto, unfolding(crate::specs::Known::test_call))]
pub fn make_test(
    alloc: Global,
    client: u32,
    row: &ClientRow,
    a: &LockAction,
    file: u64,
) -> Result<Call, Memory>
    requires { length row.now.name ≤ 16 }
    ensures { IfOk result (λ call. call ≡ test_call client row.now a.now file) }
{
    let args = LockTestArgs {
        kind: type_of(a.kind),
        offset: a.offset,
        length: a.length,
        owner: text_of_owner(alloc, row, &a.owner)?,
    };
    Ok(Call {
        caller: Some(instance_of(alloc, client, row)?),
        file,
        deed: Deed::LockTest(args),
    })
}

/// The call of a RELEASE_LOCKOWNER.
#[tactic(auto, unfolding(crate::specs::Known::release_call))]
pub fn make_release(
    alloc: Global,
    client: u32,
    row: &ClientRow,
    a: &ReleaseAction,
) -> Result<Call, Memory>
    requires { length row.now.name ≤ 16 }
    ensures { IfOk result (λ call. call ≡ release_call client row.now a.now) }
{
    let args = ReleaseLockOwnerArgs {
        owner: text_of_owner(alloc, row, &a.owner)?,
    };
    Ok(Call {
        caller: Some(instance_of(alloc, client, row)?),
        file: 0,
        deed: Deed::ReleaseLockOwner(args),
    })
}

impl Clients {
    // The next seqid of a lock owner.
    fn lock_seqid_of(&self, client: u32, fs: FsNum, owner: &Bytes) -> u32
        ensures { result ≡ seqid_of client fs owner.now self.now.lock_seqids }
    {
        find_seqid(&self.lock_seqids, client, fs, owner.items())
    }

    // The lock stateid that an owner of a client has on a file.
    fn lock_held_of(&self, client: u32, fs: FsNum, owner: &Bytes, file: &Bytes) -> Option<&Holding>
        ensures { option_copied result ≡ held_of client fs owner.now file.now self.now.locks }
    {
        find_held(&self.locks, client, fs, owner.items(), file.items())
    }

    // The owner of a lock on what the client holds: a new one, until it has a lock stateid on the file.
    #[tactic(auto, unfolding(crate::specs::Known::locker_for))]
    fn locker_for(
        &self,
        client: u32,
        row: &ClientRow,
        a: &LockAction,
        held: &Holding,
    ) -> Result<Locker, Memory>
        ensures { IfOk result (λ its. its ≡ locker_for client row.now a.now self.now held.now (held_of client a.now.fs a.now.owner a.now.file self.now.locks)) }
    {
        let lock_seqid = self.lock_seqid_of(client, a.fs, &a.owner);
        match self.lock_held_of(client, a.fs, &a.owner, &a.file) {
            Some(lock) => Ok(Locker::Known {
                stateid: StateRef::Named(lock.stateid),
                lock_seqid,
            }),
            None => Ok(Locker::New {
                open_seqid: self.seqid_of(client, a.fs, &a.owner),
                stateid: StateRef::Named(held.stateid),
                lock_seqid,
                owner: text_of_owner(self.alloc, row, &a.owner)?,
            }),
        }
    }

    // The call of a lock of what the client holds.
    #[tactic(auto, unfolding(crate::specs::Known::locking_call))]
    fn locking_call(
        &self,
        client: u32,
        row: &ClientRow,
        a: &LockAction,
        held: &Holding,
    ) -> Result<Call, Memory>
        requires { length row.now.name ≤ 16 }
        ensures { IfOk result (λ call. call ≡ locking_call client row.now a.now self.now held.now) }
    {
        let locker = self.locker_for(client, row, a, held)?;
        Ok(make_lock(self.alloc, client, row, a, held.handle, locker)?)
    }

    /// The call of a lock, where the client holds the open.
    pub fn lock_call(
        &self,
        client: u32,
        row: &ClientRow,
        a: &LockAction,
    ) -> Result<Option<Call>, Memory>
        requires { length row.now.name ≤ 16 }
        ensures { IfOk result (λ call. call ≡ option_map (locking_call client row.now a.now self.now) (held_of client a.now.fs a.now.owner a.now.file self.now.held)) }
    {
        match self.held_of(client, a.fs, &a.owner, &a.file) {
            Some(held) => Ok(Some(self.locking_call(client, row, a, held)?)),
            None => Ok(None),
        }
    }

    /// The call of an unlock, where the client holds the lock stateid.
    pub fn unlock_call(
        &self,
        client: u32,
        row: &ClientRow,
        a: &UnlockAction,
    ) -> Result<Option<Call>, Memory>
        requires { length row.now.name ≤ 16 }
        ensures { IfOk result (λ call. call ≡ option_map (unlock_call client row.now a.now (seqid_of client a.now.fs a.now.owner self.now.lock_seqids)) (held_of client a.now.fs a.now.owner a.now.file self.now.locks)) }
    {
        let seqid = self.lock_seqid_of(client, a.fs, &a.owner);
        match self.lock_held_of(client, a.fs, &a.owner, &a.file) {
            Some(lock) => Ok(Some(make_unlock(self.alloc, client, row, a, seqid, lock)?)),
            None => Ok(None),
        }
    }

    /// What came of a release of an owner at a server. After want of memory nothing is promised of what is known.
    #[tactic(auto, unfolding(crate::specs::Known::known_freed))]
    pub fn learn_freed(
        &mut self,
        client: u32,
        action: &Action,
        owner: &Bytes,
        at: ServerNum,
        freed: Freed,
    ) -> Result<(), Memory>
        ensures { OnOk result (self.new ≡ known_freed client action.now owner.now at freed self.old) }
    {
        match freed {
            Freed::On => {
                drop_released(&mut self.locks, &self.places, client, owner.items(), at);
                self.put_down(client);
                Ok(())
            }
            Freed::Waits => Ok(self.take_up(client, action)?),
            Freed::Ends(_) => {
                self.put_down(client);
                Ok(())
            }
        }
    }

    // The reply to a LOCK of that owner.
    #[tactic(auto, unfolding(crate::specs::Known::learned_by))]
    fn learn_by(
        &mut self,
        client: u32,
        a: &LockAction,
        handle: u64,
        locker: &Locker,
        reply: &Reply,
    ) -> Result<(), Memory>
        ensures { OnOk result (self.new ≡ learned_by client a.now handle locker.now reply.now self.old) }
    {
        match locker {
            Locker::New { .. } => {
                move_on(&mut self.seqids, client, a.fs, &a.owner, reply.status)?;
                start_on(&mut self.lock_seqids, client, a.fs, &a.owner, reply.status)?;
            }
            Locker::Known { .. } => {
                move_on(&mut self.lock_seqids, client, a.fs, &a.owner, reply.status)?;
            }
        }
        Ok(hold_lock(
            &mut self.locks,
            client,
            a.fs,
            &a.owner,
            &a.file,
            handle,
            &reply.value,
        )?)
    }

    /// The reply to a LOCK.
    #[tactic(auto, unfolding(crate::specs::Known::learned_lock))]
    pub fn learn_lock(
        &mut self,
        client: u32,
        a: &LockAction,
        handle: u64,
        deed: &Deed,
        reply: &Reply,
    ) -> Result<(), Memory>
        ensures { OnOk result (self.new ≡ learned_lock client a.now handle deed.now reply.now self.old) }
    {
        match deed {
            Deed::Lock(args) => Ok(self.learn_by(client, a, handle, &args.locker, reply)?),
            _ => Ok(()),
        }
    }

    /// The reply to a LOCKU.
    pub fn learn_unlock(
        &mut self,
        client: u32,
        a: &UnlockAction,
        handle: u64,
        reply: &Reply,
    ) -> Result<(), Memory>
        ensures { OnOk result (self.new ≡ learned_unlock client a.now handle reply.now self.old) }
    {
        move_on(&mut self.lock_seqids, client, a.fs, &a.owner, reply.status)?;
        Ok(hold_lock(
            &mut self.locks,
            client,
            a.fs,
            &a.owner,
            &a.file,
            handle,
            &reply.value,
        )?)
    }
}
