//! What the clients of a script know.
ghost use Rattle.std.specs.Prelude.{◌≡◌, ◌==◌, not, filter, find, map, IfOk, OnOk, option_copied};
ghost use Rattle.nm_rules.specs.Shares.{next_seqid};
ghost use Rattle.nm_short.specs.Known.{knows_nothing, is_place_of, is_held_of, seqid_of, other_seqids, moved_on, held_of, others_held, holds_now, holds_opened, holds_closed, told_stateid, renewed_held, holds_told, learned, learned_opening, learned_open, learned_anew, learned_close, place_of, sent_to, hand_of, put_down, taken_up};

use nm_types::{
    Action, Bytes, Call, CloseAction, Deed, FsNum, Memory, OpStatus, OpenAction, Reply, ReplyValue,
    ServerNum, StateId,
};
use std::alloc::Global;
use std::marker::Model;

/// The next seqid of an owner of a client (RFC 7530, 9.1.7). An owner that isn't listed begins with 1.
#[derive(Drop)]
pub struct OwnerSeqid {
    pub client: u32,
    pub fs: FsNum,
    /// The owner's name.
    pub owner: Bytes,
    pub next: u32,
}

/// What an owner of a client holds on a file: an open, or byte-range locks.
#[derive(Drop)]
pub struct Holding {
    pub client: u32,
    pub fs: FsNum,
    /// The owner's name.
    pub owner: Bytes,
    /// The file's name.
    pub file: Bytes,
    /// The file's number, as its handle has it.
    pub handle: u64,
    /// The stateid that was given last.
    pub stateid: StateId,
}

/// Where a client believes a file system to be.
#[derive(Clone, Copy)]
pub struct Believed {
    pub client: u32,
    pub fs: FsNum,
    pub at: ServerNum,
}

/// An action of a client that waits for a file system on its way.
#[derive(Drop)]
pub struct InHand {
    pub client: u32,
    pub action: Action,
}

/// What all clients know.
pub struct Clients {
    pub(crate) alloc: Global,
    /// The next seqids of open owners.
    pub(crate) seqids: Vec<OwnerSeqid>,
    /// Those of lock owners.
    pub(crate) lock_seqids: Vec<OwnerSeqid>,
    /// The stateids of opens.
    held: Vec<Holding>,
    /// Those of lock owners.
    pub(crate) locks: Vec<Holding>,
    pub(crate) places: Vec<Believed>,
    in_hand: Vec<InHand>,
}

impl Drop for Clients {
    fn drop(self) {
        let Clients {
            alloc: _,
            seqids: _,
            lock_seqids: _,
            held: _,
            locks: _,
            places: _,
            in_hand: _,
        } = self;
    }
}

impl Model for Clients {
    ghost use Rattle.nm_short.specs.Known.{Known};

    ghost Value = { Known };

    ghost view = { λ c. record {
      seqids = c.seqids.items;
      lock_seqids = c.lock_seqids.items;
      held = c.held.items;
      locks = c.locks.items;
      places = c.places.items;
      in_hand = c.in_hand.items;
    } };
}

/// The next seqid of an owner.
#[tactic(auto, unfolding(crate::specs::Known::seqid_of))]
pub fn find_seqid(rows: &[OwnerSeqid], client: u32, fs: FsNum, owner: &[u8]) -> u32
    ensures { result ≡ seqid_of client fs owner.now rows.now }
{
    rows.iter()
        .find(|row| row.client == client && row.fs == fs && row.owner.items() == owner)
        .map(|row| row.next)
        .unwrap_or(1)
}

// The seqids of all other owners.
fn drop_seqid(rows: &mut Vec<OwnerSeqid>, client: u32, fs: FsNum, owner: &[u8])
    ensures { rows.new.items ≡ other_seqids client fs owner.now rows.old.items }
{
    rows.retain(|row| !(row.client == client && row.fs == fs && row.owner.items() == owner));
}

/// The seqid after one (RFC 7530, 9.1.7).
pub fn seqid_after(n: u32) -> u32
    ensures { result ≡ next_seqid n }
{
    if n == u32::MAX { 1 } else { n + 1 }
}

/// Moves an owner on, where the status advances.
#[tactic(auto, unfolding(crate::specs::Known::moved_on))]
pub fn move_on(
    rows: &mut Vec<OwnerSeqid>,
    client: u32,
    fs: FsNum,
    owner: &Bytes,
    status: OpStatus,
) -> Result<(), Memory>
    ensures { OnOk result (rows.new.items ≡ moved_on client fs owner.now status rows.old.items) }
{
    if status.advances() {
        let next = seqid_after(find_seqid(rows, client, fs, owner.items()));
        let owner = owner.copy()?;
        drop_seqid(rows, client, fs, owner.items());
        rows.push(OwnerSeqid {
            client,
            fs,
            owner,
            next,
        })?;
    }
    Ok(())
}

// An owner of a client holds that on the file.
fn is_held_of(row: &Holding, client: u32, fs: FsNum, owner: &[u8], file: &[u8]) -> bool
    ensures { result ≡ is_held_of client fs owner.now file.now row.now }
{
    row.client == client && row.fs == fs && row.owner.items() == owner && row.file.items() == file
}

/// What an owner of a client holds on a file.
#[tactic(auto, unfolding(crate::specs::Known::held_of))]
pub fn find_held<'a>(
    rows: &'a [Holding],
    client: u32,
    fs: FsNum,
    owner: &[u8],
    file: &[u8],
) -> Option<&'a Holding>
    ensures { option_copied result ≡ held_of client fs owner.now file.now rows.now }
{
    rows.iter()
        .find(|row| is_held_of(row, client, fs, owner, file))
}

// What all others hold.
fn drop_held(rows: &mut Vec<Holding>, client: u32, fs: FsNum, owner: &[u8], file: &[u8])
    ensures { rows.new.items ≡ others_held client fs owner.now file.now rows.old.items }
{
    rows.retain(|row| !is_held_of(row, client, fs, owner, file));
}

/// A client holds that stateid on the file, in the place of an older one.
pub fn hold_now(
    rows: &mut Vec<Holding>,
    client: u32,
    fs: FsNum,
    owner: &Bytes,
    file: &Bytes,
    handle: u64,
    id: StateId,
) -> Result<(), Memory>
    ensures { OnOk result (rows.new.items ≡ holds_now client fs owner.now file.now handle id rows.old.items) }
{
    let row = Holding {
        client,
        fs,
        owner: owner.copy()?,
        file: file.copy()?,
        handle,
        stateid: id,
    };
    drop_held(rows, client, fs, owner.items(), file.items());
    rows.push(row)?;
    Ok(())
}

// What the reply to an OPEN leaves in a client's hands.
#[tactic(auto, unfolding(crate::specs::Known::holds_opened))]
fn hold_opened(
    rows: &mut Vec<Holding>,
    client: u32,
    a: &OpenAction,
    value: &ReplyValue,
) -> Result<(), Memory>
    ensures { OnOk result (rows.new.items ≡ holds_opened client a.now value.now rows.old.items) }
{
    if let ReplyValue::Open(Some(opened)) = value {
        let id = opened.ok.stateid;
        hold_now(rows, client, a.fs, &a.owner, &a.file, opened.file, id)?;
    }
    Ok(())
}

// What the reply to a CLOSE leaves in a client's hands.
#[tactic(auto, unfolding(crate::specs::Known::holds_closed))]
fn hold_closed(rows: &mut Vec<Holding>, client: u32, a: &CloseAction, value: &ReplyValue)
    ensures { rows.new.items ≡ holds_closed client a.now value.now rows.old.items }
{
    if let ReplyValue::Close(Some(_)) = value {
        drop_held(rows, client, a.fs, a.owner.items(), a.file.items());
    }
}

// The stateid that a reply tells anew.
#[tactic(auto, unfolding(crate::specs::Known::told_stateid))]
fn told_stateid(value: &ReplyValue) -> Option<StateId>
    ensures { result ≡ told_stateid value.now }
{
    match value {
        ReplyValue::OpenConfirm(stateid) | ReplyValue::OpenDowngrade(stateid) => *stateid,
        _ => None,
    }
}

// What an owner holds on the file has that stateid then.
fn renew_row(row: &mut Holding, client: u32, a: &OpenAction, id: StateId)
    ensures { row.new ≡ renewed_held client a.now id row.old }
{
    if is_held_of(row, client, a.fs, a.owner.items(), a.file.items()) {
        row.stateid = id;
    }
}

// What an owner holds on a file has that stateid then.
fn renew_held(rows: &mut Vec<Holding>, client: u32, a: &OpenAction, id: StateId)
    ensures { rows.new.items ≡ map (renewed_held client a.now id) rows.old.items }
{
    for row in rows.iter_mut() {
        renew_row(row, client, a, id);
    }
}

// What the reply to an OPEN_CONFIRM or to an OPEN_DOWNGRADE leaves in a client's hands.
fn hold_told(rows: &mut Vec<Holding>, client: u32, a: &OpenAction, value: &ReplyValue)
    ensures { rows.new.items ≡ holds_told client a.now (told_stateid value.now) rows.old.items }
{
    if let Some(id) = told_stateid(value) {
        renew_held(rows, client, a, id);
    }
}

// Where a client believes a file system to be.
#[tactic(auto, unfolding(crate::specs::Known::place_of))]
fn find_place(rows: &[Believed], client: u32, fs: FsNum, first: ServerNum) -> ServerNum
    ensures { result ≡ place_of client fs first rows.now }
{
    rows.iter()
        .find(|row| row.client == client && row.fs == fs)
        .map(|row| row.at)
        .unwrap_or(first)
}

// What is believed of other clients and file systems.
fn drop_place(rows: &mut Vec<Believed>, client: u32, fs: FsNum)
    ensures { rows.new.items ≡ filter (λ row. not (is_place_of client fs row)) rows.old.items }
{
    rows.retain(|row| !(row.client == client && row.fs == fs));
}

// What all other clients have in hand.
#[tactic(auto, unfolding(crate::specs::Known::put_down))]
fn drop_hand(rows: &mut Vec<InHand>, client: u32)
    ensures { rows.new.items ≡ put_down client rows.old.items }
{
    rows.retain(|row| !(row.client == client));
}

// What a client has in hand.
fn find_hand<'a>(rows: &'a [InHand], client: u32) -> Option<&'a InHand>
    ensures { option_copied result ≡ find (λ row. row.client == client) rows.now }
{
    rows.iter().find(|row| row.client == client)
}

impl Clients {
    /// Clients that know nothing yet. It takes no memory.
    pub fn new(alloc: Global) -> Clients
        ensures { result ≡ knows_nothing }
    {
        Clients {
            alloc,
            seqids: Vec::new(alloc),
            lock_seqids: Vec::new(alloc),
            held: Vec::new(alloc),
            locks: Vec::new(alloc),
            places: Vec::new(alloc),
            in_hand: Vec::new(alloc),
        }
    }

    /// The next seqid of an owner.
    pub fn seqid_of(&self, client: u32, fs: FsNum, owner: &Bytes) -> u32
        ensures { result ≡ seqid_of client fs owner.now self.now.seqids }
    {
        find_seqid(&self.seqids, client, fs, owner.items())
    }

    /// What an owner of a client holds on a file.
    pub fn held_of(&self, client: u32, fs: FsNum, owner: &Bytes, file: &Bytes) -> Option<&Holding>
        ensures { option_copied result ≡ held_of client fs owner.now file.now self.now.held }
    {
        find_held(&self.held, client, fs, owner.items(), file.items())
    }

    // The reply to an OPEN.
    fn learn_open(&mut self, client: u32, a: &OpenAction, reply: &Reply) -> Result<(), Memory>
        ensures { OnOk result (self.new ≡ learned_open client a.now reply.now self.old) }
    {
        move_on(&mut self.seqids, client, a.fs, &a.owner, reply.status)?;
        Ok(hold_opened(&mut self.held, client, a, &reply.value)?)
    }

    // The reply to an OPEN_CONFIRM or to an OPEN_DOWNGRADE.
    fn learn_anew(&mut self, client: u32, a: &OpenAction, reply: &Reply) -> Result<(), Memory>
        ensures { OnOk result (self.new ≡ learned_anew client a.now reply.now self.old) }
    {
        move_on(&mut self.seqids, client, a.fs, &a.owner, reply.status)?;
        hold_told(&mut self.held, client, a, &reply.value);
        Ok(())
    }

    // The reply to a CLOSE.
    fn learn_close(&mut self, client: u32, a: &CloseAction, reply: &Reply) -> Result<(), Memory>
        ensures { OnOk result (self.new ≡ learned_close client a.now reply.now self.old) }
    {
        move_on(&mut self.seqids, client, a.fs, &a.owner, reply.status)?;
        hold_closed(&mut self.held, client, a, &reply.value);
        hold_closed(&mut self.locks, client, a, &reply.value);
        Ok(())
    }

    // The reply to an operation of an open or of a create.
    #[tactic(auto, unfolding(crate::specs::Known::learned_opening))]
    fn learn_opening(
        &mut self,
        client: u32,
        a: &OpenAction,
        deed: &Deed,
        reply: &Reply,
    ) -> Result<(), Memory>
        ensures { OnOk result (self.new ≡ learned_opening client a.now deed.now reply.now self.old) }
    {
        match deed {
            Deed::Open(_) => Ok(self.learn_open(client, a, reply)?),
            Deed::OpenConfirm(_) => Ok(self.learn_anew(client, a, reply)?),
            _ => Ok(()),
        }
    }

    /// The reply to a call that a client made for an action. After want of memory nothing is promised of what is known.
    #[tactic(auto, unfolding(crate::specs::Known::learned))]
    pub fn learn(
        &mut self,
        client: u32,
        action: &Action,
        call: &Call,
        reply: &Reply,
    ) -> Result<(), Memory>
        ensures { OnOk result (self.new ≡ learned client action.now call.now reply.now self.old) }
    {
        match action {
            Action::Open(a) | Action::Create(a) => {
                Ok(self.learn_opening(client, a, &call.deed, reply)?)
            }
            Action::Close(a) => Ok(self.learn_close(client, a, reply)?),
            Action::Downgrade(a) => Ok(self.learn_anew(client, a, reply)?),
            Action::Lock(a) => Ok(self.learn_lock(client, a, call.file, &call.deed, reply)?),
            Action::Unlock(a) => Ok(self.learn_unlock(client, a, call.file, reply)?),
            Action::Test(_) | Action::Release(_) => Ok(()),
            Action::Read(_) | Action::Write(_) | Action::Size(_) => Ok(()),
            Action::Remove(_) | Action::MkDir(_) | Action::List(_) => Ok(()),
        }
    }

    /// Where a client believes a file system to be that was at `first` at first.
    pub fn place_of(&self, client: u32, fs: FsNum, first: ServerNum) -> ServerNum
        ensures { result ≡ place_of client fs first self.now.places }
    {
        find_place(&self.places, client, fs, first)
    }

    /// A client was sent to that server. After want of memory nothing is promised of what is known.
    #[tactic(auto, unfolding(crate::specs::Known::sent_to))]
    pub fn send_to(&mut self, client: u32, fs: FsNum, at: ServerNum) -> Result<(), Memory>
        ensures { OnOk result (self.new ≡ record self.old { places = sent_to client fs at self.old.places }) }
    {
        drop_place(&mut self.places, client, fs);
        self.places.push(Believed { client, fs, at })?;
        Ok(())
    }

    /// The action that a client has in hand, once more.
    #[tactic(auto, unfolding(crate::specs::Known::hand_of))]
    pub fn in_hand(&self, client: u32) -> Result<Option<Action>, Memory>
        ensures { IfOk result (λ action. action ≡ hand_of client self.now.in_hand) }
    {
        match find_hand(&self.in_hand, client) {
            Some(row) => Ok(Some(row.action.copy()?)),
            None => Ok(None),
        }
    }

    /// A client has nothing in hand any more.
    pub fn put_down(&mut self, client: u32)
        ensures { self.new ≡ record self.old { in_hand = put_down client self.old.in_hand } }
    {
        drop_hand(&mut self.in_hand, client);
    }

    /// A client has that action in hand. After want of memory nothing is promised of what is known.
    #[tactic(auto, unfolding(crate::specs::Known::taken_up))]
    pub fn take_up(&mut self, client: u32, action: &Action) -> Result<(), Memory>
        ensures { OnOk result (self.new ≡ record self.old { in_hand = taken_up client action.now self.old.in_hand }) }
    {
        let action = action.copy()?;
        drop_hand(&mut self.in_hand, client);
        self.in_hand.push(InHand { client, action })?;
        Ok(())
    }
}
