//! The records of one client string.
ghost use Rattle.std.specs.Prelude.{◌≡◌, ◌≤◌, length, IfOk};

use crate::CallbackPath;
use nm_types::{Bytes, FsNum, Instance, Items, LeasePass, Memory, MoveNum, Principal};
use std::alloc::Global;
use std::marker::Model;

/// The string by which a client names itself, of at most 1,024 bytes (RFC 7530, 9.1.1).
#[derive(Drop)]
pub struct ClientString {
    bytes: Bytes,
}

impl Model for ClientString {
    ghost use Rattle.std.specs.Prelude.{List, ℕ, length, ◌≤◌};

    ghost Value = { List ℕ };

    ghost view = { λ s. s.bytes };

    ghost invariant = { λ s. length s.bytes ≤ 1024 };
}

/// The start of a client with that string, verifier and principal. It takes no memory.
pub fn start_of(id: &[u8], verifier: u64, principal: Principal) -> Instance
    requires { length id.now ≤ 1024 }

    ensures { result ≡ record { id = id.now; verifier = verifier; principal = principal } }
{
    match Instance::make(id, verifier, principal) {
        Ok(instance) => instance,
        // The string is no longer than an instance's may be.
        Err(_) => unreachable!(),
    }
}

impl ClientString {
    /// The string of these bytes.
    pub fn make(alloc: Global, id: &[u8]) -> Result<ClientString, Memory>
        requires { length id.now ≤ 1024 }
        ensures { IfOk result (λ s. s ≡ id.now) }
    {
        Ok(ClientString {
            bytes: Bytes::from_slice(alloc, id)?,
        })
    }

    /// Its bytes.
    pub fn bytes(&self) -> &[u8]
        ensures value { result.now ≡ self.now }
        ensures length { length result.now ≤ 1024 }
    {
        self.bytes.items()
    }

    /// The start of the client with that verifier and principal. It takes no memory.
    pub fn instance(&self, verifier: u64, principal: Principal) -> Instance
        ensures { result ≡ record { id = self.now; verifier = verifier; principal = principal } }
    {
        start_of(self.bytes.items(), verifier, principal)
    }

    /// The same string once more.
    pub fn copy(&self) -> Result<ClientString, Memory>
        ensures { IfOk result (λ s. s ≡ self.now) }
    {
        Ok(ClientString {
            bytes: self.bytes.copy()?,
        })
    }
}

/// A record that waits for the client to confirm it.
#[derive(Drop)]
pub struct Unconfirmed {
    /// The verifier of the client's start.
    pub verifier: u64,
    /// Who sent the client's string.
    pub principal: Principal,
    pub clientid: u64,
    /// The verifier that confirms the record, with the clientid.
    pub confirm: u64,
    pub path: CallbackPath,
}

/// A record that was confirmed, or came with a file system from another server.
#[derive(Drop)]
pub struct Confirmed {
    /// The verifier of the client's start.
    pub verifier: u64,
    pub principal: Principal,
    pub clientid: u64,
    /// The verifier that confirmed it last. A record that came with a file system has none at first.
    pub confirm: Option<u64>,
    /// Where the client is called back, if that is known.
    pub path: Option<CallbackPath>,
    /// Whether the lease has lapsed.
    pub lapsed: bool,
    /// When the lease was last renewed, by the server's clock.
    pub renewed: u64,
    /// The moved set: by its number, whether a file system has moved away where the client has state.
    pub moved: [bool; 64],
    /// When one was last added to the moved set, by the server's clock.
    pub moved_at: u64,
}

/// What is known of a client string.
#[derive(Drop)]
pub struct StringRow {
    pub id: ClientString,
    pub confirmed: Option<Confirmed>,
    pub unconfirmed: Option<Unconfirmed>,
}

/// Leases that wait for a file system which is on its way here.
#[derive(Drop)]
pub struct Reservation {
    pub fs: FsNum,
    /// The number of its move.
    pub number: MoveNum,
    /// Those who have state in it, each with its record here.
    pub passes: Items<LeasePass>,
}

impl Unconfirmed {
    /// The same record once more.
    pub fn copy(&self) -> Result<Unconfirmed, Memory>
        ensures { IfOk result (λ r. r ≡ self.now) }
    {
        Ok(Unconfirmed {
            verifier: self.verifier,
            principal: self.principal,
            clientid: self.clientid,
            confirm: self.confirm,
            path: self.path.copy()?,
        })
    }
}

// The same path once more, where there is one.
fn copy_path(path: &Option<CallbackPath>) -> Result<Option<CallbackPath>, Memory>
    ensures { IfOk result (λ p. p ≡ path.now) }
{
    match path {
        Some(path) => Ok(Some(path.copy()?)),
        None => Ok(None),
    }
}

impl Confirmed {
    /// The same record once more.
    pub fn copy(&self) -> Result<Confirmed, Memory>
        ensures { IfOk result (λ r. r ≡ self.now) }
    {
        Ok(Confirmed {
            verifier: self.verifier,
            principal: self.principal,
            clientid: self.clientid,
            confirm: self.confirm,
            path: copy_path(&self.path)?,
            lapsed: self.lapsed,
            renewed: self.renewed,
            moved: self.moved,
            moved_at: self.moved_at,
        })
    }
}

// The same record once more, where there is one.
fn copy_confirmed(confirmed: &Option<Confirmed>) -> Result<Option<Confirmed>, Memory>
    ensures { IfOk result (λ c. c ≡ confirmed.now) }
{
    match confirmed {
        Some(known) => Ok(Some(known.copy()?)),
        None => Ok(None),
    }
}

// The same record once more, where there is one.
fn copy_unconfirmed(unconfirmed: &Option<Unconfirmed>) -> Result<Option<Unconfirmed>, Memory>
    ensures { IfOk result (λ u. u ≡ unconfirmed.now) }
{
    match unconfirmed {
        Some(waiting) => Ok(Some(waiting.copy()?)),
        None => Ok(None),
    }
}

impl StringRow {
    /// The same row once more.
    pub fn copy(&self) -> Result<StringRow, Memory>
        ensures { IfOk result (λ row. row ≡ self.now) }
    {
        Ok(StringRow {
            id: self.id.copy()?,
            confirmed: copy_confirmed(&self.confirmed)?,
            unconfirmed: copy_unconfirmed(&self.unconfirmed)?,
        })
    }
}

impl Reservation {
    /// The same reservation once more.
    pub fn copy(&self) -> Result<Reservation, Memory>
        ensures { IfOk result (λ x. x ≡ self.now) }
    {
        Ok(Reservation {
            fs: self.fs,
            number: self.number,
            passes: self.passes.copy()?,
        })
    }
}
