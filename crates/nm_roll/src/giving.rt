//! What SETCLIENTID is answered, and what it leaves (RFC 7530, 16.33).
ghost use Rattle.std.specs.Prelude.{◌≡◌, ◌≤◌, ◌<◌, length, Some, IfOk, OnOk, OnErr, option_copied, is_none};
ghost use Rattle.nm_roll.specs.Records.{string_at, unless_lapsed};
ghost use Rattle.nm_roll.specs.Clients.{numbered, next_clientid, next_confirm, confirmed_in, unconfirmed_in, is_of_other, confirmed_start, unconfirmed_start, known_clientid, has_no_room, given_case, set_case, in_use, path_in, after_set, given_record};
ghost use Rattle.nm_roll.specs.declared.cases.SetCase.TheVariants.{Known, New};
ghost use Rattle.nm_roll.specs.declared.answers.SetAnswer.TheVariants.{Given};

use crate::cases::SetCase;
use crate::clients::{COUNTERS, same_start};
use crate::rows::{find_string, put_waiting};
use crate::{CallbackPath, Confirmed, Roll, SetAnswer, StringRow, Unconfirmed};
use nm_types::{Bytes, Memory, Principal};
use std::alloc::Global;

/// So many client strings may be known.
pub const MOST_STRINGS: usize = 4096;

/// The last value of a counter.
pub const LAST: u64 = 281_474_976_710_655;

// The tag, or the server's number, above the counter.
fn numbered(upper: u64, counter: u64) -> u64
    requires upper { upper < 65536 }
    requires counter { counter < 281474976710656 }

    ensures { result ≡ numbered upper counter }
{
    upper * COUNTERS + counter
}

// Whether the confirmed record, lapsed or not, has another principal.
#[tactic(auto, unfolding(crate::specs::Clients::is_of_other))]
fn is_of_other(row: Option<&StringRow>, principal: Principal) -> bool
    ensures { result ≡ is_of_other principal (confirmed_in (option_copied row.entry)) }
{
    match row {
        Some(row) => row.is_of_other(principal),
        None => false,
    }
}

impl Confirmed {
    // Its clientid, if it is of that verifier and principal.
    #[tactic(auto, unfolding(crate::specs::Clients::confirmed_start))]
    fn start(&self, verifier: u64, principal: Principal) -> Option<u64>
        ensures { result ≡ confirmed_start verifier principal (Some self.now) }
    {
        if same_start(verifier, principal, self.verifier, self.principal) {
            Some(self.clientid)
        } else {
            None
        }
    }
}

impl StringRow {
    // The clientid of a confirmed record of that verifier and principal whose lease stands.
    #[tactic(auto, unfolding(crate::specs::Clients::confirmed_start))]
    fn standing_start(&self, verifier: u64, principal: Principal) -> Option<u64>
        ensures { result ≡ confirmed_start verifier principal (unless_lapsed self.now.confirmed) }
    {
        match self.standing() {
            Some(known) => known.start(verifier, principal),
            None => None,
        }
    }

    /// The clientid of a record of that verifier and principal that waits.
    #[tactic(auto, unfolding(crate::specs::Clients::unconfirmed_start))]
    pub fn waiting_start(&self, verifier: u64, principal: Principal) -> Option<u64>
        ensures { result ≡ unconfirmed_start verifier principal self.now.unconfirmed }
    {
        match &self.unconfirmed {
            Some(waiting) => {
                if same_start(verifier, principal, waiting.verifier, waiting.principal) {
                    Some(waiting.clientid)
                } else {
                    None
                }
            }
            None => None,
        }
    }

    // The clientid of a record of that verifier and principal.
    #[tactic(auto, unfolding(crate::specs::Clients::known_clientid))]
    fn known_clientid(&self, verifier: u64, principal: Principal) -> Option<u64>
        ensures { result ≡ known_clientid verifier principal (Some self.now) }
    {
        match self.standing_start(verifier, principal) {
            Some(clientid) => Some(clientid),
            None => self.waiting_start(verifier, principal),
        }
    }

    // Where the client of a record whose lease stands is called back.
    fn path(&self) -> Option<&CallbackPath>
        ensures { option_copied result ≡ path_in (Some self.now) }
    {
        match self.standing() {
            Some(known) => known.path.as_ref(),
            None => None,
        }
    }
}

// The clientid of a record of that verifier and principal.
#[tactic(auto, unfolding(crate::specs::Clients::known_clientid, crate::specs::Clients::confirmed_start, crate::specs::Clients::unconfirmed_start, crate::specs::Records::unless_lapsed))]
fn known_clientid(row: Option<&StringRow>, verifier: u64, principal: Principal) -> Option<u64>
    ensures { result ≡ known_clientid verifier principal (option_copied row.entry) }
{
    match row {
        Some(row) => row.known_clientid(verifier, principal),
        None => None,
    }
}

// The answer where a string is another principal's.
#[tactic(auto, unfolding(crate::specs::Clients::in_use))]
fn in_use(alloc: Global, path: Option<&CallbackPath>) -> Result<SetAnswer, Memory>
    ensures { IfOk result (λ a. a ≡ in_use (option_copied path.entry)) }
{
    match path {
        Some(path) => Ok(SetAnswer::InUse {
            netid: path.netid.copy()?,
            addr: path.addr.copy()?,
        }),
        None => Ok(SetAnswer::InUse {
            netid: Bytes::new(alloc),
            addr: Bytes::new(alloc),
        }),
    }
}

/// Where the client of a string is called back, if its lease stands.
#[tactic(auto, unfolding(crate::specs::Records::unless_lapsed))]
pub fn path_in(row: Option<&StringRow>) -> Option<&CallbackPath>
    ensures { option_copied result ≡ path_in (option_copied row.entry) }
{
    match row {
        Some(row) => row.path(),
        None => None,
    }
}

impl Roll {
    /// The next clientid.
    pub(crate) fn next_clientid(&self) -> u64
        requires { self.now.clientids < 281474976710655 }
        ensures { result ≡ next_clientid self.now }
    {
        numbered(self.tag as u64, self.clientids + 1)
    }

    // The next confirm verifier.
    fn next_confirm(&self) -> u64
        requires { self.now.confirms < 281474976710655 }
        ensures { result ≡ next_confirm self.now }
    {
        numbered(self.server.number() as u64, self.confirms + 1)
    }

    // Whether a start that isn't known finds no room.
    #[tactic(auto, unfolding(crate::specs::Clients::has_no_room))]
    fn has_no_room(&self, row: Option<&StringRow>) -> bool
        ensures { result ≡ has_no_room self.now (option_copied row.entry) }
    {
        let crowded = row.is_none() && MOST_STRINGS <= self.rows.len();
        crowded || LAST <= self.clientids || LAST <= self.confirms
    }

    // What it is where the string isn't another principal's.
    #[tactic(auto, unfolding(crate::specs::Clients::given_case))]
    fn given_case(&self, row: Option<&StringRow>, known: Option<u64>) -> SetCase
        ensures { result ≡ given_case self.now (option_copied row.entry) known }
    {
        match known {
            Some(clientid) => {
                if LAST <= self.confirms {
                    SetCase::NoRoom
                } else {
                    SetCase::Known(clientid)
                }
            }
            None => {
                if self.has_no_room(row) {
                    SetCase::NoRoom
                } else {
                    SetCase::New
                }
            }
        }
    }

    /// The line of the table of SETCLIENTID.
    #[tactic(auto, unfolding(crate::specs::Clients::set_case))]
    pub(crate) fn set_case(&self, id: &[u8], verifier: u64, principal: Principal) -> SetCase
        ensures { result ≡ set_case self.now (string_at id.now self.now.table) verifier principal }
    {
        let row = find_string(&self.rows, id);
        if is_of_other(row, principal) {
            SetCase::OfOther
        } else {
            self.given_case(row, known_clientid(row, verifier, principal))
        }
    }

    /// The answer where the string is another principal's.
    pub(crate) fn in_use_at(&self, id: &[u8]) -> Result<SetAnswer, Memory>
        ensures { IfOk result (λ a. a ≡ in_use (path_in (string_at id.now self.now.table))) }
    {
        let alloc = *self.rows.allocator();
        in_use(alloc, path_in(find_string(&self.rows, id)))
    }

    /// The string gets a record that waits, with that clientid and a new confirm verifier.
    #[tactic(auto, unfolding(crate::specs::Clients::after_set))]
    pub(crate) fn give(
        &mut self,
        id: &[u8],
        verifier: u64,
        principal: Principal,
        callback: &CallbackPath,
        clientid: u64,
    ) -> Result<SetAnswer, Memory>
        requires room { self.old.confirms < 281474976710655 }
        requires length { length id.now ≤ 1024 }

        ensures answer { IfOk result (λ a. a ≡ Given clientid (next_confirm self.old)) }
        ensures after { OnOk result (self.new ≡ after_set self.old id.now verifier principal callback.now (Known clientid)) }
        ensures err { OnErr result (self.new ≡ self.old) }
    {
        let confirm = self.next_confirm();
        let waiting = Unconfirmed {
            verifier,
            principal,
            clientid,
            confirm,
            path: callback.copy()?,
        };
        put_waiting(&mut self.rows, id, waiting)?;
        self.confirms += 1;
        Ok(SetAnswer::Given { clientid, confirm })
    }

    /// The string gets a record that waits, with a new clientid and a new confirm verifier.
    #[tactic(auto, unfolding(crate::specs::Clients::after_set))]
    pub(crate) fn give_new(
        &mut self,
        id: &[u8],
        verifier: u64,
        principal: Principal,
        callback: &CallbackPath,
    ) -> Result<SetAnswer, Memory>
        requires room { self.old.confirms < 281474976710655 }
        requires number { self.old.clientids < 281474976710655 }
        requires length { length id.now ≤ 1024 }

        ensures answer { IfOk result (λ a. a ≡ Given (next_clientid self.old) (next_confirm self.old)) }
        ensures after { OnOk result (self.new ≡ after_set self.old id.now verifier principal callback.now New) }
        ensures err { OnErr result (self.new ≡ self.old) }
    {
        let clientid = self.next_clientid();
        let given = self.give(id, verifier, principal, callback, clientid)?;
        self.clientids += 1;
        Ok(given)
    }
}
