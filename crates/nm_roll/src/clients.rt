//! How a client makes itself known: what SETCLIENTID and SETCLIENTID_CONFIRM find in the row of its string, and what they
//! leave there (RFC 7530, 16.33 and 16.34).
ghost use Rattle.std.specs.Prelude.{◌≡◌, ◌==◌, ◌&&◌, Option, None, Some, option_copied, option_map, IfOk};
ghost use Rattle.std.specs.Option.{option_or};
ghost use Rattle.nm_roll.specs.Records.{same_principal, unless_lapsed, renewed_record};
ghost use Rattle.nm_roll.specs.Clients.{is_of_other, same_start, confirmed_start, unconfirmed_start, is_waiting_pair, is_last_pair, is_number, has_pair, waits_for_other, is_pair_of_other, has_clientid, confirm_case, ended_by, answer_of_confirm, row_of_confirm, confirmed_row, confirm_found, taken_over, begun, in_use, path_in, known_clientid, confirmed_in, unconfirmed_in};

use crate::cases::ConfirmCase;
use crate::{CallbackPath, ConfirmAnswer, Confirmed, SetAnswer, StringRow, Unconfirmed};
use nm_types::{Bytes, EndCause, Ended, Era, Memory, Principal};
use std::alloc::Global;

/// Counters have 48 bits.
pub const COUNTERS: u64 = 281_474_976_710_656;

/// Whether both are the same principal.
pub fn same_principal(a: Principal, b: Principal) -> bool
    ensures { result ≡ same_principal a b }
{
    a.flavor == b.flavor && a.uid == b.uid
}

/// Whether a record of the verifier `v` and the principal `p` is of that start.
pub fn same_start(verifier: u64, principal: Principal, v: u64, p: Principal) -> bool
    ensures { result ≡ same_start verifier principal v p }
{
    v == verifier && same_principal(principal, p)
}

fn is_number(n: u64, number: Option<u64>) -> bool
    ensures { result ≡ is_number n number }
{
    match number {
        Some(m) => m == n,
        None => false,
    }
}

impl Unconfirmed {
    // The record, confirmed at this moment.
    fn begin(self, clock: u64) -> Confirmed
        ensures { result ≡ begun clock self }
    {
        Confirmed {
            verifier: self.verifier,
            principal: self.principal,
            clientid: self.clientid,
            confirm: Some(self.confirm),
            path: Some(self.path),
            lapsed: false,
            renewed: clock,
            moved: [false; 64],
            moved_at: 0,
        }
    }

    // Whether that is its pair.
    #[tactic(auto, unfolding(crate::specs::Clients::is_waiting_pair))]
    fn is_pair(&self, clientid: u64, confirm: u64) -> bool
        ensures { result ≡ is_waiting_pair clientid confirm (Some self.now) }
    {
        self.clientid == clientid && self.confirm == confirm
    }
}

impl Confirmed {
    // Whether that is its last pair.
    #[tactic(auto, unfolding(crate::specs::Clients::is_last_pair))]
    fn is_pair(&self, clientid: u64, confirm: u64) -> bool
        ensures { result ≡ is_last_pair clientid confirm (Some self.now) }
    {
        self.clientid == clientid && is_number(confirm, self.confirm)
    }
}

impl StringRow {
    /// The confirmed record, unless it has lapsed.
    #[tactic(auto, unfolding(crate::specs::Records::unless_lapsed))]
    pub fn standing(&self) -> Option<&Confirmed>
        ensures { option_copied result ≡ unless_lapsed self.now.confirmed }
    {
        match &self.confirmed {
            Some(known) => { if known.lapsed { None } else { Some(known) } }
            None => None,
        }
    }

    // Whether that is the pair of the record that waits.
    #[tactic(auto, unfolding(crate::specs::Clients::is_waiting_pair))]
    fn is_waiting_pair(&self, clientid: u64, confirm: u64) -> bool
        ensures { result ≡ is_waiting_pair clientid confirm self.now.unconfirmed }
    {
        match &self.unconfirmed {
            Some(known) => known.is_pair(clientid, confirm),
            None => false,
        }
    }

    // Whether that is the last pair of the confirmed known.
    #[tactic(auto, unfolding(crate::specs::Clients::is_last_pair))]
    fn is_last_pair(&self, clientid: u64, confirm: u64) -> bool
        ensures { result ≡ is_last_pair clientid confirm self.now.confirmed }
    {
        match &self.confirmed {
            Some(known) => known.is_pair(clientid, confirm),
            None => false,
        }
    }

    /// Whether a record of the string has that pair.
    pub fn has_pair(&self, clientid: u64, confirm: u64) -> bool
        ensures { result ≡ has_pair clientid confirm self.now }
    {
        self.is_waiting_pair(clientid, confirm) || self.is_last_pair(clientid, confirm)
    }

    /// Whether the record that waits has another principal.
    #[tactic(auto, unfolding(crate::specs::Clients::waits_for_other))]
    pub fn waits_for_other(&self, principal: Principal) -> bool
        ensures { result ≡ waits_for_other principal self.now.unconfirmed }
    {
        match &self.unconfirmed {
            Some(known) => !same_principal(principal, known.principal),
            None => false,
        }
    }

    /// Whether the confirmed record, lapsed or not, has another principal.
    #[tactic(auto, unfolding(crate::specs::Clients::is_of_other))]
    pub fn is_of_other(&self, principal: Principal) -> bool
        ensures { result ≡ is_of_other principal self.now.confirmed }
    {
        match &self.confirmed {
            Some(known) => !same_principal(principal, known.principal),
            None => false,
        }
    }

    // Whether the pair was given to another principal.
    #[tactic(auto, unfolding(crate::specs::Clients::is_pair_of_other))]
    fn is_pair_of_other(&self, clientid: u64, confirm: u64, principal: Principal) -> bool
        ensures { result ≡ is_pair_of_other clientid confirm principal self.now }
    {
        let waits = self.is_waiting_pair(clientid, confirm) && self.waits_for_other(principal);
        let stands = self.is_last_pair(clientid, confirm) && self.is_of_other(principal);
        waits || stands
    }

    // Whether the lease of a record with that clientid stands.
    #[tactic(auto, unfolding(crate::specs::Clients::has_clientid))]
    fn stands_as(&self, clientid: u64) -> bool
        ensures { result ≡ has_clientid clientid (unless_lapsed self.now.confirmed) }
    {
        match self.standing() {
            Some(known) => known.clientid == clientid,
            None => false,
        }
    }

    // Whether the pair is the last one of a record whose lease stands.
    #[tactic(auto, unfolding(crate::specs::Clients::is_last_pair))]
    fn stands_with(&self, clientid: u64, confirm: u64) -> bool
        ensures { result ≡ is_last_pair clientid confirm (unless_lapsed self.now.confirmed) }
    {
        match self.standing() {
            Some(known) => known.is_pair(clientid, confirm),
            None => false,
        }
    }

    // The line of the table of SETCLIENTID_CONFIRM.
    #[tactic(auto, unfolding(crate::specs::Clients::confirm_case))]
    fn confirm_case(&self, clientid: u64, confirm: u64, principal: Principal) -> ConfirmCase
        ensures { result ≡ confirm_case clientid confirm principal self.now }
    {
        let waits = self.is_waiting_pair(clientid, confirm);
        if self.is_pair_of_other(clientid, confirm, principal) {
            ConfirmCase::Refused
        } else if waits && self.stands_as(clientid) {
            ConfirmCase::Renews
        } else if waits {
            ConfirmCase::Begins
        } else if self.stands_with(clientid, confirm) {
            ConfirmCase::Repeats
        } else {
            ConfirmCase::NoPair
        }
    }

    // The start of the client that ends when the record that waits is confirmed.
    #[tactic(auto, unfolding(crate::specs::Clients::ended_by))]
    fn ended_by(&self) -> Option<Ended>
        ensures { result ≡ ended_by self.now.id (unless_lapsed self.now.confirmed) self.now.unconfirmed }
    {
        match (self.standing(), &self.unconfirmed) {
            (Some(old), Some(new)) => {
                if old.verifier == new.verifier {
                    None
                } else {
                    Some(Ended {
                        instance: self.id.instance(old.verifier, old.principal),
                        era: Era::new(old.clientid % COUNTERS),
                        why: EndCause::Restart {
                            from: old.verifier,
                            to: new.verifier,
                        },
                    })
                }
            }
            _ => None,
        }
    }

    // The confirmed record takes the pair and the path of the one that waits, and its lease is renewed.
    #[tactic(auto, unfolding(crate::specs::Clients::taken_over))]
    fn take_over(&mut self, clock: u64)
        ensures { self.new ≡ record self.old { confirmed = taken_over clock self.old.unconfirmed self.old.confirmed; unconfirmed = None } }
    {
        if let Some(new) = self.unconfirmed.take() {
            if let Some(known) = &mut self.confirmed {
                known.confirm = Some(new.confirm);
                known.path = Some(new.path);
                known.renewed = clock;
            }
        }
    }

    // The record that waits is confirmed.
    fn begin(&mut self, clock: u64)
        ensures { self.new ≡ record self.old { confirmed = option_map (begun clock) self.old.unconfirmed; unconfirmed = None } }
    {
        self.confirmed = match self.unconfirmed.take() {
            Some(new) => Some(new.begin(clock)),
            None => None,
        };
    }

    // The lease of the confirmed record is renewed.
    fn renew(&mut self, clock: u64)
        ensures { self.new ≡ record self.old { confirmed = option_map (renewed_record clock) self.old.confirmed } }
    {
        if let Some(known) = &mut self.confirmed {
            known.renewed = clock;
        }
    }

    /// The pair is confirmed at this moment.
    #[tactic(auto, unfolding(crate::specs::Clients::confirm_found, crate::specs::Clients::answer_of_confirm, crate::specs::Clients::row_of_confirm, crate::specs::Clients::confirmed_row))]
    pub fn confirm(
        &mut self,
        clock: u64,
        clientid: u64,
        confirm: u64,
        principal: Principal,
    ) -> ConfirmAnswer
        ensures answer { result ≡ confirm_found clientid confirm principal (Some self.old) }
        ensures row { self.new ≡ confirmed_row clock clientid confirm principal self.old }
    {
        match self.confirm_case(clientid, confirm, principal) {
            ConfirmCase::Refused => ConfirmAnswer::InUse,
            ConfirmCase::Renews => {
                self.take_over(clock);
                ConfirmAnswer::Done { ended: None }
            }
            ConfirmCase::Begins => {
                let ended = self.ended_by();
                self.begin(clock);
                ConfirmAnswer::Done { ended }
            }
            ConfirmCase::Repeats => {
                self.renew(clock);
                ConfirmAnswer::Done { ended: None }
            }
            ConfirmCase::NoPair => ConfirmAnswer::Stale,
        }
    }
}
