//! Leases: how operations renew them, and when they lapse (RFC 7530, 9.5 and 9.6).
ghost use Rattle.std.specs.Prelude.{◌≡◌, None, Some, option_map, if◌then◌else◌};
ghost use Rattle.std.specs.List.{list_any};
ghost use Rattle.nm_roll.specs.Records.{pass_of};
ghost use Rattle.nm_roll.specs.Clients.{has_clientid};
ghost use Rattle.nm_roll.specs.Leases.{is_client, is_start, is_instance, is_over, has_moved, touch_of, touch_found, touched, touched_record, deadline, is_named, is_reserved, waits_alike, lapsed_record, lapsed_row};

use crate::clients::{COUNTERS, same_start};
use crate::{Confirmed, Reservation, StringRow, Touch};
use nm_types::{Era, Instance, LeasePass};

/// Whether an instance is among those of these passes.
pub fn is_named(instance: &Instance, passes: &[LeasePass]) -> bool
    ensures { result ≡ is_named instance.now passes.now }
{
    passes.iter().any(|pass| instance.is_same(&pass.instance))
}

/// Whether a file system on its way to this server has state of the instance.
#[tactic(auto, unfolding(crate::specs::Leases::is_reserved))]
pub fn is_reserved(instance: &Instance, reservations: &[Reservation]) -> bool
    ensures { result ≡ is_reserved instance.now reservations.now }
{
    reservations.iter().any(|reservation| is_named(instance, reservation.passes.items()))
}

impl Confirmed {
    /// Whether more than two lease times have passed since a file system was last added to the moved set.
    #[tactic(auto, unfolding(crate::specs::Leases::is_over))]
    pub fn is_over(&self, lease: u64, clock: u64) -> bool
        ensures { result ≡ is_over lease clock self.now }
    {
        (self.moved_at as u128) + 2 * (lease as u128) < (clock as u128)
    }

    // Whether a flag of the moved set is up.
    fn has_flag(&self) -> bool
        ensures { result ≡ list_any (λ b. b) self.now.moved }
    {
        self.moved.iter().any(|b| *b)
    }

    // Whether a file system is in the moved set.
    #[tactic(auto, unfolding(crate::specs::Leases::has_moved))]
    fn has_moved(&self, lease: u64, clock: u64) -> bool
        ensures { result ≡ has_moved lease clock self.now }
    {
        let over = self.is_over(lease, clock);
        !over && self.has_flag()
    }

    /// The last moment at which its lease stands.
    pub fn deadline(&self, lease: u64) -> u64
        ensures { result ≡ deadline lease self.now.renewed }
    {
        self.renewed.saturating_add(lease)
    }

    // Its lease is renewed, unless it has lapsed.
    #[tactic(auto, unfolding(crate::specs::Leases::touched_record))]
    fn touch(&mut self, clock: u64)
        ensures { self.new ≡ touched_record clock self.old }
    {
        if !self.lapsed {
            self.renewed = clock;
        }
    }
}

impl StringRow {
    /// Whether its confirmed record, lapsed or not, has that clientid.
    #[tactic(auto, unfolding(crate::specs::Clients::has_clientid))]
    pub fn is_client(&self, clientid: u64) -> bool
        ensures { result ≡ is_client clientid self.now }
    {
        match &self.confirmed {
            Some(known) => known.clientid == clientid,
            None => false,
        }
    }

    // Whether its confirmed record is of the instance's verifier and principal.
    #[tactic(auto, unfolding(crate::specs::Leases::is_start))]
    fn is_start(&self, instance: &Instance) -> bool
        ensures { result ≡ is_start instance.now self.now.confirmed }
    {
        match &self.confirmed {
            Some(known) => same_start(
                instance.verifier(),
                instance.principal(),
                known.verifier,
                known.principal,
            ),
            None => false,
        }
    }

    /// Whether its confirmed record, lapsed or not, is of that instance.
    pub fn is_instance(&self, instance: &Instance) -> bool
        ensures { result ≡ is_instance instance.now self.now }
    {
        instance.id() == self.id.bytes() && self.is_start(instance)
    }

    /// What the instance of a confirmed record is given.
    pub fn pass_of(&self, known: &Confirmed) -> LeasePass
        ensures { result ≡ pass_of self.now.id known.now }
    {
        LeasePass {
            instance: self.id.instance(known.verifier, known.principal),
            era: Era::new(known.clientid % COUNTERS),
        }
    }

    // What the client is told that comes with an operation.
    #[tactic(auto, unfolding(crate::specs::Leases::touch_of))]
    fn touch_of(&self, lease: u64, clock: u64) -> Touch
        ensures { result ≡ touch_of lease clock self.now.id self.now.confirmed }
    {
        match &self.confirmed {
            Some(known) => {
                if known.lapsed {
                    Touch::Expired
                } else if known.has_moved(lease, clock) {
                    Touch::Moved(self.pass_of(known))
                } else {
                    Touch::Pass(self.pass_of(known))
                }
            }
            None => Touch::Stale,
        }
    }

    // The lease of the confirmed record is renewed, unless it has lapsed.
    fn renew_standing(&mut self, clock: u64)
        ensures { self.new ≡ touched clock self.old }
    {
        if let Some(known) = &mut self.confirmed {
            known.touch(clock);
        }
    }

    /// The client comes with an operation: its lease is renewed, unless it has lapsed.
    #[tactic(auto, unfolding(crate::specs::Leases::touch_found))]
    pub fn touch(&mut self, lease: u64, clock: u64) -> Touch
        ensures answer { result ≡ touch_found lease clock (Some self.old) }
        ensures row { self.new ≡ touched clock self.old }
    {
        let told = self.touch_of(lease, clock);
        self.renew_standing(clock);
        told
    }

    // Whether the record that waits has the clientid of the confirmed one.
    #[tactic(auto, unfolding(crate::specs::Leases::waits_alike))]
    fn waits_alike(&self) -> bool
        ensures { result ≡ waits_alike self.now.confirmed self.now.unconfirmed }
    {
        match (&self.confirmed, &self.unconfirmed) {
            (Some(known), Some(new)) => new.clientid == known.clientid,
            _ => false,
        }
    }

    // A record that waits with the clientid of the confirmed one goes.
    fn drop_alike(&mut self)
        ensures { self.new ≡ record self.old { unconfirmed = if waits_alike self.old.confirmed self.old.unconfirmed then None else self.old.unconfirmed } }
    {
        if self.waits_alike() {
            self.unconfirmed = None;
        }
    }

    // The confirmed record is marked as lapsed.
    fn mark_lapsed(&mut self)
        ensures { self.new ≡ record self.old { confirmed = option_map lapsed_record self.old.confirmed } }
    {
        if let Some(known) = &mut self.confirmed {
            known.lapsed = true;
        }
    }

    /// The lease of the confirmed record has lapsed.
    #[tactic(auto, unfolding(crate::specs::Leases::lapsed_row))]
    pub fn lapse(&mut self)
        ensures { self.new ≡ lapsed_row self.old }
    {
        self.drop_alike();
        self.mark_lapsed();
    }
}
