//! Reserving the leases of those who have state in a file system that is on its way here (RFC 7931).
ghost use Rattle.std.specs.Prelude.{◌≡◌, ◌<◌, Option, Some, IfNone, IfOk, OnOk, OnErr, option_copied, option_map};
ghost use Rattle.nm_roll.specs.Records.{RollNow, string_at, unless_lapsed};
ghost use Rattle.nm_roll.specs.Clients.{confirmed_in};
ghost use Rattle.nm_roll.specs.Moves.{reserved_as, waiting_clientid, lacks_room, made_case, case_of, record_case, refusal_at, refusal_among, with_case, with_record, with_records, era_in, pass_in, passes_in, reservation_of, held_passes, holding, answer_of_new, after_new, reserve_case};
ghost use Rattle.nm_roll.specs.Moves.Reserved.{Held};
ghost use Rattle.nm_roll.specs.declared.cases.RecordCase.TheVariants.{Made};
ghost use Rattle.nm_roll.specs.declared.records.StringRow.{StringRow as AnyRow};

use crate::cases::{RecordCase, ReserveCase};
use crate::clients::{COUNTERS, same_start};
use crate::giving::{LAST, MOST_STRINGS};
use crate::records::start_of;
use crate::rows::{find_string, put_brought};
use crate::told::{confirmed_in, drop_for, find_reservation};
use crate::{Confirmed, Reservation, Reserve, Roll, StringRow};
use nm_types::{Era, FsNum, Instance, Items, LeasePass, Memory, MoveNum};
use std::alloc::Global;

// The clientid of a record of this instance that waits.
#[tactic(auto, unfolding(crate::specs::Moves::waiting_clientid, crate::specs::Clients::unconfirmed_start))]
fn waiting_clientid(row: Option<&StringRow>, instance: &Instance) -> Option<u64>
    ensures { result ≡ waiting_clientid instance.now (option_copied row.entry) }
{
    match row {
        Some(row) => row.waiting_start(instance.verifier(), instance.principal()),
        None => None,
    }
}

// The confirmed record of a string, unless it has lapsed.
#[tactic(auto, unfolding(crate::specs::Records::unless_lapsed))]
fn standing_in(row: Option<&StringRow>) -> Option<&Confirmed>
    ensures { option_copied result ≡ unless_lapsed (confirmed_in (option_copied row.entry)) }
{
    match row {
        Some(row) => row.standing(),
        None => None,
    }
}

// The era of a string's confirmed record.
#[tactic(auto, unfolding(crate::specs::Moves::era_in))]
fn era_in(known: Option<&Confirmed>) -> Era
    ensures { result ≡ era_in (option_copied known.entry) }
{
    match known {
        Some(known) => Era::new(known.clientid % COUNTERS),
        None => Era::new(0),
    }
}

// The same rows once more.
fn copy_rows(alloc: Global, rows: &[StringRow]) -> Result<Vec<StringRow>, Memory>
    ensures { IfOk result (λ copies. copies.items ≡ rows.now) }
{
    let mut copies = Vec::new(alloc);
    for row in rows {
        copies.push(row.copy()?)?;
    }
    Ok(copies)
}

// The same reservations once more.
fn copy_reservations(
    alloc: Global,
    reservations: &[Reservation],
) -> Result<Vec<Reservation>, Memory>
    ensures { IfOk result (λ copies. copies.items ≡ reservations.now) }
{
    let mut copies = Vec::new(alloc);
    for reservation in reservations {
        copies.push(reservation.copy()?)?;
    }
    Ok(copies)
}

// What an instance is given by the record of its string.
fn pass_in(rows: &[StringRow], instance: &Instance) -> LeasePass
    ensures { result ≡ pass_in rows.now instance.now }
{
    LeasePass {
        instance: instance.share(),
        era: era_in(confirmed_in(find_string(rows, instance.id()))),
    }
}

// What the instances are given by their records.
fn passes_in(
    alloc: Global,
    rows: &[StringRow],
    instances: &[Instance],
) -> Result<Items<LeasePass>, Memory>
    ensures { IfOk result (λ passes. passes ≡ passes_in rows.now instances.now) }
{
    let mut passes = Items::new(alloc);
    for instance in instances {
        passes.push(pass_in(rows, instance))?;
    }
    Ok(passes)
}

// The answer that every instance has its record.
fn held(alloc: Global, passes: &[LeasePass]) -> Result<Reserve, Memory>
    ensures { IfOk result (λ a. reserved_as a ≡ Held passes.now) }
{
    Ok(Reserve::Passes(Vec::from_slice(alloc, passes)?))
}

impl Roll {
    // The same roll once more.
    fn copy(&self) -> Result<Roll, Memory>
        ensures { IfOk result (λ roll. roll ≡ self.now) }
    {
        let alloc = *self.rows.allocator();
        Ok(Roll {
            server: self.server,
            tag: self.tag,
            lease: self.lease,
            clock: self.clock,
            clientids: self.clientids,
            confirms: self.confirms,
            rows: copy_rows(alloc, &self.rows)?,
            reservations: copy_reservations(alloc, &self.reservations)?,
        })
    }

    // Whether a new record finds no room.
    #[tactic(auto, unfolding(crate::specs::Moves::lacks_room))]
    fn lacks_room(&self, row: Option<&StringRow>) -> bool
        ensures { result ≡ lacks_room self.now (option_copied row.entry) }
    {
        let crowded = row.is_none() && MOST_STRINGS <= self.rows.len();
        crowded || LAST <= self.clientids
    }

    // What becomes of an instance that has no record whose lease stands.
    #[tactic(auto, unfolding(crate::specs::Moves::made_case))]
    fn made_case(&self, row: Option<&StringRow>, waiting: Option<u64>) -> RecordCase
        ensures { result ≡ made_case self.now (option_copied row.entry) waiting }
    {
        match waiting {
            Some(clientid) => RecordCase::Waits(clientid),
            None => {
                if self.lacks_room(row) {
                    RecordCase::Crowded
                } else {
                    RecordCase::Made
                }
            }
        }
    }

    // What becomes of an instance by what is known of its string.
    #[tactic(auto, unfolding(crate::specs::Moves::record_case, crate::specs::Moves::case_of))]
    fn case_of(&self, instance: &Instance, row: Option<&StringRow>) -> RecordCase
        ensures { result ≡ record_case self.now instance.now (option_copied row.entry) }
    {
        match standing_in(row) {
            Some(known) => known.case_of(instance),
            None => self.made_case(row, waiting_clientid(row, instance)),
        }
    }

    // What becomes of an instance that is to be reserved.
    fn record_case(&self, instance: &Instance) -> RecordCase
        ensures { result ≡ record_case self.now instance.now (string_at instance.now.id self.now.table) }
    {
        self.case_of(instance, find_string(&self.rows, instance.id()))
    }

    // A record of the instance is made with a new clientid.
    #[tactic(auto, unfolding(crate::specs::Moves::with_case))]
    fn make_record(&mut self, instance: &Instance) -> Result<(), Memory>
        requires { self.old.clientids < 281474976710655 }

        ensures { OnOk result (self.new ≡ with_case self.old instance.now Made) }
    {
        let clientid = self.next_clientid();
        put_brought(&mut self.rows, self.clock, clientid, instance)?;
        self.clientids += 1;
        Ok(())
    }

    // The instance has a record, or is refused.
    #[tactic(auto, unfolding(crate::specs::Moves::refusal_at, crate::specs::Moves::refusal_by, crate::specs::Moves::with_record, crate::specs::Moves::with_case))]
    fn add_record(&mut self, instance: &Instance) -> Result<Option<Reserve>, Memory>
        ensures answer { IfOk result (λ a. option_map reserved_as a ≡ refusal_at self.old instance.now) }
        ensures after { OnOk result (self.new ≡ with_record self.old instance.now) }
    {
        match self.record_case(instance) {
            RecordCase::Stands => Ok(None),
            RecordCase::Differs(here) => Ok(Some(Reserve::Differs {
                here,
                there: instance.share(),
            })),
            RecordCase::Crowded => Ok(Some(Reserve::Full)),
            RecordCase::Waits(clientid) => {
                put_brought(&mut self.rows, self.clock, clientid, instance)?;
                Ok(None)
            }
            RecordCase::Made => {
                self.make_record(instance)?;
                Ok(None)
            }
        }
    }

    // Each instance has a record, or one is refused.
    #[tactic(auto, unfolding(crate::specs::Moves::refusal_among, crate::specs::Moves::with_records))]
    fn add_records(&mut self, instances: &[Instance]) -> Result<Option<Reserve>, Memory>
        ensures answer { IfOk result (λ a. option_map reserved_as a ≡ refusal_among self.old instances.now) }
        ensures after { IfOk result (λ a. IfNone a (self.new ≡ with_records self.old instances.now)) }
    {
        for instance in instances {
            match self.add_record(instance)? {
                Some(refusal) => return Ok(Some(refusal)),
                None => {}
            }
        }
        Ok(None)
    }

    // The instances are reserved, by the records that they have.
    #[tactic(auto, unfolding(crate::specs::Moves::holding))]
    fn hold(
        &mut self,
        fs: FsNum,
        number: MoveNum,
        instances: &[Instance],
    ) -> Result<Reserve, Memory>
        ensures answer { IfOk result (λ a. reserved_as a ≡ Held (passes_in self.old.table instances.now)) }
        ensures after { OnOk result (self.new ≡ holding self.old fs number instances.now) }
    {
        let alloc = *self.rows.allocator();
        let passes = passes_in(alloc, &self.rows, instances)?;
        let answer = held(alloc, passes.items())?;
        drop_for(&mut self.reservations, fs);
        self.reservations.push(Reservation { fs, number, passes })?;
        Ok(answer)
    }

    // The line of the table by the reservation of that file system.
    pub(crate) fn reserve_case(&self, fs: FsNum, number: MoveNum) -> ReserveCase
        ensures { result ≡ reserve_case number (reservation_of fs self.now.reservations) }
    {
        case_by(find_reservation(&self.reservations, fs), number)
    }

    /// The passes of the reservation of that file system once more.
    pub(crate) fn reserve_again(&self, fs: FsNum) -> Result<Reserve, Memory>
        ensures { IfOk result (λ a. reserved_as a ≡ Held (held_passes (reservation_of fs self.now.reservations))) }
    {
        let alloc = *self.rows.allocator();
        match find_reservation(&self.reservations, fs) {
            Some(found) => held(alloc, found.passes.items()),
            None => held(alloc, &[]),
        }
    }

    /// All instances are reserved, or none. It works on a copy, which stands only where no instance is refused.
    #[tactic(auto, unfolding(crate::specs::Moves::answer_of_new, crate::specs::Moves::after_new))]
    pub(crate) fn reserve_new(
        &mut self,
        fs: FsNum,
        number: MoveNum,
        instances: &[Instance],
    ) -> Result<Reserve, Memory>
        ensures answer { IfOk result (λ a. reserved_as a ≡ answer_of_new self.old instances.now (refusal_among self.old instances.now)) }
        ensures after { OnOk result (self.new ≡ after_new self.old fs number instances.now (refusal_among self.old instances.now)) }
        ensures err { OnErr result (self.new ≡ self.old) }
    {
        let mut draft = self.copy()?;
        match draft.add_records(instances)? {
            Some(refusal) => Ok(refusal),
            None => {
                let answer = draft.hold(fs, number, instances)?;
                *self = draft;
                Ok(answer)
            }
        }
    }
}

// What an earlier reservation makes of one of that number.
#[tactic(auto, unfolding(crate::specs::Moves::reserve_case))]
fn case_by(earlier: Option<&Reservation>, number: MoveNum) -> ReserveCase
    ensures { result ≡ reserve_case number (option_copied earlier.entry) }
{
    match earlier {
        Some(earlier) => {
            if number.number() < earlier.number.number() {
                ReserveCase::Outdated(earlier.number)
            } else if number.number() == earlier.number.number() {
                ReserveCase::Again
            } else {
                ReserveCase::Begun
            }
        }
        None => ReserveCase::Begun,
    }
}

impl Confirmed {
    // What becomes of an instance whose string has this record, with a lease that stands.
    #[tactic(auto, unfolding(crate::specs::Moves::case_of))]
    fn case_of(&self, instance: &Instance) -> RecordCase
        ensures { (r : RollNow) (row : Option AnyRow) → result ≡ case_of r instance.now row (Some self.now) }
    {
        let same = same_start(
            instance.verifier(),
            instance.principal(),
            self.verifier,
            self.principal,
        );
        if same {
            RecordCase::Stands
        } else {
            RecordCase::Differs(start_of(instance.id(), self.verifier, self.principal))
        }
    }
}
