//! What the roll tells of its clients and their leases.
ghost use Rattle.std.specs.Prelude.{◌≡◌, ◌==◌, ◌&&◌, find, option_copied, option_map, IfOk};
ghost use Rattle.nm_roll.specs.Records.{string_at, unless_lapsed, party_of, era_of};
ghost use Rattle.nm_roll.specs.Clients.{confirmed_in, path_in};
ghost use Rattle.nm_types.specs.declared.leases.EndCause.TheVariants.{Lapse};
ghost use Rattle.nm_roll.specs.Leases.{is_reserved, is_due, lapse_of, lapse_found, expire_answer, deadline};
ghost use Rattle.nm_roll.specs.Moves.{is_numbered, is_for, without, without_of, reservation_of};

use crate::giving::path_in;
use crate::leases::is_reserved;
use crate::rows::find_string;
use crate::{CallbackPath, Confirmed, Reservation, Roll, StringRow};
use nm_types::{EndCause, Ended, FsNum, Memory, MoveNum};

/// The confirmed record, lapsed or not.
pub fn confirmed_in(row: Option<&StringRow>) -> Option<&Confirmed>
    ensures { option_copied result ≡ confirmed_in (option_copied row.entry) }
{
    match row {
        Some(row) => row.confirmed.as_ref(),
        None => None,
    }
}

/// The clientid of the confirmed record, lapsed or not.
pub fn clientid_of(row: Option<&StringRow>) -> Option<u64>
    ensures { result ≡ option_map (λ c. c.clientid) (confirmed_in (option_copied row.entry)) }
{
    match confirmed_in(row) {
        Some(known) => Some(known.clientid),
        None => None,
    }
}

// The path of a record, where it has one.
fn copied(path: Option<&CallbackPath>) -> Result<Option<CallbackPath>, Memory>
    ensures { IfOk result (λ p. p ≡ option_copied path.entry) }
{
    match path {
        Some(path) => Ok(Some(path.copy()?)),
        None => Ok(None),
    }
}

/// Where the client of a record is called back, if its lease stands.
#[tactic(auto, unfolding(crate::specs::Records::unless_lapsed))]
pub fn copy_path_in(row: Option<&StringRow>) -> Result<Option<CallbackPath>, Memory>
    ensures { IfOk result (λ path. path ≡ path_in (option_copied row.entry)) }
{
    Ok(copied(path_in(row))?)
}

impl StringRow {
    // How the lease of its record ends if it lapses now.
    fn lapse_of(&self, known: &Confirmed, lease: u64, clock: u64) -> Ended
        ensures { result ≡ record { instance = party_of self.now.id known.now; era = era_of known.now.clientid; why = Lapse (deadline lease known.now.renewed) clock } }
    {
        let pass = self.pass_of(known);
        Ended {
            instance: pass.instance,
            era: pass.era,
            why: EndCause::Lapse {
                deadline: known.deadline(lease),
                now: clock,
            },
        }
    }
}

impl Roll {
    // Whether the lease of a string's confirmed record lapses now.
    #[tactic(auto, unfolding(crate::specs::Leases::is_due))]
    fn is_due(&self, row: &StringRow, known: &Confirmed) -> bool
        ensures { result ≡ is_due self.now row.now.id known.now }
    {
        let pass = row.pass_of(known);
        let over = known.deadline(self.lease) < self.clock;
        let reserved = is_reserved(&pass.instance, &self.reservations);
        !known.lapsed && !reserved && over
    }

    // What lapses now of a row.
    #[tactic(auto, unfolding(crate::specs::Leases::lapse_found))]
    fn lapse_in(&self, row: &StringRow) -> Option<Ended>
        ensures { result ≡ lapse_found self.now row.now.id row.now.confirmed }
    {
        match &row.confirmed {
            Some(known) => {
                if self.is_due(row, known) {
                    Some(row.lapse_of(known, self.lease, self.clock))
                } else {
                    None
                }
            }
            None => None,
        }
    }

    /// What lapses now of a string.
    #[tactic(auto, unfolding(crate::specs::Leases::expire_answer, crate::specs::Leases::lapse_in))]
    pub(crate) fn lapse_at(&self, id: &[u8]) -> Option<Ended>
        ensures { result ≡ expire_answer self.now id.now }
    {
        match find_string(&self.rows, id) {
            Some(row) => self.lapse_in(row),
            None => None,
        }
    }
}

// Whether the reservation is of that file system and that move.
fn is_numbered(reservation: &Reservation, fs: FsNum, number: MoveNum) -> bool
    ensures { result ≡ is_numbered fs number reservation.now }
{
    reservation.fs.number() == fs.number() && reservation.number.number() == number.number()
}

// Whether the reservation is of that file system.
fn is_for(reservation: &Reservation, fs: FsNum) -> bool
    ensures { result ≡ is_for fs reservation.now }
{
    reservation.fs.number() == fs.number()
}

/// The reservation of that file system and that move.
pub fn find_numbered(list: &[Reservation], fs: FsNum, number: MoveNum) -> Option<&Reservation>
    ensures { option_copied result ≡ find (is_numbered fs number) list.now }
{
    list.iter().find(|x| is_numbered(x, fs, number))
}

/// The reservation of that file system.
#[tactic(auto, unfolding(crate::specs::Moves::reservation_of))]
pub fn find_reservation(list: &[Reservation], fs: FsNum) -> Option<&Reservation>
    ensures { option_copied result ≡ reservation_of fs list.now }
{
    list.iter().find(|x| is_for(x, fs))
}

/// The reservations without those of that file system and that move.
pub fn drop_numbered(list: &mut Vec<Reservation>, fs: FsNum, number: MoveNum)
    ensures { list.new.items ≡ without fs number list.old.items }
{
    list.retain(|x| !is_numbered(x, fs, number));
}

/// The reservations without that of a file system.
pub fn drop_for(list: &mut Vec<Reservation>, fs: FsNum)
    ensures { list.new.items ≡ without_of fs list.old.items }
{
    list.retain(|x| !is_for(x, fs));
}
