//! The rows of client strings: how one is found, and how it changes.
ghost use Rattle.std.specs.Prelude.{◌≡◌, ◌≤◌, option_copied, length, find, position, map, filter, not, IfOk, OnOk, OnErr};
ghost use Rattle.nm_roll.specs.Records.{has_string, string_at, change_string, change_first};
ghost use Rattle.nm_roll.specs.Clients.{has_pair, waits, confirm_found, confirmed_row};
ghost use Rattle.nm_roll.specs.Leases.{is_client, is_instance, touch_found, touched, lapsed_row};
ghost use Rattle.nm_roll.specs.Moves.{brought_row, settled_row, gone_row, probed_row, all_settled, all_gone};

use crate::moves::brought;
use crate::{ClientString, ConfirmAnswer, StringRow, Touch, Unconfirmed};
use nm_types::{FsNum, Instance, LeasePass, Memory, Principal};

/// What is known of a string.
#[tactic(auto, unfolding(crate::specs::Records::string_at))]
pub fn find_string<'a>(rows: &'a [StringRow], id: &[u8]) -> Option<&'a StringRow>
    ensures { option_copied result ≡ string_at id.now rows.now }
{
    rows.iter().find(|row| id == row.id.bytes())
}

/// The row whose confirmed record, lapsed or not, is of that instance.
pub fn find_instance<'a>(rows: &'a [StringRow], instance: &Instance) -> Option<&'a StringRow>
    ensures { option_copied result ≡ find (is_instance instance.now) rows.now }
{
    rows.iter().find(|row| row.is_instance(instance))
}

// The place of a string's row.
fn place_of_string(rows: &[StringRow], id: &[u8]) -> Option<usize>
    ensures { result ≡ position (has_string id.now) rows.now }
{
    rows.iter().position(|row| id == row.id.bytes())
}

// The place of the row with that pair.
fn place_of_pair(rows: &[StringRow], clientid: u64, confirm: u64) -> Option<usize>
    ensures { result ≡ position (has_pair clientid confirm) rows.now }
{
    rows.iter().position(|row| row.has_pair(clientid, confirm))
}

// The place of the row with that clientid.
fn place_of_client(rows: &[StringRow], clientid: u64) -> Option<usize>
    ensures { result ≡ position (is_client clientid) rows.now }
{
    rows.iter().position(|row| row.is_client(clientid))
}

// The place of the row of that instance.
fn place_of_instance(rows: &[StringRow], instance: &Instance) -> Option<usize>
    ensures { result ≡ position (is_instance instance.now) rows.now }
{
    rows.iter().position(|row| row.is_instance(instance))
}

/// The record waits in the row of its string, in place of an earlier one. A string that wasn't known gets a row.
pub fn put_waiting(rows: &mut Vec<StringRow>, id: &[u8], waiting: Unconfirmed) -> Result<(), Memory>
    requires { length id.now ≤ 1024 }

    ensures ok { OnOk result (rows.new.items ≡ change_string id.now (waits waiting) rows.old.items) }
    ensures err { OnErr result (rows.new.items ≡ rows.old.items) }
{
    match place_of_string(rows, id) {
        Some(at) => {
            rows[at].unconfirmed = Some(waiting);
            Ok(())
        }
        None => {
            let id = ClientString::make(*rows.allocator(), id)?;
            Ok(rows.push(StringRow {
                id,
                confirmed: None,
                unconfirmed: Some(waiting),
            })?)
        }
    }
}

/// The instance has a record in the row of its string, with that clientid. A string that wasn't known gets a row.
pub fn put_brought(
    rows: &mut Vec<StringRow>,
    clock: u64,
    clientid: u64,
    instance: &Instance,
) -> Result<(), Memory>
    ensures ok { OnOk result (rows.new.items ≡ change_string instance.now.id (brought_row clock clientid instance.now) rows.old.items) }
    ensures err { OnErr result (rows.new.items ≡ rows.old.items) }
{
    let string = instance.id();
    match place_of_string(rows, string) {
        Some(at) => {
            rows[at].bring(clock, clientid, instance);
            Ok(())
        }
        None => {
            let id = ClientString::make(*rows.allocator(), string)?;
            Ok(rows.push(StringRow {
                id,
                confirmed: Some(brought(clock, clientid, instance)),
                unconfirmed: None,
            })?)
        }
    }
}

/// The pair is confirmed at this moment, in the row that has it.
pub fn confirm_pair(
    rows: &mut Vec<StringRow>,
    clock: u64,
    clientid: u64,
    confirm: u64,
    principal: Principal,
) -> ConfirmAnswer
    ensures answer { result ≡ confirm_found clientid confirm principal (find (has_pair clientid confirm) rows.old.items) }
    ensures rows { rows.new.items ≡ change_first (has_pair clientid confirm) (confirmed_row clock clientid confirm principal) rows.old.items }
{
    match place_of_pair(rows, clientid, confirm) {
        Some(at) => rows[at].confirm(clock, clientid, confirm, principal),
        None => ConfirmAnswer::Stale,
    }
}

/// The client of that clientid comes with an operation.
pub fn touch_client(rows: &mut Vec<StringRow>, lease: u64, clock: u64, clientid: u64) -> Touch
    ensures answer { result ≡ touch_found lease clock (find (is_client clientid) rows.old.items) }
    ensures rows { rows.new.items ≡ change_first (is_client clientid) (touched clock) rows.old.items }
{
    match place_of_client(rows, clientid) {
        Some(at) => rows[at].touch(lease, clock),
        None => Touch::Stale,
    }
}

/// The client of that instance comes with an operation.
pub fn touch_instance(
    rows: &mut Vec<StringRow>,
    lease: u64,
    clock: u64,
    instance: &Instance,
) -> Touch
    ensures answer { result ≡ touch_found lease clock (find (is_instance instance.now) rows.old.items) }
    ensures rows { rows.new.items ≡ change_first (is_instance instance.now) (touched clock) rows.old.items }
{
    match place_of_instance(rows, instance) {
        Some(at) => rows[at].touch(lease, clock),
        None => Touch::Stale,
    }
}

/// The lease of the confirmed record of a string has lapsed.
pub fn lapse(rows: &mut Vec<StringRow>, id: &[u8])
    ensures { rows.new.items ≡ change_first (has_string id.now) lapsed_row rows.old.items }
{
    if let Some(at) = place_of_string(rows, id) {
        rows[at].lapse();
    }
}

// A file system came where the instance has state.
fn settle(rows: &mut Vec<StringRow>, clock: u64, fs: FsNum, instance: &Instance)
    ensures { rows.new.items ≡ change_first (is_instance instance.now) (settled_row clock fs) rows.old.items }
{
    if let Some(at) = place_of_instance(rows, instance) {
        rows[at].settle(clock, fs);
    }
}

/// A file system came where the instances of these passes have state.
#[tactic(auto, unfolding(crate::specs::Moves::all_settled))]
pub fn settle_all(rows: &mut Vec<StringRow>, clock: u64, fs: FsNum, passes: &[LeasePass])
    ensures { rows.new.items ≡ all_settled clock fs passes.now rows.old.items }
{
    for pass in passes {
        settle(rows, clock, fs, &pass.instance);
    }
}

// A file system has moved away where the instance has state.
fn add_moved(rows: &mut Vec<StringRow>, lease: u64, clock: u64, fs: FsNum, instance: &Instance)
    ensures { rows.new.items ≡ change_first (is_instance instance.now) (gone_row lease clock fs) rows.old.items }
{
    if let Some(at) = place_of_instance(rows, instance) {
        rows[at].add_moved(lease, clock, fs);
    }
}

/// A file system has moved away where these instances have state.
#[tactic(auto, unfolding(crate::specs::Moves::all_gone))]
pub fn add_moved_all(
    rows: &mut Vec<StringRow>,
    lease: u64,
    clock: u64,
    fs: FsNum,
    instances: &[Instance],
)
    ensures { rows.new.items ≡ all_gone lease clock fs instances.now rows.old.items }
{
    for instance in instances {
        add_moved(rows, lease, clock, fs, instance);
    }
}

/// The client of that clientid has asked where the file system is.
pub fn drop_moved(rows: &mut Vec<StringRow>, clientid: u64, fs: FsNum)
    ensures { rows.new.items ≡ change_first (is_client clientid) (probed_row fs) rows.old.items }
{
    if let Some(at) = place_of_client(rows, clientid) {
        rows[at].drop_moved(fs);
    }
}
