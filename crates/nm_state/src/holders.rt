//! Who holds something, in the order of string, verifier, flavor and user.
ghost use Rattle.std.specs.Prelude.{◌≡◌, ◌≤◌, ◌<◌, [], true, length, IfSome, OnOk, OnErr};
ghost use Rattle.std.specs.List.{list_any};
ghost use Rattle.std.specs.Vec.{vec_capacity};
ghost use Rattle.nm_rules.specs.Holders.{gathered, is_opener_of, is_owner_of, known_of, opener_of, parties_rise, put_party};
ghost use Rattle.nm_state.specs.Listing.{put_at};

use nm_types::{Instance, Memory, OpenRow, OwnerRow};

/// A live open is of that instance.
pub fn has_open(rows: &[OpenRow], instance: &Instance) -> bool
    ensures { result ≡ list_any (is_opener_of instance.now) rows.now }
{
    rows.iter().any(|row| instance.is_same(&row.owner.instance))
}

/// An owner that is known is of that instance.
pub fn has_owner(rows: &[OwnerRow], instance: &Instance) -> bool
    ensures { result ≡ list_any (is_owner_of instance.now) rows.now }
{
    rows.iter().any(|row| instance.is_same(&row.owner.instance))
}

// The place of an instance in a rising list that doesn't have it.
#[tactic(auto, using(crate::proofs::HolderLemmas::place_found))]
fn place_of(list: &[Instance], instance: &Instance) -> Option<usize>
    requires { parties_rise list.now ≡ true }
    ensures bound { IfSome result (λ place. place ≤ length list.now) }
    ensures value { put_party instance.now list.now ≡ put_at result instance.now list.now }
{
    list.binary_search(instance).err()
}

// Puts an instance in its place in a rising list, once. Memory can be wanting only where the list is full.
fn put(list: &mut Vec<Instance>, instance: &Instance) -> Result<(), Memory>
    requires { parties_rise list.old.items ≡ true }
    ensures ok { OnOk result (list.new.items ≡ put_party instance.now list.old.items) }
    ensures capacity { vec_capacity list.old ≤ vec_capacity list.new }
    ensures full { OnErr result (vec_capacity list.old < length (put_party instance.now list.old.items)) }
{
    match place_of(list, instance) {
        Some(place) => Ok(list.insert(place, *instance)?),
        None => Ok(()),
    }
}

// Puts the instances of these opens into a rising list, each once. Memory can be wanting only where there is less room.
fn gather_openers(rows: &[OpenRow], list: &mut Vec<Instance>) -> Result<(), Memory>
    requires { parties_rise list.old.items ≡ true }
    ensures ok { OnOk result (list.new.items ≡ gathered opener_of rows.now list.old.items) }
    ensures capacity { OnOk result (vec_capacity list.old ≤ vec_capacity list.new) }
    ensures full { OnErr result (vec_capacity list.old < length (gathered opener_of rows.now list.old.items)) }
{
    // From the last row on, as the definition has it.
    for at in (0..rows.len()).rev() {
        put(list, &rows[at].owner.instance)?;
    }
    Ok(())
}

// Puts the instances of these owners into a rising list, each once.
fn gather_known(rows: &[OwnerRow], list: &mut Vec<Instance>) -> Result<(), Memory>
    requires { parties_rise list.old.items ≡ true }
    ensures ok { OnOk result (list.new.items ≡ gathered known_of rows.now list.old.items) }
    ensures capacity { OnOk result (vec_capacity list.old ≤ vec_capacity list.new) }
    ensures full { OnErr result (vec_capacity list.old < length (gathered known_of rows.now list.old.items)) }
{
    for at in (0..rows.len()).rev() {
        put(list, &rows[at].owner.instance)?;
    }
    Ok(())
}

/// Lists the instances of these opens and owners, each once. Memory can be wanting only where there is less room.
#[tactic(auto, using(crate::proofs::HolderLemmas::known_rise, crate::proofs::HolderLemmas::fewer_known))]
pub fn gather(
    opens: &[OpenRow],
    owners: &[OwnerRow],
    list: &mut Vec<Instance>,
) -> Result<(), Memory>
    requires { list.old.items ≡ [] }
    ensures ok { OnOk result (list.new.items ≡ gathered opener_of opens.now (gathered known_of owners.now [])) }
    ensures capacity { OnOk result (vec_capacity list.old ≤ vec_capacity list.new) }
    ensures full { OnErr result (vec_capacity list.old < length (gathered opener_of opens.now (gathered known_of owners.now []))) }
{
    gather_known(owners, list)?;
    gather_openers(opens, list)
}
