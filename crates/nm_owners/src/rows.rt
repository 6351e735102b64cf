//! Work on a list of owners.
ghost use Rattle.std.specs.Prelude.{◌≡◌, [], ◌∷◌, IfOk, OnOk, OnErr, filter, not, option_copied, option_map, position};
ghost use Rattle.nm_types.specs.Owners.{same_owner};
ghost use Rattle.nm_rules.specs.Past.{noted_row, confirms};
ghost use Rattle.nm_rules.specs.Seqids.{is_confirmed, judged, without_recalls, owner_at, put_owner, owners_after};
ghost use Rattle.nm_rules.specs.Seqids.OwnerWord.{GoneOf};
ghost use Rattle.nm_owners.specs.Rows.{is_of};

use nm_types::{Call, Deed, Instance, Items, Judgement, Memory, OpStatus, Owner, OwnerRow, Reply};
use std::alloc::Global;

/// What is kept of an owner.
#[tactic(auto, unfolding(nm_rules::specs::Seqids::owner_at))]
pub fn find<'a>(rows: &'a [OwnerRow], owner: &Owner) -> Option<&'a OwnerRow>
    ensures { option_copied result ≡ owner_at owner.now rows.now }
{
    rows.iter().find(|row| owner.is_same(&row.owner))
}

/// What a call's seqid says of it, by what is kept of its owner.
#[tactic(auto, unfolding(nm_rules::specs::Seqids::judged))]
pub fn judge(rows: &[OwnerRow], owner: &Owner, seqid: u32, call: &Call) -> Judgement
    ensures { result ≡ judged (owner_at owner.now rows.now) seqid call.now.caller call.now.file call.now.deed }
{
    match find(rows, owner) {
        Some(row) => nm_rules::judge(row, seqid, call),
        None => Judgement::Unknown,
    }
}

/// The reply that is kept of an owner.
pub fn kept<'a>(rows: &'a [OwnerRow], owner: &Owner) -> Option<&'a Reply>
    ensures { option_copied result ≡ option_map (λ row. row.reply) (owner_at owner.now rows.now) }
{
    match find(rows, owner) {
        Some(row) => Some(&row.reply),
        None => None,
    }
}

/// Whether an owner is confirmed.
pub fn confirmed(rows: &[OwnerRow], owner: &Owner) -> bool
    ensures { result ≡ is_confirmed (owner_at owner.now rows.now) }
{
    match find(rows, owner) {
        Some(row) => row.confirmed,
        None => false,
    }
}

// Whether the operation is an OPEN_CONFIRM.
#[tactic(auto, unfolding(nm_rules::specs::Past::confirms))]
fn confirms(deed: &Deed) -> bool
    ensures { result ≡ confirms deed.now }
{
    match deed {
        Deed::OpenConfirm(_) => true,
        _ => false,
    }
}

// The reply as it is kept: without delegations to recall.
fn kept_reply(alloc: Global, reply: &Reply) -> Result<Reply, Memory>
    ensures { IfOk result (λ kept. kept ≡ without_recalls reply.now) }
{
    Ok(Reply {
        status: reply.status,
        value: reply.value.copy()?,
        recalls: Items::new(alloc),
    })
}

// What is kept of an owner that a call moves on to that seqid.
fn noted(
    rows: &Vec<OwnerRow>,
    owner: &Owner,
    seqid: u32,
    call: &Call,
    reply: &Reply,
) -> Result<OwnerRow, Memory>
    ensures { IfOk result (λ row. row ≡ noted_row (owner_at owner.now rows.now.items) owner.now seqid call.now reply.now) }
{
    let confirmed = confirmed(rows, owner) || confirms(&call.deed) && reply.status.is_done();
    Ok(OwnerRow {
        owner: owner.copy()?,
        seqid,
        confirmed,
        call: call.copy()?,
        reply: kept_reply(*rows.allocator(), reply)?,
    })
}

// The place of an owner's row.
fn place_of(rows: &[OwnerRow], owner: &Owner) -> Option<usize>
    ensures { result ≡ position (is_of owner.now) rows.now }
{
    rows.iter().position(|row| owner.is_same(&row.owner))
}

// The row stands in the place of its owner's, else as the last.
fn put(rows: &mut Vec<OwnerRow>, row: OwnerRow) -> Result<(), Memory>
    ensures ok { OnOk result (rows.new.items ≡ put_owner row rows.old.items) }
    ensures err { OnErr result (rows.new.items ≡ rows.old.items) }
{
    match place_of(rows, &row.owner) {
        Some(at) => {
            rows[at] = row;
            Ok(())
        }
        None => Ok(rows.push(row)?),
    }
}

/// An owner moves on to that seqid by a call: it and the reply to it are kept.
pub fn note(
    rows: &mut Vec<OwnerRow>,
    owner: &Owner,
    seqid: u32,
    call: &Call,
    reply: &Reply,
) -> Result<(), Memory>
    ensures ok { OnOk result (rows.new.items ≡ put_owner (noted_row (owner_at owner.now rows.old.items) owner.now seqid call.now reply.now) rows.old.items) }
    ensures err { OnErr result (rows.new.items ≡ rows.old.items) }
{
    let row = noted(rows, owner, seqid, call, reply)?;
    Ok(put(rows, row)?)
}

/// The owners without that one.
pub fn drop_owner(rows: &mut Vec<OwnerRow>, owner: &Owner)
    ensures { rows.new.items ≡ filter (λ row. not (same_owner owner.now row.owner)) rows.old.items }
{
    rows.retain(|row| !owner.is_same(&row.owner));
}

/// The owners without those of an instance.
pub fn drop_of(rows: &mut Vec<OwnerRow>, instance: &Instance)
    ensures { rows.new.items ≡ owners_after (GoneOf instance.now) rows.old.items }
{
    rows.retain(|row| !instance.is_same(&row.owner.instance));
}

/// The same owners once more.
pub fn copy_rows(alloc: Global, rows: &[OwnerRow]) -> Result<Vec<OwnerRow>, Memory>
    ensures { IfOk result (λ copies. copies.items ≡ rows.now) }
{
    let mut copies = Vec::new(alloc);
    for row in rows {
        copies.push(row.copy()?)?;
    }
    Ok(copies)
}
