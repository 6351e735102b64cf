//! Work on a list of opens.
ghost use Rattle.std.specs.Prelude.{◌≡◌, ◌<◌, ◌≤◌, ◌^◌, ℕ, true, IfOk, IfSome, IsSome, OnErr, map, filter, not, ◌==◌, option_copied, is_none};
ghost use Rattle.nm_shares.specs.Rows.{changed_row, changed_at, renewed_state, ChangedTo, Took};
ghost use Rattle.nm_rules.specs.Opens.{is_share, is_within, is_narrower};
ghost use Rattle.nm_rules.specs.Sound.{rises};
ghost use Rattle.nm_rules.specs.Shares.{next_seqid, is_opposed, open_at, open_of, shares_conflict, opens_after};
ghost use Rattle.nm_rules.specs.Shares.OpenWord.{DropOf};

use crate::State;
use nm_types::{Instance, Memory, OpenRow, Owner};
use std::alloc::Global;

/// The seqid that follows one of a stateid (RFC 7530, 9.1.4.2): after the greatest comes 1.
pub fn seqid_after(n: u32) -> u32
    ensures { result ≡ next_seqid n }
{
    if n == u32::MAX { 1 } else { n + 1 }
}

/// The open of an owner on a file.
#[tactic(auto, unfolding(nm_rules::specs::Shares::open_of))]
pub fn find_of<'a>(rows: &'a [OpenRow], owner: &Owner, file: u64) -> Option<&'a OpenRow>
    ensures { option_copied result ≡ open_of owner.now file rows.now }
{
    rows.iter()
        .find(|row| row.file == file && owner.is_same(&row.owner))
}

/// Whether two shares conflict.
pub fn conflict(access: u32, deny: u32, its_access: u32, its_deny: u32) -> bool
    ensures { result ≡ shares_conflict access deny its_access its_deny }
{
    access & its_deny != 0 || its_access & deny != 0
}

/// Whether another owner's open of the file conflicts with this share.
#[tactic(auto, unfolding(nm_rules::specs::Shares::is_opposed))]
pub fn opposed(rows: &[OpenRow], owner: &Owner, file: u64, access: u32, deny: u32) -> bool
    ensures { result ≡ is_opposed owner.now file access deny rows.now }
{
    rows.iter().any(|row| {
        row.file == file
            && !owner.is_same(&row.owner)
            && conflict(access, deny, row.access, row.deny)
    })
}

/// The live open of a counter.
#[tactic(auto, unfolding(nm_rules::specs::Shares::open_at))]
pub fn find_at(rows: &[OpenRow], counter: u64) -> Option<&OpenRow>
    ensures { option_copied result ≡ open_at counter rows.now }
{
    rows.iter().find(|row| row.counter == counter)
}

/// The opens without the one of that counter.
pub fn drop_at(rows: &mut Vec<OpenRow>, counter: u64)
    ensures rising { (last : ℕ) → rises 0 last rows.old.items ≡ true → rises 0 last rows.new.items ≡ true }
    ensures dropped { rows.new.items ≡ filter (λ row. not (row.counter == counter)) rows.old.items }
{
    rows.retain(|row| row.counter != counter);
}

/// The opens without those of an instance.
#[tactic(auto, unfolding(nm_rules::specs::Shares::opens_after))]
pub fn drop_of(rows: &mut Vec<OpenRow>, instance: &Instance)
    ensures rising { (last : ℕ) → rises 0 last rows.old.items ≡ true → rises 0 last rows.new.items ≡ true }
    ensures dropped { rows.new.items ≡ opens_after (DropOf instance.now) rows.old.items }
{
    rows.retain(|row| !instance.is_same(&row.owner.instance));
}

/// The state of the live open of that counter, as a call that changes it tells it.
pub fn next_state(rows: &[OpenRow], counter: u64) -> State
    requires live { IsSome (open_at counter rows.now) }
    ensures { IfSome (open_at counter rows.now) (λ row. result ≡ renewed_state row) }
{
    match find_at(rows, counter) {
        Some(row) => State {
            counter: row.counter,
            seqid: seqid_after(row.seqid),
        },
        None => unreachable!(),
    }
}

/// What is done with an open whose stateid is told anew.
#[derive(Clone, Copy)]
pub enum Change {
    /// A further OPEN joins its access and deny.
    Joined { access: u32, deny: u32 },
    /// An OPEN_CONFIRM leaves both as they are.
    Renewed,
    /// An OPEN_DOWNGRADE leaves that access and deny.
    Narrowed { access: u32, deny: u32 },
}

fn change_row(row: &mut OpenRow, change: Change)
    ensures { row.new ≡ changed_row change row.old }
{
    row.seqid = seqid_after(row.seqid);
    match change {
        Change::Joined { access, deny } => {
            row.access |= access;
            row.deny |= deny;
        }
        Change::Renewed => {}
        Change::Narrowed { access, deny } => {
            row.access = access;
            row.deny = deny;
        }
    }
}

// Changes the row, where it has that counter.
fn change_at(row: &mut OpenRow, counter: u64, change: Change)
    ensures { row.new ≡ changed_at counter change row.old }
{
    if row.counter == counter {
        change_row(row, change);
    }
}

// Changes each row of that counter.
fn change_each(rows: &mut Vec<OpenRow>, counter: u64, change: Change)
    ensures { rows.new.items ≡ map (changed_at counter change) rows.old.items }
{
    for row in rows.iter_mut() {
        change_at(row, counter, change);
    }
}

/// Changes the open of that counter, whose stateid's seqid goes on by one.
pub fn renew(rows: &mut Vec<OpenRow>, counter: u64, change: Change)
    ensures { (last : ℕ) → rises 0 last rows.old.items ≡ true → ChangedTo counter change last rows.old.items rows.new.items }
{
    change_each(rows, counter, change);
}

/// Access is 1 to 3, and deny 0 to 3.
#[tactic(auto, unfolding(nm_rules::specs::Opens::is_share))]
pub fn is_share(access: u32, deny: u32) -> bool
    ensures { result ≡ is_share access deny }
{
    1 <= access && access <= 3 && deny <= 3
}

// All that the one has, the other has too.
fn is_within(part: u32, whole: u32) -> bool
    ensures { result ≡ is_within part whole }
{
    part | whole == whole
}

/// Whether an OPEN_DOWNGRADE of an open may ask for that access and deny (RFC 7530, 16.19): access is 1 to 3 and deny 0 to
/// 3, and those of a live open are at most what it has.
#[tactic(auto, unfolding(nm_rules::specs::Opens::is_narrower))]
pub fn is_narrower(access: u32, deny: u32, row: Option<&OpenRow>) -> bool
    ensures { result ≡ is_narrower access deny (option_copied row.entry) }
{
    match row {
        Some(row) => {
            is_share(access, deny) && is_within(access, row.access) && is_within(deny, row.deny)
        }
        None => is_share(access, deny),
    }
}

/// Opens a file for an owner, or joins what the owner has open there: the state, and the last counter after it.
pub fn take(
    rows: &mut Vec<OpenRow>,
    last: u64,
    owner: &Owner,
    file: u64,
    access: u32,
    deny: u32,
) -> Result<(State, u64), Memory>
    requires room { is_none (open_of owner.now file rows.old.items) ≡ true → last < 2 ^ 63 }
    requires rising { rises 0 last rows.old.items ≡ true }
    ensures ok { IfOk result (λ took. Took last rows.old.items owner.now file access deny rows.new.items took.0 took.1) }
    ensures bound { IfOk result (λ took. last ≤ 2 ^ 63 → took.1 ≤ 2 ^ 63) }
    ensures err { OnErr result (rows.new.items ≡ rows.old.items) }
{
    match find_of(rows, owner, file) {
        Some(row) => {
            let counter = row.counter;
            let seqid = seqid_after(row.seqid);
            renew(rows, counter, Change::Joined { access, deny });
            Ok((State { counter, seqid }, last))
        }
        None => {
            let counter = last + 1;
            let owner = owner.copy()?;
            rows.push(OpenRow {
                counter,
                seqid: 1,
                owner,
                file,
                access,
                deny,
            })?;
            Ok((State { counter, seqid: 1 }, counter))
        }
    }
}

/// The same opens once more.
pub fn copy_rows(alloc: Global, rows: &[OpenRow]) -> Result<Vec<OpenRow>, Memory>
    ensures { IfOk result (λ copies. copies.items ≡ rows.now) }
{
    let mut copies = Vec::new(alloc);
    for row in rows {
        copies.push(row.copy()?)?;
    }
    Ok(copies)
}
