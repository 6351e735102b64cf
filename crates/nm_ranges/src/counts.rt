//! How many rows a change would leave.
ghost use Rattle.std.specs.Prelude.{◌≡◌, ◌≤◌, ◌<◌, ◌+◌, ◌^◌, ◌*◌, ◌++◌, ◌∷◌, [], ℕ, List, length};
ghost use Rattle.nm_rules.specs.Locks.{before_of, behind_of, cleared, cut, set_to};
ghost use Rattle.nm_types.specs.declared.rows.Held.{Held as AnyHeld};
ghost use Rattle.nm_ranges.specs.Counts.{came, goes_on, none_yet, one_more, took, took_all, total};

use crate::pairs::{is_before, is_cut, touches};
use nm_types::Held;

// How many rows an owner's row leaves, once its lock is taken off a range.
fn count_cut(row: &Held, owner: u64, first: u64, last: u64) -> usize
    ensures exact { result ≡ length (cut owner first last row.now) }
    ensures few { result ≤ 2 }
{
    if !is_cut(row, owner, first, last) {
        return 1;
    }
    let before = if row.first < first { 1 } else { 0 };
    let behind = if last < row.last { 1 } else { 0 };
    before + behind
}

/// How many rows are left, once an owner's lock is taken off a range.
#[tactic(auto, using(crate::proofs::RowLemmas::cleared_more), unfolding(nm_rules::specs::Locks::cleared))]
pub fn count_cleared(rows: &[Held], owner: u64, first: u64, last: u64) -> usize
    ensures { result ≡ length (cleared owner first last rows.now) }
{
    let mut count = 0;
    for row in rows {
        count += count_cut(row, owner, first, last);
    }
    count
}

// Rows that came one after another, with a row that is still to come in its place among them.
#[derive(Clone, Copy)]
struct Counting {
    // How many they are, where neighbours that touch are one.
    count: usize,
    // The one that came last.
    latest: Option<Held>,
    // The one that is still to come.
    waiting: Option<Held>,
}

// Whether a row touches the one that came last.
fn goes_on(latest: Option<Held>, row: &Held) -> bool
    ensures { result ≡ goes_on latest row.now }
{
    match latest {
        None => false,
        Some(before) => touches(&before, row),
    }
}

// How many rows more there are with this one.
fn one_more(latest: Option<Held>, row: &Held) -> usize
    ensures exact { result ≡ one_more latest row.now }
    ensures few { result ≤ 1 }
{
    if goes_on(latest, row) { 0 } else { 1 }
}

// A row comes, and that one is still to come.
fn came(counting: Counting, waiting: Option<Held>, row: &Held) -> Counting
    requires room { counting.count + 1 < 2 ^ 64 }
    ensures came { result ≡ came counting waiting row.now }
    ensures few { result.count ≤ counting.count + 1 }
{
    Counting {
        count: counting.count + one_more(counting.latest, row),
        latest: Some(*row),
        waiting,
    }
}

// A row comes, and before it the one that waits, where the row doesn't end before that one.
fn take(counting: Counting, row: &Held) -> Counting
    requires room { counting.count + 2 < 2 ^ 64 }
    ensures took { result ≡ took counting row.now }
    ensures few { result.count ≤ counting.count + 2 }
{
    match counting.waiting {
        None => came(counting, None, row),
        Some(new) => {
            if is_before(row, &new) {
                came(counting, Some(new), row)
            } else {
                came(came(counting, None, &new), None, row)
            }
        }
    }
}

// What is left of a row before a byte comes.
#[tactic(auto, unfolding(crate::specs::Counts::took_all))]
fn take_before(counting: Counting, row: &Held, first: u64) -> Counting
    requires room { counting.count + 2 < 2 ^ 64 }
    ensures took { result ≡ took_all counting (before_of first row.now) }
    ensures few { result.count ≤ counting.count + 2 }
{
    if row.first < first {
        let piece = Held {
            last: first - 1,
            ..*row
        };
        take(counting, &piece)
    } else {
        counting
    }
}

// What is left of a row behind a byte comes.
#[tactic(auto, unfolding(crate::specs::Counts::took_all))]
fn take_behind(counting: Counting, row: &Held, last: u64) -> Counting
    requires room { counting.count + 2 < 2 ^ 64 }
    ensures took { result ≡ took_all counting (behind_of last row.now) }
    ensures few { result.count ≤ counting.count + 2 }
{
    if last < row.last {
        let piece = Held {
            first: last + 1,
            ..*row
        };
        take(counting, &piece)
    } else {
        counting
    }
}

// What is left of a row comes, once its owner's lock is taken off a range.
#[tactic(auto, using(crate::proofs::CountLemmas::took_more), unfolding(crate::specs::Counts::took_all))]
fn take_cut(counting: Counting, row: &Held, owner: u64, first: u64, last: u64) -> Counting
    requires room { counting.count + 4 < 2 ^ 64 }
    ensures took { result ≡ took_all counting (cut owner first last row.now) }
    ensures few { result.count ≤ counting.count + 4 }
{
    if is_cut(row, owner, first, last) {
        take_behind(take_before(counting, row, first), row, last)
    } else {
        take(counting, row)
    }
}

// How many rows there are at the end, with the one that waits.
fn total(counting: Counting) -> usize
    requires room { counting.count + 1 < 2 ^ 64 }
    ensures { result ≡ total counting }
{
    match counting.waiting {
        None => counting.count,
        Some(new) => counting.count + one_more(counting.latest, &new),
    }
}

/// How many rows there are once a lock has taken the place of what its owner held in its range.
#[tactic(auto, using(crate::proofs::CountLemmas::came_more, crate::proofs::CountLemmas::came_all), unfolding(nm_rules::specs::Locks::cleared, crate::specs::Counts::took_all))]
pub fn count_set(rows: &[Held], new: &Held) -> usize
    ensures { result ≡ length (set_to new.now.owner new.now.kind new.now.first new.now.last rows.now) }
{
    let mut counting = Counting {
        count: 0,
        latest: None,
        waiting: Some(*new),
    };
    for row in rows {
        counting = take_cut(counting, row, new.owner, new.first, new.last);
    }
    total(counting)
}
