//! The ranges that locks hold, file by file.
ghost use Rattle.std.specs.Prelude.{◌≡◌, ◌≤◌, ◌∷◌, ◌++◌, [], true, None, IfOk, OnOk, filter, find, length, map, not, option_copied, position, if◌then◌else◌};
ghost use Rattle.nm_rules.specs.LockRows.{has_ranges, is_held_by, is_of, put_ranges, ranges_on, ranges_taken, without};
ghost use Rattle.nm_rules.specs.Locks.{barrier, cleared, holds, set_to};
ghost use Rattle.nm_state.specs.Taken.{adds, counted, has_file, table_of, taken_with, waits_after};

use nm_ranges::{Held, Ranges};
use nm_types::{Instance, LockKind, LockRow, Memory};
use std::alloc::Global;
use std::marker::Model;

/// The ranges of one file that locks hold.
#[derive(Drop)]
pub struct FileRanges {
    file: u64,
    ranges: Ranges,
}

impl Model for FileRanges {
    ghost use Rattle.nm_types.specs.declared.rows.FileLocks.{FileLocks};

    ghost Value = { FileLocks };

    ghost view = { λ f. record { file = f.file; ranges = f.ranges.table } };
}

impl FileRanges {
    // They are of that file.
    fn has_file(&self, file: u64) -> bool
        ensures { result ≡ has_file file self.now }
    {
        self.file == file
    }

    // How many there are.
    fn count(&self) -> usize
        ensures { result ≡ length self.now.ranges }
    {
        self.ranges.rows().len()
    }

    // There are some.
    #[tactic(auto, unfolding(nm_rules::specs::Lists::is_empty))]
    fn has_ranges(&self) -> bool
        ensures { result ≡ has_ranges self.now }
    {
        match self.ranges.rows() {
            [] => false,
            [..] => true,
        }
    }

    // A lock takes its range.
    fn set(&mut self, new: &Held) -> Result<(), Memory>
        requires order { new.now.first ≤ new.now.last }
        requires free { barrier new.now.owner new.now.kind new.now.first new.now.last self.old.ranges ≡ None }
        ensures { OnOk result (self.new ≡ record { file = self.old.file; ranges = set_to new.now.owner new.now.kind new.now.first new.now.last self.old.ranges }) }
    {
        Ok(self.ranges.set(new.owner, new.kind, new.first, new.last)?)
    }

    // A stateid gives up a range.
    fn clear(&mut self, owner: u64, first: u64, last: u64) -> Result<(), Memory>
        requires { first ≤ last }
        ensures { OnOk result (self.new ≡ record { file = self.old.file; ranges = cleared owner first last self.old.ranges }) }
    {
        Ok(self.ranges.clear(owner, first, last)?)
    }

    // How many are left once a stateid has given up a range.
    fn count_with_clear(&self, owner: u64, first: u64, last: u64) -> usize
        ensures { result ≡ length (cleared owner first last self.now.ranges) }
    {
        self.ranges.count_with_clear(owner, first, last)
    }

    // Those of an instance go.
    fn drop_of(&mut self, locks: &[LockRow], instance: &Instance)
        ensures { self.new ≡ without instance.now locks.now self.old }
    {
        drop_held(&mut self.ranges, locks, instance);
    }

    // The same ranges once more.
    fn copy(&self) -> Result<FileRanges, Memory>
        ensures { IfOk result (λ ranges. ranges ≡ self.now) }
    {
        Ok(FileRanges {
            file: self.file,
            ranges: self.ranges.copy()?,
        })
    }
}

// What a stateid holds goes, where it is of the instance.
fn drop_if(ranges: &mut Ranges, row: &LockRow, instance: &Instance)
    ensures { ranges.new.table ≡ filter (λ h. not (is_of instance.now h.owner row.now)) ranges.old.table }
{
    if instance.is_same(&row.owner.instance) {
        ranges.drop_owner(row.counter);
    }
}

// What the stateids of an instance hold goes.
fn drop_held(ranges: &mut Ranges, locks: &[LockRow], instance: &Instance)
    ensures { ranges.new.table ≡ filter (λ h. not (is_held_by instance.now locks.now h.owner)) ranges.old.table }
{
    for row in locks {
        drop_if(ranges, row, instance);
    }
}

// The row of a file.
fn find_file(rows: &[FileRanges], file: u64) -> Option<&FileRanges>
    ensures { option_copied result ≡ find (has_file file) rows.now }
{
    rows.iter().find(|row| row.has_file(file))
}

// The place of a file's row.
fn place_of(rows: &[FileRanges], file: u64) -> Option<usize>
    ensures { result ≡ position (has_file file) rows.now }
{
    rows.iter().position(|row| row.has_file(file))
}

/// The ranges of a file. `None` where it has none.
#[tactic(auto, using(crate::proofs::RangeLemmas::file_found))]
pub fn ranges_on(rows: &[FileRanges], file: u64) -> Option<&Ranges>
    ensures { table_of (option_copied result) ≡ ranges_on file rows.now }
{
    match find_file(rows, file) {
        None => None,
        Some(row) => Some(&row.ranges),
    }
}

/// What a lock meets first on a file.
#[tactic(auto, unfolding(nm_rules::specs::Locks::barrier))]
pub fn conflict(rows: &[FileRanges], file: u64, asked: &Held) -> Option<Held>
    ensures { result ≡ barrier asked.now.owner asked.now.kind asked.now.first asked.now.last (ranges_on file rows.now) }
{
    match ranges_on(rows, file) {
        None => None,
        Some(ranges) => ranges.conflict(asked.owner, asked.kind, asked.first, asked.last),
    }
}

/// Whether a stateid holds a byte of a file.
#[tactic(auto, unfolding(nm_rules::specs::Locks::holds))]
pub fn holds(rows: &[FileRanges], file: u64, owner: u64) -> bool
    ensures { result ≡ holds owner (ranges_on file rows.now) }
{
    match ranges_on(rows, file) {
        None => false,
        Some(ranges) => ranges.held_by(owner),
    }
}

/// How many ranges are held.
#[tactic(auto, using(crate::proofs::RangeLemmas::taken_more), unfolding(nm_rules::specs::LockRows::ranges_taken))]
pub fn taken(rows: &[FileRanges]) -> usize
    ensures { result ≡ counted (ranges_taken rows.now) }
{
    let mut count: usize = 0;
    for row in rows {
        count = count.saturating_add(row.count());
    }
    count
}

// What a row adds, where so many of a file come in place of its own.
fn adds(row: &FileRanges, file: u64, ranges: usize, waits: bool) -> usize
    ensures { result ≡ adds file ranges waits row.now }
{
    if waits && row.has_file(file) {
        ranges
    } else {
        row.count()
    }
}

// Whether they are still to come behind a row.
fn waits_after(row: &FileRanges, file: u64, ranges: usize, waits: bool) -> bool
    ensures { result ≡ waits_after file ranges waits row.now }
{
    if waits && row.has_file(file) {
        ranges == 0
    } else {
        waits
    }
}

// What they add behind all rows.
fn adds_last(ranges: usize, waits: bool) -> usize
    ensures { result ≡ if waits then ranges else 0 }
{
    if waits { ranges } else { 0 }
}

// How many there are with so many of a file in place of its own.
fn taken_with(rows: &[FileRanges], file: u64, ranges: usize) -> usize
    ensures { result ≡ counted (taken_with file ranges true rows.now) }
{
    let mut count: usize = 0;
    let mut waits = true;
    for row in rows {
        count = count.saturating_add(adds(row, file, ranges, waits));
        waits = waits_after(row, file, ranges, waits);
    }
    count.saturating_add(adds_last(ranges, waits))
}

// How many of a file there are once a lock has taken its range.
#[tactic(auto, unfolding(nm_rules::specs::Locks::set_to, nm_rules::specs::Locks::cleared, nm_rules::specs::Locks::put_range, nm_rules::specs::Locks::joined, nm_rules::specs::Locks::joined_after))]
fn count_set(ranges: Option<&Ranges>, new: &Held) -> usize
    ensures { result ≡ length (set_to new.now.owner new.now.kind new.now.first new.now.last (table_of (option_copied ranges.entry))) }
{
    match ranges {
        None => 1,
        Some(ranges) => ranges.count_with_set(new.owner, new.kind, new.first, new.last),
    }
}

// How many of a file there are once a stateid has given up a range.
#[tactic(auto, unfolding(nm_rules::specs::Locks::cleared))]
fn count_cleared(ranges: Option<&Ranges>, owner: u64, first: u64, last: u64) -> usize
    ensures { result ≡ length (cleared owner first last (table_of (option_copied ranges.entry))) }
{
    match ranges {
        None => 0,
        Some(ranges) => ranges.count_with_clear(owner, first, last),
    }
}

/// How many ranges are held once a lock has taken its range on a file.
#[tactic(auto, using(crate::proofs::RangeLemmas::taken_put))]
pub fn taken_with_set(rows: &[FileRanges], file: u64, new: &Held) -> usize
    ensures { result ≡ counted (ranges_taken (put_ranges file (set_to new.now.owner new.now.kind new.now.first new.now.last (ranges_on file rows.now)) rows.now)) }
{
    taken_with(rows, file, count_set(ranges_on(rows, file), new))
}

/// How many ranges are held once a stateid has given up a range of a file.
#[tactic(auto, using(crate::proofs::RangeLemmas::taken_put))]
pub fn taken_with_clear(rows: &[FileRanges], file: u64, owner: u64, first: u64, last: u64) -> usize
    ensures { result ≡ counted (ranges_taken (put_ranges file (cleared owner first last (ranges_on file rows.now)) rows.now)) }
{
    let left = count_cleared(ranges_on(rows, file), owner, first, last);
    taken_with(rows, file, left)
}

// The first lock of a file.
#[tactic(auto, unfolding(nm_rules::specs::Locks::barrier))]
fn first_of(alloc: Global, file: u64, new: &Held) -> Result<FileRanges, Memory>
    requires { new.now.first ≤ new.now.last }
    ensures { IfOk result (λ row. row ≡ record { file = file; ranges = set_to new.now.owner new.now.kind new.now.first new.now.last [] }) }
{
    let mut row = FileRanges {
        file,
        ranges: Ranges::new(alloc),
    };
    row.set(new)?;
    Ok(row)
}

/// A lock takes its range on a file. Nothing may be in its way.
pub fn claim(rows: &mut Vec<FileRanges>, file: u64, new: &Held) -> Result<(), Memory>
    requires order { new.now.first ≤ new.now.last }
    requires free { barrier new.now.owner new.now.kind new.now.first new.now.last (ranges_on file rows.old.items) ≡ None }
    ensures { OnOk result (rows.new.items ≡ put_ranges file (set_to new.now.owner new.now.kind new.now.first new.now.last (ranges_on file rows.old.items)) rows.old.items) }
{
    match place_of(rows, file) {
        Some(at) => Ok(rows[at].set(new)?),
        None => {
            let row = first_of(*rows.allocator(), file, new)?;
            Ok(rows.push(row)?)
        }
    }
}

// A file has no ranges any more.
fn drop_file(rows: &mut Vec<FileRanges>, file: u64)
    ensures { rows.new.items ≡ filter (λ x. not (has_file file x)) rows.old.items }
{
    rows.retain(|row| !row.has_file(file));
}

/// A stateid gives up a range of a file.
pub fn clear(
    rows: &mut Vec<FileRanges>,
    file: u64,
    owner: u64,
    first: u64,
    last: u64,
) -> Result<(), Memory>
    requires { first ≤ last }
    ensures { OnOk result (rows.new.items ≡ put_ranges file (cleared owner first last (ranges_on file rows.old.items)) rows.old.items) }
{
    match place_of(rows, file) {
        None => Ok(()),
        Some(at) => {
            if rows[at].count_with_clear(owner, first, last) == 0 {
                drop_file(rows, file);
                return Ok(());
            }
            Ok(rows[at].clear(owner, first, last)?)
        }
    }
}

// Of each file those of an instance go.
fn drop_each(rows: &mut Vec<FileRanges>, locks: &[LockRow], instance: &Instance)
    ensures { rows.new.items ≡ map (without instance.now locks.now) rows.old.items }
{
    for row in rows.iter_mut() {
        row.drop_of(locks, instance);
    }
}

/// All that the stateids of an instance hold goes.
pub fn drop_of(rows: &mut Vec<FileRanges>, locks: &[LockRow], instance: &Instance)
    ensures { rows.new.items ≡ filter has_ranges (map (without instance.now locks.now) rows.old.items) }
{
    drop_each(rows, locks, instance);
    rows.retain(|row| row.has_ranges());
}

/// The same ranges once more.
pub fn copy_rows(alloc: Global, rows: &[FileRanges]) -> Result<Vec<FileRanges>, Memory>
    ensures { IfOk result (λ copies. copies.items ≡ rows.now) }
{
    let mut copies = Vec::new(alloc);
    for row in rows {
        copies.push(row.copy()?)?;
    }
    Ok(copies)
}
