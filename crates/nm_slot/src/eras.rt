//! In which eras a server has seen the instances that have something in a file system, and which of them have ended.
ghost use Rattle.std.specs.Prelude.{◌≡◌, ◌≤◌, ◌+◌, not, OnOk, OnErr, option_copied, filter, find, length};
ghost use Rattle.std.specs.Vec.{vec_capacity};
ghost use Rattle.nm_slot.specs.Eras.{is_of, row_of, put_row, later_era, is_swept_from, has_ended, comes_late, is_late, era_seen, noted, noted_lease, noted_all, marked, era_in};

use nm_types::{Era, Instance, LeasePass, Memory};

/// What a server knows of the eras of an instance in a file system.
#[derive(Clone, Copy)]
pub struct EraRow {
    pub instance: Instance,
    /// The greatest era in which it was seen.
    pub era: Era,
    /// The greatest of its eras that ended.
    pub swept: Option<Era>,
}

impl EraRow {
    /// Whether the era in which it was seen last has ended.
    #[tactic(auto, unfolding(crate::specs::Eras::has_ended))]
    pub fn has_ended(&self) -> bool
        ensures { result ≡ has_ended self.now }
    {
        match self.swept {
            None => false,
            Some(swept) => swept == self.era,
        }
    }

    /// Whether what is of that era comes too late.
    #[tactic(auto, unfolding(crate::specs::Eras::comes_late))]
    pub fn comes_late(&self, era: Era) -> bool
        ensures { result ≡ comes_late era self.now }
    {
        let ended = self.has_ended();
        era < self.era || (era == self.era && ended)
    }

    /// Whether that era or a later one has ended.
    pub fn is_swept_from(&self, era: Era) -> bool
        ensures { result ≡ is_swept_from era self.now.swept }
    {
        match self.swept {
            None => false,
            Some(swept) => era <= swept,
        }
    }
}

// The row of an instance.
fn find_row<'a>(rows: &'a [EraRow], instance: &Instance) -> Option<&'a EraRow>
    ensures { option_copied result ≡ find (is_of instance.now) rows.now }
{
    rows.iter().find(|row| instance.is_same(&row.instance))
}

/// What is known of the eras of an instance.
#[tactic(auto, unfolding(crate::specs::Eras::row_of))]
pub fn row_of(rows: &[EraRow], instance: &Instance) -> EraRow
    ensures { result ≡ row_of instance.now rows.now }
{
    match find_row(rows, instance) {
        Some(row) => *row,
        None => EraRow {
            instance: *instance,
            era: Era::new(0),
            swept: None,
        },
    }
}

// The rows without that of an instance.
fn drop_row(rows: &mut Vec<EraRow>, instance: &Instance)
    ensures items { rows.new.items ≡ filter (λ row. not (is_of instance.now row)) rows.old.items }
    ensures capacity { vec_capacity rows.new ≡ vec_capacity rows.old }
    ensures len { length rows.new.items ≤ length rows.old.items }
{
    rows.retain(|row| !instance.is_same(&row.instance));
}

// The row comes last, in the place of that of its instance. There is room for it.
fn put(rows: &mut Vec<EraRow>, row: EraRow)
    requires room { length rows.old.items + 1 ≤ vec_capacity rows.old }
    ensures items { rows.new.items ≡ put_row row rows.old.items }
    ensures capacity { vec_capacity rows.old ≤ vec_capacity rows.new }
    ensures len { length rows.new.items ≤ length rows.old.items + 1 }
{
    drop_row(rows, &row.instance);
    match rows.push(row) {
        Ok(()) => {}
        // There is room.
        Err(_) => unreachable!(),
    }
}

/// The instance is seen in that era. There is room for its row.
#[tactic(auto, unfolding(crate::specs::Eras::noted))]
pub fn note(rows: &mut Vec<EraRow>, instance: &Instance, era: Era)
    requires room { length rows.old.items + 1 ≤ vec_capacity rows.old }
    ensures items { rows.new.items ≡ noted instance.now era rows.old.items }
    ensures capacity { vec_capacity rows.old ≤ vec_capacity rows.new }
    ensures len { length rows.new.items ≤ length rows.old.items + 1 }
{
    let row = row_of(rows, instance);
    if row.era < era {
        put(
            rows,
            EraRow {
                instance: row.instance,
                era,
                swept: row.swept,
            },
        );
    }
}

/// That era of the instance has ended. There is room for its row.
#[tactic(auto, unfolding(crate::specs::Eras::marked))]
pub fn mark(rows: &mut Vec<EraRow>, instance: &Instance, era: Era)
    requires room { length rows.old.items + 1 ≤ vec_capacity rows.old }
    ensures items { rows.new.items ≡ marked instance.now era rows.old.items }
    ensures capacity { vec_capacity rows.old ≤ vec_capacity rows.new }
    ensures len { length rows.new.items ≤ length rows.old.items + 1 }
{
    put(
        rows,
        EraRow {
            instance: *instance,
            era,
            swept: Some(era),
        },
    );
}

/// The instance of a lease is seen in its era. There is room for its row.
pub fn note_lease(rows: &mut Vec<EraRow>, lease: Option<&LeasePass>)
    requires room { length rows.old.items + 1 ≤ vec_capacity rows.old }
    ensures items { rows.new.items ≡ noted_lease (option_copied lease.entry) rows.old.items }
    ensures capacity { vec_capacity rows.old ≤ vec_capacity rows.new }
    ensures len { length rows.new.items ≤ length rows.old.items + 1 }
{
    match lease {
        Some(lease) => note(rows, &lease.instance, lease.era),
        None => {}
    }
}

/// Whether a call comes too late by its lease.
pub fn is_late(rows: &[EraRow], lease: Option<&LeasePass>) -> bool
    ensures { result ≡ is_late (option_copied lease.entry) rows.now }
{
    match lease {
        Some(lease) => row_of(rows, &lease.instance).comes_late(lease.era),
        None => false,
    }
}

/// The latest era in which the instance of a lease was seen.
pub fn era_seen(rows: &[EraRow], lease: Option<&LeasePass>) -> Era
    ensures { result ≡ era_seen (option_copied lease.entry) rows.now }
{
    match lease {
        Some(lease) => row_of(rows, &lease.instance).era,
        None => Era::new(0),
    }
}

/// The instances of these leases are seen in their eras. There is room for their rows.
pub fn note_all(rows: &mut Vec<EraRow>, passes: &[LeasePass])
    requires room { length rows.old.items + length passes.now ≤ vec_capacity rows.old }
    ensures items { rows.new.items ≡ noted_all passes.now rows.old.items }
    ensures capacity { vec_capacity rows.old ≤ vec_capacity rows.new }
    ensures len { length rows.new.items ≤ vec_capacity rows.new }
{
    for pass in passes {
        note(rows, &pass.instance, pass.era);
    }
}

// The greater one of two eras of an instance, if the lease is its.
fn later_era(instance: &Instance, pass: &LeasePass, era: Era) -> Era
    ensures { result ≡ later_era instance.now pass.now era }
{
    if !instance.is_same(&pass.instance) {
        return era;
    }
    Era::new(era.number().max(pass.era.number()))
}

/// The greatest era of an instance among these leases, 0 where it has none.
#[tactic(auto, unfolding(crate::specs::Eras::era_in))]
pub fn era_in(passes: &[LeasePass], instance: &Instance) -> Era
    ensures { result ≡ era_in instance.now passes.now }
{
    let mut era = Era::new(0);
    for pass in passes {
        era = later_era(instance, pass, era);
    }
    era
}

/// Keeps the instances whose era has ended.
pub fn keep_ended(list: &mut Vec<Instance>, rows: &[EraRow])
    ensures items { list.new.items ≡ filter (λ party. has_ended (row_of party rows.now)) list.old.items }
    ensures capacity { vec_capacity list.new ≡ vec_capacity list.old }
{
    list.retain(|instance| row_of(rows, instance).has_ended());
}

/// Keeps the instances of which no earlier an era ended here than that of their lease.
pub fn keep_swept(list: &mut Vec<Instance>, passes: &[LeasePass], rows: &[EraRow])
    ensures items { list.new.items ≡ filter (λ party. is_swept_from (era_in party passes.now) (row_of party rows.now).swept) list.old.items }
    ensures capacity { vec_capacity list.new ≡ vec_capacity list.old }
{
    list.retain(|instance| row_of(rows, instance).is_swept_from(era_in(passes, instance)));
}

/// Makes room for so many rows more, and for one beside.
pub fn reserve(rows: &mut Vec<EraRow>, more: usize) -> Result<(), Memory>
    ensures ok { OnOk result (length rows.new.items + more + 1 ≤ vec_capacity rows.new) }
    ensures items { rows.new.items ≡ rows.old.items }
    ensures err { OnErr result (vec_capacity rows.new ≡ vec_capacity rows.old) }
{
    let needed = more.checked_add(1).ok_or(Memory)?;
    Ok(rows.reserve(needed)?)
}
