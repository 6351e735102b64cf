//! The opens whose CLOSE is their owner's kept call (RFC 7530, 9.1.7).
ghost use Rattle.std.specs.Prelude.{◌≡◌, IfOk, filter, length, not};
ghost use Rattle.nm_types.specs.Owners.{same_owner};
ghost use Rattle.nm_types.specs.Parties.{same_party};

use nm_types::{Instance, Memory, OpenRow, Owner};
use std::alloc::Global;

/// The opens without those of an owner.
pub fn drop_owned(rows: &mut Vec<OpenRow>, owner: &Owner)
    ensures { rows.new.items ≡ filter (λ row. not (same_owner owner.now row.owner)) rows.old.items }
{
    rows.retain(|row| !owner.is_same(&row.owner));
}

/// The opens without those of an instance.
pub fn drop_of(rows: &mut Vec<OpenRow>, instance: &Instance)
    ensures { rows.new.items ≡ filter (λ row. not (same_party instance.now row.owner.instance)) rows.old.items }
{
    rows.retain(|row| !instance.is_same(&row.owner.instance));
}

/// How many of the opens are other owners'.
pub fn count_others(rows: &[OpenRow], owner: &Owner) -> usize
    ensures { result ≡ length (filter (λ row. not (same_owner owner.now row.owner)) rows.now) }
{
    rows.iter().filter(|row| !owner.is_same(&row.owner)).count()
}

/// The same opens once more.
pub fn copy_rows(alloc: Global, rows: &[OpenRow]) -> Result<Vec<OpenRow>, Memory>
    ensures { IfOk result (λ copies. copies.items ≡ rows.now) }
{
    let mut copies = Vec::new(alloc);
    for row in rows {
        copies.push(row.copy()?)?;
    }
    Ok(copies)
}
