//! What a directory lists.
ghost use Rattle.std.specs.Prelude.{◌≡◌, ◌++◌, [], ◌∷◌, map, if◌then◌else◌, IfOk, OnOk};
ghost use Rattle.nm_rules.specs.Files.{is_listed, listed};
ghost use Rattle.nm_tree.specs.Answers.{listed_as};

use nm_types::{Bytes, FileRow, Items, Memory};
use std::alloc::Global;

/// A file or directory in the directory that is listed: its name and its number.
#[derive(Drop)]
pub struct Listed {
    pub name: Bytes,
    pub file: u64,
}

/// Files and directories, by rising number.
pub type Listing = Items<Listed>;

// Adds the row, where it is listed.
fn list_row(rows: &mut Listing, row: &FileRow, dir: u64, after: u64) -> Result<(), Memory>
    ensures { OnOk result (rows.new ≡ rows.old ++ (if is_listed dir after row.now then listed_as row.now ∷ [] else [])) }
{
    if row.parent == dir && row.number != 1 && after < row.number {
        rows.push(Listed {
            name: row.name.copy()?,
            file: row.number,
        })?;
    }
    Ok(())
}

/// The entries of a directory past a number.
pub fn listing_of(alloc: Global, rows: &[FileRow], dir: u64, after: u64) -> Result<Listing, Memory>
    ensures { IfOk result (λ rows_listed. rows_listed ≡ map listed_as (listed dir after rows.now)) }
{
    let mut listing = Listing::new(alloc);
    for row in rows {
        list_row(&mut listing, row, dir, after)?;
    }
    Ok(listing)
}
