//! The files of one file system.
ghost use Rattle.std.specs.Prelude.{◌≡◌, ◌<◌, ◌≤◌, ◌+◌, ◌^◌, true, max, length, IfOk, IfSome, OnOk, OnErr, option_copied};
ghost use Rattle.nm_rules.specs.Contents.{empty_tree, file_at, child_at, total_size, total_limit, size_limit, tree_after};
ghost use Rattle.nm_rules.specs.Contents.TreeWord.{Made, Edited, Removed};
ghost use Rattle.nm_rules.specs.Contents.FileEdit.{Wrote, Set};
ghost use Rattle.nm_rules.specs.Files.{size_of};
ghost use Rattle.nm_rules.specs.Sound.{files_rise};
ghost use Rattle.nm_tree.specs.Rows.{total_with};

use crate::rows::{
    add_row, copy_rows, drop_rows, find_at, find_child, root_rows, set_rows, total, write_rows,
};
use nm_types::{FileRow, Memory};
use std::alloc::Global;
use std::marker::Model;

/// The files and directories of one file system by rising number, the greatest number that one was given, and the
/// number of the latest change. The root is file 1, and the first one that is made has number 16.
#[derive(Drop)]
pub struct Tree {
    rows: Vec<FileRow>,
    last_file: u64,
    change: u64,
}

impl Model for Tree {
    ghost use Rattle.nm_rules.specs.Contents.{TreeNow};

    ghost Value = { TreeNow };

    ghost use Rattle.nm_tree.specs.Rows.{IsTree};

    ghost view = { λ t. record { table = t.rows.items; last_file = t.last_file; change = t.change } };

    ghost invariant = { λ t. IsTree (record { table = t.rows.items; last_file = t.last_file; change = t.change }) };
}

impl Tree {
    /// No file but the root.
    pub fn new(alloc: Global) -> Result<Tree, Memory>
        ensures { IfOk result (λ tree. tree ≡ empty_tree) }
    {
        Ok(Tree {
            rows: root_rows(alloc)?,
            last_file: 15,
            change: 0,
        })
    }

    /// The allocator that the rows are kept with.
    pub(crate) fn allocator(&self) -> Global {
        *self.rows.allocator()
    }

    /// The files and directories, by rising number.
    pub fn rows(&self) -> &[FileRow]
        ensures table { result.now ≡ self.now.table }
        ensures rising { files_rise 0 self.now.last_file self.now.table ≡ true }
        ensures within { total_size self.now.table ≤ total_limit }
    {
        &self.rows
    }

    /// The greatest number that a file was given, 15 where none was. It is at most 2^63.
    pub fn last_file(&self) -> u64
        ensures value { result ≡ self.now.last_file }
        ensures bound { result ≤ 2 ^ 63 }
    {
        self.last_file
    }

    /// The number of the latest change, 0 before the first. It is at most 2^63.
    pub fn change(&self) -> u64
        ensures value { result ≡ self.now.change }
        ensures bound { result ≤ 2 ^ 63 }
    {
        self.change
    }

    /// The number of files and directories, the root among them.
    pub fn count(&self) -> usize
        ensures { result ≡ length self.now.table }
    {
        self.rows.len()
    }

    /// The bytes of all files. They are at most 64 MiB.
    pub fn total_size(&self) -> u64
        ensures value { result ≡ total_size self.now.table }
        ensures bound { result ≤ total_limit }
    {
        total(&self.rows)
    }

    /// The file or directory of that number. `None` exactly where there is none.
    pub fn row(&self, number: u64) -> Option<&FileRow>
        ensures { option_copied result ≡ file_at number self.now.table }
    {
        find_at(&self.rows, number)
    }

    /// The number of the file or directory of that name in a directory. `None` exactly where there is none.
    pub fn child(&self, dir: u64, name: &[u8]) -> Option<u64>
        ensures { result ≡ child_at dir name.now self.now.table }
    {
        find_child(&self.rows, dir, name)
    }

    /// A file or directory is made, with the next number. It and its directory take the number of the change. After want of
    /// memory nothing has changed.
    #[tactic(auto, unfolding(nm_rules::specs::Contents::tree_after))]
    pub fn add(&mut self, row: FileRow) -> Result<(), Memory>
        requires number { row.number ≡ self.old.last_file + 1 }
        requires file { self.old.last_file < 2 ^ 63 }
        requires change { self.old.change < 2 ^ 63 }
        requires room { total_size self.old.table + length row.bytes ≤ total_limit }

        ensures ok { OnOk result (self.new ≡ tree_after (Made row) self.old) }
        ensures err { OnErr result (self.new ≡ self.old) }
    {
        add_row(&mut self.rows, self.change + 1, row)?;
        self.last_file += 1;
        self.change += 1;
        Ok(())
    }

    /// Bytes are written to the file of that number, from an offset on. Bytes that were never written are 0. The file and
    /// its directory take the number of the change. After want of memory nothing has changed.
    #[tactic(auto, unfolding(nm_rules::specs::Contents::tree_after))]
    pub fn write_at(
        &mut self,
        dir: u64,
        number: u64,
        offset: u64,
        bytes: &[u8],
    ) -> Result<(), Memory>
        requires change { self.old.change < 2 ^ 63 }
        requires fits { offset + length bytes.now ≤ size_limit }
        requires room { total_with number (max (size_of (file_at number self.old.table)) (offset + length bytes.now)) self.old.table ≤ total_limit }

        ensures ok { OnOk result (self.new ≡ tree_after (Edited dir number (Wrote offset bytes.now)) self.old) }
        ensures err { OnErr result (self.new ≡ self.old) }
    {
        write_rows(
            &mut self.rows,
            self.change + 1,
            dir,
            number,
            offset as usize,
            bytes,
        )?;
        self.change += 1;
        Ok(())
    }

    /// The file of that number gets a size and a mode, those that are given. It and its directory take the number of the
    /// change. After want of memory nothing has changed.
    #[tactic(auto, unfolding(nm_rules::specs::Contents::tree_after))]
    pub fn set(
        &mut self,
        dir: u64,
        number: u64,
        size: Option<u64>,
        mode: Option<u32>,
    ) -> Result<(), Memory>
        requires change { self.old.change < 2 ^ 63 }
        requires room { IfSome size (λ n. total_with number n self.old.table ≤ total_limit) }

        ensures ok { OnOk result (self.new ≡ tree_after (Edited dir number (Set size mode)) self.old) }
        ensures err { OnErr result (self.new ≡ self.old) }
    {
        set_rows(&mut self.rows, self.change + 1, dir, number, size, mode)?;
        self.change += 1;
        Ok(())
    }

    /// That name goes from a directory, which takes the number of the change.
    #[tactic(auto, unfolding(nm_rules::specs::Contents::tree_after))]
    pub fn drop_name(&mut self, dir: u64, name: &[u8])
        requires change { self.old.change < 2 ^ 63 }

        ensures { self.new ≡ tree_after (Removed dir name.now) self.old }
    {
        drop_rows(&mut self.rows, self.change + 1, dir, name);
        self.change += 1;
    }

    /// The same tree once more.
    pub fn copy(&self) -> Result<Tree, Memory>
        ensures { IfOk result (λ tree. tree ≡ self.now) }
    {
        Ok(Tree {
            rows: copy_rows(*self.rows.allocator(), &self.rows)?,
            last_file: self.last_file,
            change: self.change,
        })
    }
}
