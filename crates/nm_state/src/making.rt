//! The files that OPENs make and cut.
ghost use Rattle.std.specs.Prelude.{◌≡◌, ◌<◌, ◌≤◌, ◌+◌, ◌^◌, [], Some, None, IfOk, OnOk, length, replicate, unwrap_or};
ghost use Rattle.nm_rules.specs.Attributes.{asked_size};
ghost use Rattle.nm_rules.specs.Contents.{file_at, size_limit};
ghost use Rattle.nm_rules.specs.Contents.TreeWord.{Made, Edited};
ghost use Rattle.nm_rules.specs.Contents.FileEdit.{Set};
ghost use Rattle.nm_rules.specs.Past.{claimed_name, opentype_asks, new_file, parent_of};
ghost use Rattle.nm_rules.specs.Opens.{target, tree_limit};
ghost use Rattle.nm_state.specs.Opening.{HasRoom, after_word, open_word};

use crate::claims::{cuts, exclusive_verifier, name_of, opentype_asks};
use crate::tables::Tables;
use nm_types::{Bytes, FileKind, FileRow, Memory, OpenArgs};
use std::alloc::Global;

// So many zeros.
fn zeros(alloc: Global, count: u64) -> Result<Bytes, Memory>
    requires { count ≤ size_limit }
    ensures value { IfOk result (λ bytes. bytes ≡ replicate count 0) }
    ensures size { IfOk result (λ bytes. length bytes ≡ count) }
{
    let mut bytes = Bytes::new(alloc);
    for _ in 0..count {
        bytes.push(0)?;
    }
    Ok(bytes)
}

impl Tables {
    // The file that an OPEN makes.
    fn new_file(&self, dir: u64, args: &OpenArgs) -> Result<FileRow, Memory>
        requires { unwrap_or (asked_size (opentype_asks args.now.opentype)) 0 ≤ size_limit }
        ensures size { IfOk result (λ row. length row.bytes ≡ unwrap_or (asked_size (opentype_asks args.now.opentype)) 0) }
        ensures value { IfOk result (λ row. row ≡ new_file (self.now.tree.last_file + 1) dir (unwrap_or (claimed_name args.now.claim) []) args.now.opentype) }
    {
        let asks = opentype_asks(&args.opentype);
        let name = match name_of(&args.claim) {
            Some(name) => name.copy()?,
            None => Bytes::new(self.alloc),
        };
        Ok(FileRow {
            number: self.tree.last_file() + 1,
            parent: dir,
            name,
            kind: FileKind::File,
            mode: asks.mode().unwrap_or(0o644),
            change: 0,
            verifier: exclusive_verifier(&args.opentype),
            bytes: zeros(self.alloc, asks.size().unwrap_or(0))?,
        })
    }

    // Makes the file of an OPEN.
    #[tactic(auto, unfolding(crate::specs::Opening::after_word))]
    fn make_file(&mut self, dir: u64, args: &OpenArgs) -> Result<(), Memory>
        requires { HasRoom self.old.tree (unwrap_or (asked_size (opentype_asks args.now.opentype)) 0) }
        ensures { OnOk result (self.new ≡ after_word (Made (new_file (self.old.tree.last_file + 1) dir (unwrap_or (claimed_name args.now.claim) []) args.now.opentype)) self.old) }
    {
        let row = self.new_file(dir, args)?;
        // There is room for it beside the bytes of all files.
        let _ = self.tree.total_size();
        Ok(self.tree.add(row)?)
    }

    // Cuts a file that is there.
    #[tactic(auto, unfolding(crate::specs::Opening::after_word))]
    fn cut_file(&mut self, number: u64) -> Result<(), Memory>
        requires { self.old.tree.change < 2 ^ 63 }
        ensures { OnOk result (self.new ≡ after_word (Edited (parent_of (file_at number self.old.tree.table)) number (Set (Some 0) None)) self.old) }
    {
        let dir = self.parent_of(number);
        // No file grows by it, so there is room.
        let _ = self.tree.total_size();
        Ok(self.tree.set(dir, number, Some(0), None)?)
    }

    /// Makes the file of an OPEN, or cuts it, or does neither.
    #[tactic(auto, using(crate::proofs::OpeningLemmas::room_to_make, crate::proofs::OpeningLemmas::room_to_cut, crate::proofs::OpeningLemmas::leaves_uncut), unfolding(crate::specs::Opening::open_word, nm_rules::specs::Past::open_tree))]
    pub fn change_tree(&mut self, file: u64, args: &OpenArgs) -> Result<(), Memory>
        requires { tree_limit self.old (target self.old file args.now) args.now.opentype ≡ None }
        ensures { OnOk result (self.new ≡ after_word (open_word self.old file args.now) self.old) }
    {
        match self.target(file, &args.claim) {
            None => Ok(self.make_file(file, args)?),
            Some(number) => {
                if cuts(&args.opentype) {
                    self.cut_file(number)?;
                }
                Ok(())
            }
        }
    }
}
