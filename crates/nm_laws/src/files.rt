//! Laws of files: which are there, their numbers, kinds, verifiers and change numbers.
ghost use Rattle.std.specs.Prelude.{◌≡◌, ◌+◌, ℕ, Bool, List, Some, is_none, not};
ghost use Rattle.nm_rules.specs.Answer.{answer, IsLegal};
ghost use Rattle.nm_rules.specs.Contents.{file_at, child_at};
ghost use Rattle.nm_rules.specs.Past.{Past};
ghost use Rattle.nm_rules.specs.Seen.{seen};
ghost use Rattle.nm_types.specs.declared.calls.Event.{Event as AnyEvent};
ghost use Rattle.nm_types.specs.declared.rows.FileRow.{FileRow as AnyRow};
ghost use Rattle.nm_laws.specs.TreeReadings.{NewFile, FileAct.Adds, act_of, child_of, is_there, files_made, kind_made, verifier_made, changes_made, change_number};

/// The k-th file or directory that was made has number 15 + k, directories and files together: the last number is 15 and how many
/// CREATEs and OPENs that acted made one, and each is told the next.
pub fn files_are_numbered()
    ensures last { (fs : ℕ) (grants : Bool) (es : Past) → IsLegal fs grants es → (seen fs grants es).tree.last_file ≡ 15 + files_made es }
    ensures told { (fs : ℕ) (grants : Bool) (es : Past) (event : AnyEvent) (new : NewFile) → IsLegal fs grants es
        → act_of es event (answer fs grants es event) ≡ Adds new → new.number ≡ 15 + (files_made es + 1) }
{}

/// The files that are there are the root and those that were made and not removed since (RFC 7530, 16.4, 16.16 and 16.25), and a name in
/// a directory leads to the file that was made with it there, where the name wasn't removed since. No other name leads anywhere.
pub fn files_are_there_as_made()
    ensures files { (fs : ℕ) (grants : Bool) (es : Past) → IsLegal fs grants es
        → (file : ℕ) → not (is_none (file_at file (seen fs grants es).tree.table)) ≡ is_there es file }
    ensures names { (fs : ℕ) (grants : Bool) (es : Past) → IsLegal fs grants es
        → (dir : ℕ) (name : List ℕ) → child_at dir name (seen fs grants es).tree.table ≡ child_of es dir name }
{}

/// Whether a file that is there is a directory, and the verifier by which an EXCLUSIVE OPEN comes again (RFC 7530, 16.16), are those of
/// its making.
pub fn files_are_as_made()
    ensures kinds { (fs : ℕ) (grants : Bool) (es : Past) → IsLegal fs grants es
        → (file : ℕ) (row : AnyRow) → file_at file (seen fs grants es).tree.table ≡ Some row → row.kind ≡ kind_made es file }
    ensures verifiers { (fs : ℕ) (grants : Bool) (es : Past) → IsLegal fs grants es
        → (file : ℕ) (row : AnyRow) → file_at file (seen fs grants es).tree.table ≡ Some row → row.verifier ≡ verifier_made es file }
{}

/// Changes are counted from 1 on: each WRITE of a byte or more, CREATE, REMOVE, SETATTR of an attribute or more, and OPEN that makes or
/// cuts its file, that acted, is one. A file's change number (RFC 7530, 5.8.1.4) is that of the latest change of it, or of a file in it.
pub fn changes_are_counted()
    ensures last { (fs : ℕ) (grants : Bool) (es : Past) → IsLegal fs grants es → (seen fs grants es).tree.change ≡ changes_made es }
    ensures files { (fs : ℕ) (grants : Bool) (es : Past) → IsLegal fs grants es
        → (file : ℕ) (row : AnyRow) → file_at file (seen fs grants es).tree.table ≡ Some row → row.change ≡ change_number es file }
{}
