//! The law of every script's run. It is the contract of a function that does nothing.
ghost use Rattle.std.specs.Prelude.{◌≡◌, ℕ, Some, slice_get};
ghost use Rattle.nm_script.specs.Grammar.{IsWellFormed};
ghost use Rattle.nm_script.specs.declared.script.FsRow.{FsRow as FileRow};
ghost use Rattle.nm_script.specs.declared.script.Script.{Script};
ghost use Rattle.nm_short.specs.RunFacts.{IsAccounted};

/// One holder: after any number of a script's lines at most one server serves each file system. What each server has of
/// it is its column of the one phase, and each entry is answered as after those before it.
pub fn one_server_has_each_file_system()
    ensures { (s : Script) → IsWellFormed s → (lines fs : ℕ) (row : FileRow) → slice_get s.head.file_systems fs ≡ Some row → IsAccounted s lines fs row }
{}
