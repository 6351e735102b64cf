//! Laws of rolls: each is the contract of a function that does nothing.
ghost use Rattle.std.specs.Prelude.{◌≡◌, ℕ, true, List, Some, None};
ghost use Rattle.nm_roll.specs.Records.{RollNow, party_of, string_at};
ghost use Rattle.nm_roll.specs.Leases.{expire_answer, is_reserved};
ghost use Rattle.nm_roll.specs.declared.records.Confirmed.{Confirmed as AnyConfirmed};
ghost use Rattle.nm_roll.specs.declared.records.StringRow.{StringRow as AnyRow};

/// A reserved lease doesn't lapse: while a file system is on its way here where an instance has state, the lease of its
/// confirmed record stays, however late it is.
pub fn reserved_leases_stand()
    ensures { (r : RollNow) (id : List ℕ) (row : AnyRow) (c : AnyConfirmed) → string_at id r.table ≡ Some row → row.confirmed ≡ Some c
        → is_reserved (party_of row.id c) r.reservations ≡ true → expire_answer r id ≡ None }
{}
