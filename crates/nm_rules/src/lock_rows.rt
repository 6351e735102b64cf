//! Laws of byte-range locks: of the tables by the words that change them, and of every legal list.
ghost use Rattle.std.specs.Prelude.{◌≡◌, ◌≢◌, ℕ, Bool, List, true};
ghost use Rattle.nm_rules.specs.Answer.{IsLegal};
ghost use Rattle.nm_rules.specs.LockReadings.{byte_lock};
ghost use Rattle.nm_rules.specs.Past.{Past};
ghost use Rattle.nm_rules.specs.Seen.{seen};
ghost use Rattle.nm_rules.specs.LockRows.{LockWord, LocksStand, MayFollow, go_together, last_after, lock_in, lock_left, locks_after, ranges_after};
ghost use Rattle.nm_types.specs.declared.calls.Owner.{Owner as AnyOwner};
ghost use Rattle.nm_types.specs.declared.rows.FileLocks.{FileLocks as AnyFileLocks};
ghost use Rattle.nm_types.specs.declared.rows.LockRow.{LockRow as AnyLockRow};

/// Whatever takes, gives up or ends locks leaves tables that stand: counters rise, an owner has one stateid on a file, ranges are
/// joined, only a stateid on the file holds bytes of it, and no two stateids hold a byte where one of them writes.
pub fn locks_stand()
    ensures { (word : LockWord) (last : ℕ) (locks : List AnyLockRow) (ranges : List AnyFileLocks)
        → LocksStand last locks ranges → MayFollow word last locks ranges
        → LocksStand (last_after word last) (locks_after word locks) (ranges_after word locks ranges) }
{}

/// What an owner holds at each byte of a file, after each of them: a range that it takes or gives up counts there, and what it held
/// elsewhere stays (RFC 7530, 16.10 and 16.12).
pub fn locks_are_held_at_bytes()
    ensures { (word : LockWord) (last : ℕ) (locks : List AnyLockRow) (ranges : List AnyFileLocks)
        → LocksStand last locks ranges → MayFollow word last locks ranges
        → (owner : AnyOwner) (file byte : ℕ)
        → lock_in owner file byte (locks_after word locks) (ranges_after word locks ranges) ≡ lock_left word owner file byte (lock_in owner file byte locks ranges) }
{}

/// In tables that stand no two owners hold a byte of a file where one of them writes (RFC 7530, 9.1).
pub fn held_locks_never_conflict()
    ensures { (last : ℕ) (locks : List AnyLockRow) (ranges : List AnyFileLocks) → LocksStand last locks ranges
        → (owner other : AnyOwner) (file byte : ℕ) → owner ≢ other
        → go_together (lock_in owner file byte locks ranges) (lock_in other file byte locks ranges) ≡ true }
{}

/// The tables of locks of every legal list stand.
pub fn legal_locks_stand()
    ensures { (fs : ℕ) (grants : Bool) (es : Past) → IsLegal fs grants es
        → LocksStand (seen fs grants es).last (seen fs grants es).locks (seen fs grants es).ranges }
{}

/// The tables hold at each byte of each file what the entries say (RFC 7530, 9.1, 16.10 and 16.12): an owner holds the kind of the
/// latest LOCK of its that was carried out there, since the latest LOCKU of its there and its client's latest end.
pub fn locks_are_held_as_taken()
    ensures { (fs : ℕ) (grants : Bool) (es : Past) → IsLegal fs grants es → (owner : AnyOwner) (file byte : ℕ)
        → lock_in owner file byte (seen fs grants es).locks (seen fs grants es).ranges ≡ byte_lock es owner file byte }
{}

/// No two owners hold conflicting locks at a byte (RFC 7530, 9.1): where one of them writes, the other holds nothing.
pub fn locks_never_conflict()
    ensures { (fs : ℕ) (grants : Bool) (es : Past) → IsLegal fs grants es → (owner other : AnyOwner) (file byte : ℕ) → owner ≢ other
        → go_together (byte_lock es owner file byte) (byte_lock es other file byte) ≡ true }
{}
