//! Laws of byte-range locks of one file: each is the contract of a function that does nothing. They are over the definitions alone,
//! and the contracts of the crates above bind the code to the same definitions.
ghost use Rattle.std.specs.Prelude.{◌≡◌, ◌≢◌, ◌≤◌, ◌==◌, ◌&&◌, ◌↔◌, ℕ, true, false, Option, Some, None, List, if◌then◌else◌};
ghost use Rattle.nm_rules.specs.Locks.{IsBarrier, IsFree, IsJoined, barrier, cleared, conflicts_with, dropped, is_inside, kind_at, set_to};
ghost use Rattle.nm_types.specs.declared.results.LockKind.{LockKind as AnyKind};
ghost use Rattle.nm_types.specs.declared.rows.Held.{Held as AnyHeld};

/// What each owner holds at each byte after a change. A lock gives its owner its kind at each byte of its range, an unlock takes the
/// owner's locks off the range, and the end of an owner takes them off all bytes. Every other byte and every other owner is as before.
pub fn ranges_hold_bytes()
    ensures set { (rows : List AnyHeld) (owner : ℕ) (kind : AnyKind) (first last : ℕ) → IsJoined rows → first ≤ last → (other p : ℕ)
        → kind_at other p (set_to owner kind first last rows) ≡ (if (other == owner) && is_inside first last p then Some kind else kind_at other p rows) }
    ensures cleared { (rows : List AnyHeld) (owner first last : ℕ) → IsJoined rows → first ≤ last → (other p : ℕ)
        → kind_at other p (cleared owner first last rows) ≡ (if (other == owner) && is_inside first last p then None else kind_at other p rows) }
    ensures dropped { (rows : List AnyHeld) (owner other p : ℕ)
        → kind_at other p (dropped owner rows) ≡ (if other == owner then None else kind_at other p rows) }
{}

/// The rows stay in order, joined and free of conflict: after a lock that nothing is in the way of, after an unlock, and after the
/// end of an owner.
pub fn ranges_stay_joined()
    ensures set { (rows : List AnyHeld) (owner : ℕ) (kind : AnyKind) (first last : ℕ) → IsJoined rows → first ≤ last
        → barrier owner kind first last rows ≡ None → IsJoined (set_to owner kind first last rows) }
    ensures cleared { (rows : List AnyHeld) (owner first last : ℕ) → IsJoined rows → first ≤ last → IsJoined (cleared owner first last rows) }
    ensures dropped { (rows : List AnyHeld) (owner : ℕ) → IsJoined rows → IsJoined (dropped owner rows) }
{}

/// No two owners hold conflicting locks at a byte (RFC 7530, 9.2).
pub fn ranges_never_conflict()
    ensures { (rows : List AnyHeld) (owner p : ℕ) (kind : AnyKind) → IsJoined rows → kind_at owner p rows ≡ Some kind → IsFree owner kind p rows }
{}

/// Nothing is in the way of a lock exactly where no byte of its range is held by another owner in conflict. Else what is told is
/// the longest range around the lowest such byte, of several owners that of the lowest (RFC 7530, 16.10.4).
pub fn barriers_are_least()
    ensures none { (rows : List AnyHeld) (owner : ℕ) (kind : AnyKind) (first last : ℕ) → IsJoined rows → first ≤ last
        → ((barrier owner kind first last rows ≡ None) ↔ ((p : ℕ) → first ≤ p → p ≤ last → IsFree owner kind p rows)) }
    ensures some { (rows : List AnyHeld) (owner : ℕ) (kind : AnyKind) (first last : ℕ) (h : AnyHeld) → IsJoined rows → first ≤ last
        → barrier owner kind first last rows ≡ Some h → IsBarrier owner kind first last rows h }
{}

/// Two lists of rows that hold the same at each byte for each owner are the same.
pub fn joined_ranges_are_told_by_bytes()
    ensures { (rows others : List AnyHeld) → IsJoined rows → IsJoined others
        → ((owner p : ℕ) → kind_at owner p rows ≡ kind_at owner p others) → rows ≡ others }
{}
