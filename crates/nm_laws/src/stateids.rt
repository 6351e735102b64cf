//! Laws of stateids: counters, their seqids, and how long they live (RFC 7530, 9.1.4).
ghost use Rattle.std.specs.Prelude.{◌≡◌, ℕ, Bool, true};
ghost use Rattle.nm_rules.specs.Answer.{IsLegal};
ghost use Rattle.nm_rules.specs.Held.{held_table};
ghost use Rattle.nm_rules.specs.LockRows.{lock_of};
ghost use Rattle.nm_rules.specs.OwnerReadings.{owner_now};
ghost use Rattle.nm_rules.specs.Past.{Past};
ghost use Rattle.nm_rules.specs.Readings.{share_of};
ghost use Rattle.nm_rules.specs.Seen.{seen};
ghost use Rattle.nm_rules.specs.Shares.{open_of};
ghost use Rattle.nm_laws.specs.StateidNow.{open_now, lock_now, live_at, is_kept_close};
ghost use Rattle.nm_laws.specs.StateidRows.{open_in, lock_in, row_of, lock_row_of, stateid_in, is_closed_of, all_are_opened, is_one, held_rises};
ghost use Rattle.nm_types.specs.declared.calls.Owner.{Owner as AnyOwner};

/// The table of opens has for each owner and file the stateid that the entries tell: the counter of the OPEN that made it, as the
/// how many-th stateid it was, and the seqid, which is 1 then and goes up by one with each further OPEN, OPEN_CONFIRM and
/// OPEN_DOWNGRADE that acted on it, from 2^32 - 1 to 1 (RFC 7530, 9.1.4.2, 16.16, 16.18 and 16.19). With the share of the owner
/// that is the whole row, and there is none else of them.
pub fn open_stateids_are_told()
    ensures stateid { (fs : ℕ) (grants : Bool) (es : Past) → IsLegal fs grants es
        → (owner : AnyOwner) (file : ℕ) → open_in owner file (seen fs grants es).opens ≡ open_now es owner file }
    ensures row { (fs : ℕ) (grants : Bool) (es : Past) → IsLegal fs grants es
        → (owner : AnyOwner) (file : ℕ) → open_of owner file (seen fs grants es).opens ≡ row_of owner file (open_now es owner file) (share_of es owner file) }
{}

/// The table of lock stateids has for each lock owner and file what the entries tell: the counter of the LOCK that made the stateid,
/// the open that this LOCK named, and the seqid, which is 1 then and goes up by one with each LOCK and LOCKU that acted with it
/// (RFC 7530, 9.1.4.2, 16.10 and 16.12).
pub fn lock_stateids_are_told()
    ensures stateid { (fs : ℕ) (grants : Bool) (es : Past) → IsLegal fs grants es
        → (owner : AnyOwner) (file : ℕ) → lock_in owner file (seen fs grants es).locks ≡ lock_now es owner file }
    ensures row { (fs : ℕ) (grants : Bool) (es : Past) → IsLegal fs grants es
        → (owner : AnyOwner) (file : ℕ) → lock_of owner file (seen fs grants es).locks ≡ lock_row_of owner file (lock_now es owner file) }
{}

/// The k-th stateid that was made is in the tables exactly while it lives, with the owner and the file that it was made for and
/// the open that it was made with: from the OPEN or the LOCK that made it on, until a CLOSE of its open, a RELEASE_LOCKOWNER of
/// its owner, or the end of its client (RFC 7530, 9.1.4.4, 9.6.3, 16.2 and 16.37).
pub fn stateids_live_as_told()
    ensures { (fs : ℕ) (grants : Bool) (es : Past) → IsLegal fs grants es
        → (k : ℕ) → stateid_in k (seen fs grants es).opens (seen fs grants es).locks ≡ live_at es k }
{}

/// A closed open still resolves exactly while its CLOSE is its owner's kept call, the one that may come again (RFC 7530, 9.1.7 and
/// 16.2).
pub fn closed_stateids_are_kept_closes()
    ensures { (fs : ℕ) (grants : Bool) (es : Past) → IsLegal fs grants es
        → (owner : AnyOwner) (k : ℕ) → is_closed_of owner k (seen fs grants es).closed ≡ is_kept_close k (owner_now es owner) }
{}

/// A lock owner's stateid lives no longer than the open with which it was made: that open is live, of the same file, and of the
/// same client (RFC 7530, 9.1.4.4 and 16.2).
pub fn lock_stateids_have_their_opens()
    ensures { (fs : ℕ) (grants : Bool) (es : Past) → IsLegal fs grants es
        → all_are_opened (seen fs grants es).opens (seen fs grants es).locks ≡ true }
{}

/// No counter is both an open's and a lock owner's, be the open live or closed, and the table of what is held rises by counter: each row
/// has a counter of its own (RFC 7530, 9.1.4.2).
pub fn counters_stand_once()
    ensures once { (fs : ℕ) (grants : Bool) (es : Past) → IsLegal fs grants es
        → (k : ℕ) → is_one k (seen fs grants es).opens (seen fs grants es).locks ≡ true }
    ensures closed { (fs : ℕ) (grants : Bool) (es : Past) → IsLegal fs grants es
        → (k : ℕ) → is_one k (seen fs grants es).closed (seen fs grants es).locks ≡ true }
    ensures rising { (fs : ℕ) (grants : Bool) (es : Past) → IsLegal fs grants es → held_rises 0 (held_table (seen fs grants es)) ≡ true }
{}
