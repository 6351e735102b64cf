//! Laws of rows: how many an answer leaves, and when that is too many.
ghost use Rattle.std.specs.Prelude.{◌≡◌, ◌≢◌, ◌+◌, ℕ, Bool, true, None, nat_lt, if◌then◌else◌};
ghost use Rattle.nm_rules.specs.Answer.{answer, IsLegal};
ghost use Rattle.nm_rules.specs.Checks.{first};
ghost use Rattle.nm_rules.specs.LockOps.{denied_by};
ghost use Rattle.nm_rules.specs.Opens.{rows_limit};
ghost use Rattle.nm_rules.specs.Past.{Past};
ghost use Rattle.nm_rules.specs.Seen.{seen};
ghost use Rattle.nm_laws.specs.RowsLeft.{but_rows, is_limited, rows_if_done};
ghost use Rattle.nm_laws.specs.ToldRanges.{IsWithin, told_length};
ghost use Rattle.nm_types.specs.Calls.{greatest};
ghost use Rattle.nm_types.specs.declared.calls.Call.{Call as AnyCall};
ghost use Rattle.nm_types.specs.declared.calls.Event.TheVariants.{Asked};
ghost use Rattle.nm_types.specs.declared.calls.Verdict.{Verdict as AnyVerdict};
ghost use Rattle.nm_types.specs.declared.rows.Held.{Held as AnyHeld};
ghost use Rattle.nm_types.specs.declared.rows.LockRow.{LockRow as AnyLock};
ghost use Rattle.nm_types.specs.declared.status.OpStatus.TheVariants.{Nfs4Ok, Resource};

/// A DENIED tells a range by its first byte and its length, whose greatest, 2^64 - 1, is that of a range to the end (RFC 7530,
/// 16.10.4), and what it tells has one spelling: two ranges that are told with one first byte and one length are told as one range.
/// Bytes 0 to 2^64 - 2 have that length too, so that no range is told so; every other one is told as it is held.
pub fn denied_ranges_have_one_spelling()
    ensures one { (h other : AnyHeld) (row its : AnyLock) → IsWithin h → IsWithin other
        → (denied_by h row).range.first ≡ (denied_by other its).range.first
        → told_length (denied_by h row).range.first (denied_by h row).range.last ≡ told_length (denied_by other its).range.first (denied_by other its).range.last
        → (denied_by h row).range.last ≡ (denied_by other its).range.last }
    ensures never { (h : AnyHeld) (row : AnyLock) → IsWithin h → (denied_by h row).range.first ≡ 0 → (denied_by h row).range.last + 1 ≢ greatest }
    ensures held { (h : AnyHeld) (row : AnyLock) → IsWithin h → (h.first ≡ 0 → h.last + 1 ≢ greatest)
        → (denied_by h row).range ≡ record { kind = h.kind; first = h.first; last = h.last } }
{}

/// Where nothing else refuses an OPEN, a LOCK or a LOCKU, it is answered RESOURCE exactly where more than 65,536 rows would be there
/// once it was answered OK: owners, opens, closed opens that still resolve, lock stateids, and ranges that they hold. Else it is
/// answered OK (RFC 7530, 16.10, 16.12 and 16.16).
pub fn resource_comes_past_the_limit()
    ensures { (fs : ℕ) (grants : Bool) (es : Past) (call : AnyCall) (verdict : AnyVerdict) → IsLegal fs grants es → is_limited call.deed ≡ true
        → first (but_rows (seen fs grants es) call.caller call.file verdict call.deed) ≡ None
        → (answer fs grants es (Asked call verdict)).status ≡ (if nat_lt rows_limit (rows_if_done (seen fs grants es) call verdict) then Resource else Nfs4Ok) }
{}
