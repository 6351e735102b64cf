//! Laws of calls: which are the same, and whom an answer concerns.
ghost use Rattle.std.specs.Prelude.{◌≡◌, ◌↔◌, ◌⊎◌, ℕ, Bool, true, Some, IsTrue};
ghost use Rattle.nm_rules.specs.Answer.{answer, IsLegal};
ghost use Rattle.nm_rules.specs.Holders.{has_row};
ghost use Rattle.nm_rules.specs.Past.{Past};
ghost use Rattle.nm_rules.specs.Repeats.{same_call};
ghost use Rattle.nm_rules.specs.Seen.{seen, after};
ghost use Rattle.nm_types.specs.Parties.{Party};
ghost use Rattle.nm_laws.specs.SeqidCalls.{takes_seqid};
ghost use Rattle.nm_types.specs.declared.calls.Call.{Call as AnyCall};
ghost use Rattle.nm_types.specs.declared.calls.Event.TheVariants.{Asked};
ghost use Rattle.nm_types.specs.declared.calls.Verdict.{Verdict as AnyVerdict};

/// A call is the one that came before exactly where it takes a seqid and is equal to that one: the callers' instances, the files
/// and the operations with all their arguments are equal (RFC 7530, 9.1.7). Clientids are no arguments here.
pub fn same_calls_are_equal()
    ensures { (call kept : AnyCall) → IsTrue (same_call call.caller call.file call.deed kept) ↔ ((takes_seqid call.deed ≡ true) × (call ≡ kept)) }
{}

/// An answer makes rows of its caller's instance alone: an instance that has an owner or an open once a call was answered had one
/// before, or is the caller's.
pub fn rows_are_of_callers()
    ensures { (fs : ℕ) (grants : Bool) (es : Past) (call : AnyCall) (verdict : AnyVerdict) (party : Party) → IsLegal fs grants es
        → has_row party (after (seen fs grants es) (Asked call verdict) (answer fs grants es (Asked call verdict))) ≡ true
        → (has_row party (seen fs grants es) ≡ true) ⊎ (call.caller ≡ Some party) }
{}
