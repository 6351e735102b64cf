//! The law of journals. It is the contract of a function that does nothing.
ghost use Rattle.std.specs.Prelude.{◌≡◌, ℕ, Bool, List};
ghost use Rattle.nm_rules.specs.Answer.{IsLegal};
ghost use Rattle.nm_rules.specs.Past.{Past};
ghost use Rattle.nm_rules.specs.Seen.{Seen, seen};
ghost use Rattle.nm_types.specs.declared.calls.Entry.{Entry};
ghost use Rattle.nm_journal.specs.Journals.{AreAnswered, after_entries, with_entries};

/// Where the base stands for a legal list, this list and the entries that are kept are a legal list, and the tables are its.
pub fn journals_are_legal()
    ensures legal { (fs : ℕ) (grants : Bool) (es : Past) (xs : List Entry) → IsLegal fs grants es → AreAnswered (seen fs grants es) xs
        → IsLegal fs grants (with_entries xs es) }
    ensures stands { (fs : ℕ) (grants : Bool) (es : Past) (xs : List Entry) → after_entries (seen fs grants es) xs ≡ seen fs grants (with_entries xs es) }
{}
