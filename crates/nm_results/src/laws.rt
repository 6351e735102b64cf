//! What holds of all results, each law the contract of a function that does nothing.
ghost use Rattle.std.specs.Prelude.{ℕ, ◌*◌, ◌^◌, ◌≤◌, ◌<◌, List, length, ◌≡◌, Ok, Some, None};
ghost use Rattle.std.specs.List.Sorted.{IsStrictlySortedBy};
ghost use Rattle.nm_xdr.specs.Fields.{IsBytes, IsItem};
ghost use Rattle.nm_xdr.specs.Places.{IsExact};
ghost use Rattle.nm_types.specs.Parties.{Party, party_cmp};
ghost use Rattle.nm_results.specs.declared.values.Results.{Results as AnyResults};
ghost use Rattle.nm_results.specs.Kept.{kept_at, kept_bytes, IsKeptReply};
ghost use Rattle.nm_results.specs.ResultPlaces.{place_of_result, BeginsAt};
ghost use Rattle.nm_results.specs.Results.{results_of, results_bytes, AreResults, IsResults};

/// Results are read of bytes exactly where the bytes are these results, with anything in the place of what is passed over. Of a result
/// that is kept there are at least eight bytes, whatever count is announced.
pub fn results_are_read_as_spelled()
    ensures found { (v : AnyResults) (bytes : List ℕ) → IsBytes bytes → results_of bytes ≡ Ok v → IsResults v bytes }
    ensures again { (v : AnyResults) (bytes : List ℕ) → IsResults v bytes → results_of bytes ≡ Ok v }
    ensures few { (bytes : List ℕ) (v : AnyResults) → IsBytes bytes → results_of bytes ≡ Ok v → 8 * length v.items ≤ length bytes }
{}

/// What is written of results is these results, and is read again as what was written. Results can be written exactly where
/// some bytes are these results, so those that were read can be.
pub fn results_are_read_as_written()
    ensures spelled { (v : AnyResults) → AreResults v → IsResults v (results_bytes v) }
    ensures read { (v : AnyResults) → AreResults v → results_of (results_bytes v) ≡ Ok v }
    ensures condition { (v : AnyResults) (bytes : List ℕ) → IsResults v bytes → AreResults v }
    ensures once_read { (bytes : List ℕ) (v : AnyResults) → IsBytes bytes → results_of bytes ≡ Ok v → AreResults v }
{}

/// In bytes that are results each result begins at one place, and there it is found; so is the end of the last one, with as many in front.
/// Where there are fewer, none is found.
pub fn results_have_places()
    ensures each { (v : AnyResults) (bytes : List ℕ) (index : ℕ) → IsResults v bytes → index ≤ length v.items → (place : ℕ) × BeginsAt v index place bytes }
    ensures found { (v : AnyResults) (bytes : List ℕ) (index place : ℕ) → BeginsAt v index place bytes → place_of_result index bytes ≡ Some place }
    ensures no_more { (v : AnyResults) (bytes : List ℕ) (index : ℕ) → IsResults v bytes → length v.items < index → place_of_result index bytes ≡ None }
{}

/// A kept reply is read exactly where it is spelled, whatever follows, among holders that rise: what is written is read again as it was,
/// and no other bytes are read as the same reply.
pub fn kept_replies_are_read_as_written()
    ensures item { (holders : List Party) → IsStrictlySortedBy party_cmp holders → length holders < 2 ^ 64 → IsItem (kept_at holders) (kept_bytes holders) (IsKeptReply holders) }
    ensures exact { (holders : List Party) → IsStrictlySortedBy party_cmp holders → length holders < 2 ^ 64 → IsExact (kept_at holders) (kept_bytes holders) (IsKeptReply holders) }
{}
