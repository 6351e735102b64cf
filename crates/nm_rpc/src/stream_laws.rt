//! What holds of every stream of records, each law the contract of a function that does nothing.

ghost use Rattle.std.specs.Prelude.{◌≡◌, ℕ, ◌+◌, ◌≤◌, ◌<◌, ◌^◌, Bool, List, [], ◌++◌, length, slice_index, sum_by, None, Some, if◌then◌else◌};
ghost use Rattle.std.specs.List.{AllByRecursion};
ghost use Rattle.nm_xdr.specs.Items.{word};
ghost use Rattle.nm_rpc.specs.Stream.{IsFragment, number_of, AreSpellingsOf, Splits, IsTooLong};
ghost use Rattle.nm_rpc.specs.Feeding.{RecordsNow, fresh, fed, IsAfter, refusal_of};

/// A stream splits into records in one way, and is too long at one place.
pub fn streams_split_in_one_way()
    ensures records { (stream : List ℕ) (rs ss : List (List ℕ)) (x y : List ℕ)
        → Splits stream rs x → Splits stream ss y → (rs ≡ ss) × (x ≡ y) }
    ensures refusal { (limit : ℕ) (stream : List ℕ) (rs ss : List (List ℕ)) (m n : ℕ)
        → IsTooLong limit stream rs m → IsTooLong limit stream ss n → (rs ≡ ss) × (m ≡ n) }
{}

/// What is held after a stream, of which some records were given, is what the stream says: the records given
/// and those that wait are its records, and the rest is less than one. The stream is refused exactly where it
/// is too long. No more is held than was fed, and of the next record no more than the limit.
pub fn held_is_of_the_stream()
    ensures first { (limit : ℕ) → IsAfter [] [] (fresh limit) }
    ensures split { (stream : List ℕ) (given : List (List ℕ)) (now : RecordsNow) → IsAfter stream given now
        → refusal_of now.phase ≡ None → (rest : List ℕ) × Splits stream (given ++ now.waiting) rest }
    ensures fits { (stream : List ℕ) (given : List (List ℕ)) (now : RecordsNow) (records : List (List ℕ)) (got : ℕ)
        → IsAfter stream given now → refusal_of now.phase ≡ None → IsTooLong now.limit stream records got → ⊥ }
    ensures refused { (stream : List ℕ) (given : List (List ℕ)) (now : RecordsNow) (got : ℕ) → IsAfter stream given now
        → refusal_of now.phase ≡ Some got → IsTooLong now.limit stream (given ++ now.waiting) got }
    ensures little { (stream : List ℕ) (given : List (List ℕ)) (now : RecordsNow) → IsAfter stream given now
        → (sum_by length now.waiting + length now.partial ≤ length stream) × (length now.partial ≤ now.limit) }
{}

/// What is fed in two pieces is fed in one. Once a stream is given up, nothing that is fed changes anything.
pub fn cutting_changes_nothing()
    ensures cut { (now : RecordsNow) (xs ys : List ℕ) → fed now (xs ++ ys) ≡ fed (fed now xs) ys }
    ensures stays { (now : RecordsNow) (bytes : List ℕ) (got : ℕ) → refusal_of now.phase ≡ Some got → fed now bytes ≡ now }
{}

/// Records that are spelled one after the other, none longer than the limit, are given again, all of them.
pub fn spelled_records_are_given()
    ensures { (limit : ℕ) (records : List (List ℕ)) (bytes : List ℕ) → AreSpellingsOf records bytes
        → AllByRecursion (λ r. length r ≤ limit) records
        → ((fed (fresh limit) bytes).waiting ≡ records) × (refusal_of (fed (fresh limit) bytes).phase ≡ None) }
{}

/// A header is a word of XDR: its top bit, and in the others a length. The bytes of a header are that word.
pub fn headers_are_words()
    ensures fragment { (last : Bool) (body : List ℕ) → length body < 2 ^ 31
        → IsFragment last (record { header = word ((if last then 2147483648 else 0) + length body); body = body }) }
    ensures number { (header : List ℕ) → length header ≡ 4 → ((i : ℕ) → slice_index header i < 256)
        → word (number_of header) ≡ header }
{}
