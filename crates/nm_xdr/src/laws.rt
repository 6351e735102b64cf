//! What holds of all items, each law the contract of a function that does nothing.

ghost use Rattle.std.specs.Prelude.{ℕ, ◌≡◌, ◌<◌, ◌≤◌, ◌^◌, ⊤, length, All, IfSome};
ghost use Rattle.nm_xdr.specs.Fields.{IsItem, OneSpelling, IsShortWhereCut};
ghost use Rattle.nm_xdr.specs.Places.{IsExact};
ghost use Rattle.nm_xdr.specs.Items.{word, hyper, flag, fixed, opaque, counted, optional, word_at, hyper_at, flag_at, fixed_at, opaque_at, counted_at, optional_at, bytes_at, only_at, choice_at, inside_at};

/// What is read of an item is spelled so, and what is spelled so is read, whatever follows.
pub fn items_are_read_as_spelled()
    ensures words { IsItem word_at word (λ n. n < 2 ^ 32) }
    ensures hypers { IsItem hyper_at hyper (λ n. n < 2 ^ 64) }
    ensures flags { IsItem flag_at flag (λ _. ⊤) }
    ensures fixed { (n : ℕ) → IsItem (fixed_at n) fixed (λ bytes. length bytes ≡ n) }
    ensures opaque { (max : ℕ) → max < 2 ^ 32 → IsItem (opaque_at max) opaque (λ bytes. length bytes ≤ max) }
{}

/// A take answers a value exactly where the bytes from the cursor on begin with a spelling, and goes past
/// exactly that spelling. This holds of every call that gives what these readings give, as the takes do.
pub fn takes_are_exact()
    ensures words { IsExact word_at word (λ n. n < 2 ^ 32) }
    ensures hypers { IsExact hyper_at hyper (λ n. n < 2 ^ 64) }
    ensures flags { IsExact flag_at flag (λ _. ⊤) }
    ensures fixed { (n : ℕ) → IsExact (fixed_at n) fixed (λ bytes. length bytes ≡ n) }
    ensures opaque { (max : ℕ) → max < 2 ^ 32 → IsExact (opaque_at max) opaque (λ bytes. length bytes ≤ max) }
{}

/// Counted rows and a value that may be absent are read as they are spelled too, here of words.
pub fn rows_are_read_as_spelled()
    ensures rows { (max : ℕ) → max < 2 ^ 32 → IsItem (counted_at max (λ _. word_at)) (counted word)
        (λ xs. (length xs ≤ max) × All (λ n. n < 2 ^ 32) xs) }
    ensures absent { IsItem (optional_at word_at) (optional word) (λ o. IfSome o (λ n. n < 2 ^ 32)) }
{}

/// So are the items that several messages share: byte strings that are told at their first byte, wanted numbers, choices
/// of two, and byte strings whose inside is read to its end, here of a number.
pub fn shared_items_are_read_as_spelled()
    ensures bytes { (max : ℕ) → max < 2 ^ 32 → IsItem (bytes_at max) opaque (λ bytes. length bytes ≤ max) }
    ensures wanted { (n : ℕ) → n < 2 ^ 32 → IsItem (only_at n) word (λ k. k ≡ n) }
    ensures choice { IsItem choice_at word (λ n. n ≤ 1) }
    ensures inside { (max : ℕ) → max < 2 ^ 32 → IsItem (inside_at max word_at) (λ n. opaque (word n)) (λ n. (n < 2 ^ 32) × (length (word n) ≤ max)) }
{}

/// No spelling of an item is the beginning of another of its kind.
pub fn one_spelling()
    ensures words { OneSpelling word (λ n. n < 2 ^ 32) }
    ensures hypers { OneSpelling hyper (λ n. n < 2 ^ 64) }
    ensures flags { OneSpelling flag (λ _. ⊤) }
    ensures fixed { (n : ℕ) → OneSpelling fixed (λ bytes. length bytes ≡ n) }
    ensures opaque { OneSpelling opaque (λ bytes. length bytes < 2 ^ 32) }
{}

/// A spelling that is cut short is too short an item, from its first byte.
pub fn cut_items_are_short()
    ensures words { IsShortWhereCut word_at word (λ n. n < 2 ^ 32) }
    ensures hypers { IsShortWhereCut hyper_at hyper (λ n. n < 2 ^ 64) }
    ensures flags { IsShortWhereCut flag_at flag (λ _. ⊤) }
    ensures fixed { (n : ℕ) → IsShortWhereCut (fixed_at n) fixed (λ bytes. length bytes ≡ n) }
    ensures opaque { (max : ℕ) → max < 2 ^ 32 → IsShortWhereCut (opaque_at max) opaque (λ bytes. length bytes ≤ max) }
{}
