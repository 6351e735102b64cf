//! What can be wrong with the bytes of an item.

ghost use Rattle.std.specs.Prelude.{◌≡◌, ℕ, ◌-◌, ◌≤◌};
ghost use Rattle.nm_xdr.specs.Fields.{of_whole};
ghost use Rattle.nm_xdr.specs.Places.{fault_of, place_of};

/// Why bytes aren't the item that was asked for.
///
/// `at` is a place: the number of bytes of the whole input that come before it. Where several things are
/// wrong with an item, the fault is the first of TooLong, Short, Padding, Bool.
#[derive(Clone, Copy, Debug)]
pub enum XdrFault {
    /// The input ends before the item and its padding do.
    Short {
        /// The place of the item's first byte.
        at: usize,
    },
    /// A byte of the item's padding isn't 0 (RFC 4506, section 3).
    Padding {
        /// The place of the first byte of the padding that isn't 0.
        at: usize,
    },
    /// The word of a flag is neither 0 nor 1 (RFC 4506, section 4.4).
    Bool {
        /// The place of the flag's first byte.
        at: usize,
        /// The word that stands there, from 2.
        got: u32,
    },
    /// A length or a count is above its limit (RFC 4506, sections 4.10 and 4.13).
    TooLong {
        /// The place of the first byte of the length or the count.
        at: usize,
        /// The length or the count.
        got: u64,
        /// The most that it may be.
        max: u64,
    },
    /// A word isn't the number of any value of its enumeration (RFC 4506, section 4.3). No take answers it:
    /// an enumeration belongs to the layout that has it.
    Enum {
        /// The place of the word's first byte.
        at: usize,
        /// The word.
        got: u32,
    },
}

impl XdrFault {
    /// The place that it tells.
    pub fn place(self) -> usize
        ensures { result ≡ place_of self }
    {
        match self {
            XdrFault::Short { at }
            | XdrFault::Padding { at }
            | XdrFault::Bool { at, .. }
            | XdrFault::TooLong { at, .. }
            | XdrFault::Enum { at, .. } => at,
        }
    }

    // A fault in a part of an item that begins at this place, as a fault of the item: one that ends too soon
    // is missing as a whole.
    pub(crate) fn of_whole(self, start: usize) -> XdrFault
        ensures fault { (total : ℕ) → fault_of total result ≡ of_whole (total - start) (fault_of total self) }
        ensures within { (total : ℕ) → start ≤ total → place_of self ≤ total → place_of result ≤ total }
    {
        match self {
            XdrFault::Short { at: _ } => XdrFault::Short { at: start },
            _ => self,
        }
    }
}
