//! Where in a fragment a stream stands.

/// What the next byte of a stream belongs to.
///
/// ```text
///            a header whose fragment is empty
///             ┌───────┐
///             ▼       │     a header
///          Header ────┴───────────────▶ Body
///             │ ▲                        │
///             │ └────────────────────────┘
///             │      the fragment's last byte
///             ▼
///          TooLong      a header that announces more than the limit leaves room for
/// ```
#[derive(Clone, Copy)]
pub enum Phase {
    /// A fragment's header, of which some bytes have come.
    Header {
        /// The number that these bytes are, the highest first.
        number: u32,
        /// How many bytes they are, below 4.
        seen: u8,
    },
    /// A fragment's bytes.
    Body {
        /// How many of them are still to come, at least 1.
        left: u32,
        /// Whether this fragment is the last of its record.
        last: bool,
    },
    /// A stream that is given up.
    TooLong {
        /// How many bytes the record would have had with the fragment that its last header announced.
        got: u64,
    },
}
