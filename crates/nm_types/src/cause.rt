//! Why a server refuses a file system that another one offers it.
use crate::MoveNum;

/// Why the offer of a move is refused.
#[derive(Clone, Copy, Debug)]
pub enum Cause {
    /// The bytes are no image: the place in them, from 0, of the first item that can't be read or breaks a rule.
    BadImage { at: u64 },
    /// A move of that number or a later one is known already; this is the latest.
    Old { known: MoveNum },
    /// The server has the file system itself.
    Live,
    /// A client of the image is known with another verifier: the one here, and the one there, in the image.
    Differs { here: u64, there: u64 },
    /// There is no room for the clients of the image.
    Full,
    /// There is no offer of that number.
    Absent,
}
