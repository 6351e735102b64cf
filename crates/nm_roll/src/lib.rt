//! The roll of a server: its clients, the leases that stand between them and the server, and the moves that concern them
//! (RFC 7530, 9.1.1, 9.5, 9.6, 16.33 and 16.34; RFC 7931).
//!
//! A client names itself by a string. Of each string the roll has at most one confirmed record and one that waits to be
//! confirmed. A confirmed record has a lease, which every operation of the client renews. A lease that wasn't renewed in time
//! lapses when `expire` is asked, and not before.
#![tactic(auto)]

mod answers;
mod cases;
mod clients;
mod giving;
mod laws;
mod leases;
mod moves;
mod records;
mod reserving;
mod roll;
mod rows;
mod told;

pub use answers::{CallbackPath, ConfirmAnswer, Reserve, SetAnswer, Touch};
pub use laws::reserved_leases_stand;
pub use records::{ClientString, Confirmed, Reservation, StringRow, Unconfirmed};
pub use roll::Roll;
