//! The leases of clients, as a server's roll tells of them to its file systems (RFC 7530, 9.5 and 9.6).
use crate::{Era, Instance};

/// When its server's roll was asked, the lease of this client stood, in this era of its record there.
#[derive(Clone, Copy)]
pub struct LeasePass {
    pub instance: Instance,
    /// A later record of the client at that server has a greater era.
    pub era: Era,
}

/// Why a client's state at a server ended.
#[derive(Clone, Copy)]
pub enum EndCause {
    /// Its lease was not renewed in time (RFC 7530, 9.6.3). Both are moments of the server's clock.
    Lapse {
        /// The last moment at which the lease stood.
        deadline: u64,
        /// When that was seen.
        now: u64,
    },
    /// The client has started again (RFC 7530, 9.1.1). Both are verifiers.
    Restart {
        /// That of the start which has ended.
        from: u64,
        /// That of the new one.
        to: u64,
    },
}

/// The state of this client, in this era of its record at a server, has ended there.
#[derive(Clone, Copy)]
pub struct Ended {
    pub instance: Instance,
    pub era: Era,
    pub why: EndCause,
}
