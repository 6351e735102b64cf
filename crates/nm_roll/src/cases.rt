//! The cases of the tables by which clients make themselves known and are reserved.
use nm_types::{Instance, MoveNum};

/// What SETCLIENTID is (RFC 7530, 16.33.5).
#[derive(Clone, Copy)]
pub enum SetCase {
    /// The string is another principal's.
    OfOther,
    /// This start of the client is known, with that clientid.
    Known(u64),
    /// There is no room for what is new.
    NoRoom,
    /// This start of the client is new.
    New,
}

/// What SETCLIENTID_CONFIRM is (RFC 7530, 16.34.5).
#[derive(Clone, Copy)]
pub enum ConfirmCase {
    /// The pair was given to another principal.
    Refused,
    /// The record that waits has the clientid of the confirmed one.
    Renews,
    /// The record that waits has another clientid.
    Begins,
    /// The pair is the last one of the confirmed record.
    Repeats,
    /// It is neither.
    NoPair,
}

/// What becomes of the record of an instance that is to be reserved.
#[derive(Clone, Copy)]
pub enum RecordCase {
    /// It has one whose lease stands.
    Stands,
    /// Another start of the client has one: this one.
    Differs(Instance),
    /// There is no room for a new one.
    Crowded,
    /// It is made with the clientid of one that waits.
    Waits(u64),
    /// It is made with a new clientid.
    Made,
}

/// What an earlier reservation of a file system makes of a new one.
#[derive(Clone, Copy)]
pub enum ReserveCase {
    /// The earlier one has this number, a greater one.
    Outdated(MoveNum),
    /// It has the same number.
    Again,
    /// It has a lower one, or there is none.
    Begun,
}
