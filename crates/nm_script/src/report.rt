//! What came of a line, with texts for names: the rows that it prints.
use nm_types::{Bytes, Cause, Denied, HeldTable, Items, MoveNum, OpStatus, ReadOk, Verb};

/// Names of files and directories.
pub type Names = Items<Bytes>;

/// What a client was told of an action.
#[derive(Drop)]
pub enum Told {
    /// The status of the operation that decided: `STATUS`.
    Answered(OpStatus),
    /// So many bytes were written: `OK COUNT`.
    Wrote(u32),
    /// What was read, in hexadecimal digits or `-` for no bytes, and whether the file ends there: `OK HEX eof` or `OK HEX more`.
    Read(ReadOk),
    /// The names in a directory: `OK` and each of them, or `OK` alone.
    Listed(Names),
    /// What is in the way of a lock: `DENIED OWNER KIND OFFSET LENGTH`.
    Denied(Denied),
    /// The status of another operation of the request, which failed: `REFUSED STATUS`.
    Refused(OpStatus),
    /// The action needs a stateid that the client hasn't; nothing was sent: `NOSTATE`.
    NoState,
    /// The client has an action in hand already; nothing was sent: `BUSY`.
    Busy,
    /// The file system is on its way; the action stays in hand: `DELAY`.
    Delayed,
    /// As many requests were made as one line may make; the action stays in hand: `STOPPED`.
    Stopped,
}

/// The outcome of a client's action: the line `C VERB TOLD`.
#[derive(Drop)]
pub struct OutcomeRow {
    /// The client's name.
    pub client: Bytes,
    pub verb: Verb,
    pub told: Told,
}

/// A client that had nothing in hand to go on with: the line `C idle`.
#[derive(Drop)]
pub struct IdleRow {
    /// The client's name.
    pub client: Bytes,
}

/// A move, with the names of its servers.
#[derive(Drop)]
pub struct MoveNames {
    /// The server that the file system leaves.
    pub source: Bytes,
    /// The server that it goes to.
    pub dest: Bytes,
    pub number: MoveNum,
}

/// Who has a file system, with the names of servers.
#[derive(Drop)]
pub enum PhaseNow {
    /// This server serves it: `F at S`.
    At(Bytes),
    /// A move has begun: the source serves the requests that it has in hand, and no others: `F closing S D move N`.
    Closing(MoveNames),
    /// The source has none in hand any more, and offers the file system: `F frozen S D move N`.
    Frozen(MoveNames),
    /// The source has given it away, and the destination doesn't serve it yet: `F passing S D move N`.
    Passing(MoveNames),
}

/// Who has a file system: its phase line.
#[derive(Drop)]
pub struct PhaseReport {
    /// The file system's name.
    pub file_system: Bytes,
    pub phase: PhaseNow,
}

/// What is held in a file system: its phase line and the lines of its table.
#[derive(Drop)]
pub struct HeldReport {
    /// The file system's name.
    pub file_system: Bytes,
    pub phase: PhaseNow,
    pub table: HeldTable,
}

/// What came of a line that moves a file system, where that isn't a phase line.
#[derive(Drop)]
pub enum MoveTold {
    /// The source has given it away already: `F notserved`.
    NotServed,
    /// The move of this number is under way: `F busy N`.
    Busy(MoveNum),
    /// The server that it is to go to has it: `F same`.
    Same,
    /// There is no further number for a move of it: `F last`.
    Last,
    /// The source still has so many requests in hand: `F waiting N`.
    Waiting(u64),
    /// There is no move to freeze or to give up: `F idle`.
    Idle,
    /// The move is given up, and this server serves it again: `F back S`.
    Back(Bytes),
    /// This server, the source, has given it away already: `F late S`.
    Late(Bytes),
    /// The destination refused the offer: `F refused CAUSE`.
    Refused(Cause),
}

/// What came of a line that moves a file system: the line `F TOLD`.
#[derive(Drop)]
pub struct MoveRow {
    /// The file system's name.
    pub file_system: Bytes,
    pub told: MoveTold,
}

/// One row of a report.
#[derive(Drop)]
pub enum ReportRow {
    Outcome(OutcomeRow),
    Idle(IdleRow),
    Held(HeldReport),
    Phase(PhaseReport),
    Move(MoveRow),
    /// There is nothing to deliver: the line `no packet`.
    NoPacket,
}

/// What one line of a script prints, row by row.
pub type Report = Items<ReportRow>;
