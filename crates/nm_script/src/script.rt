//! A script: a head that names servers, file systems and clients, and the lines that are run.
use nm_types::{Action, Bytes, FsNum, Items, ServerNum};

/// A line `server NAME`. Servers are numbered from 0 in order.
#[derive(Drop)]
pub struct ServerRow {
    pub name: Bytes,
}

pub type ServerRows = Items<ServerRow>;

/// A line `fs NAME at SERVER`. File systems are numbered from 0 in order.
#[derive(Drop)]
pub struct FsRow {
    pub name: Bytes,
    pub at: ServerNum,
}

pub type FsRows = Items<FsRow>;

/// A line `client NAME VERIFIER`. Clients are numbered from 0 in order.
#[derive(Drop)]
pub struct ClientRow {
    pub name: Bytes,
    pub verifier: u64,
}

pub type ClientRows = Items<ClientRow>;

/// The head of a script.
#[derive(Drop)]
pub struct Head {
    /// The lease time in seconds, from 1 to 3,600.
    pub lease: u32,
    pub servers: ServerRows,
    pub file_systems: FsRows,
    pub clients: ClientRows,
}

/// A line that is run, with numbers for names.
#[derive(Drop)]
pub enum Line {
    /// `do C ACTION`: the client of that number acts.
    Do { client: u32, action: Action },
    /// `do C finish`: the client goes on with the action that it has in hand.
    Finish { client: u32 },
    /// `move F S`: a move of the file system to that server begins.
    Move { fs: FsNum, to: ServerNum },
    /// `freeze F`: the source stops serving the file system, and offers it.
    Freeze(FsNum),
    /// `abandon F`: the source gives the move up.
    Abandon(FsNum),
    /// `commit F`: the latest offer is delivered, and its answer.
    Commit(FsNum),
    /// `settle F`: the latest notice that the source has committed is delivered.
    Settle(FsNum),
    /// `shift F S`: move, freeze, commit and settle, as far as each succeeds.
    Shift { fs: FsNum, to: ServerNum },
    /// `show F`: prints what is held in a file system.
    Show(FsNum),
}

pub type Lines = Items<Line>;

/// A script: its head, and its lines in order. Comments and empty lines leave nothing.
#[derive(Drop)]
pub struct Script {
    pub head: Head,
    pub lines: Lines,
}

/// Why a line is refused. The first that holds, in this order, is the answer.
#[derive(Clone, Copy, Debug)]
pub enum Why {
    /// A line past the last one that is taken, a line of more than 4,096 bytes, or a name past the last of its kind.
    Limit,
    /// A byte outside 0x20 to 0x7e.
    Bytes,
    /// A line of the head that is missing or out of order.
    Head,
    /// A word that isn't one of the language, or another count of words.
    Word,
    /// A name that isn't of its form, isn't known, or is given twice.
    Name,
    /// A number that isn't of its form or is outside its bounds.
    Number,
}

/// Why bytes are no script.
#[derive(Clone, Copy, Debug)]
pub enum ScriptFault {
    /// The first bad line, from 1, and why it is bad.
    At { line: u64, why: Why },
    /// An allocation failed.
    Memory,
}
