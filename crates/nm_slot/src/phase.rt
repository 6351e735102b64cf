//! What a server does with a file system.
use nm_types::{Epoch, MoveNum, ServerNum};

/// What a server does with a file system.
///
/// ```text
///            begin             freeze            commit
///  Serving --------> Closing --------> Frozen ----------> Gone
///   ^  ^                |                |
///   |  '----------------'----------------'
///   |           abandon
///   |
///   |   install                     accept
///   '------------- Incoming <----------------- Never, Gone
///                      |                          ^
///                      '--------------------------'
///                                withdraw
/// ```
#[derive(Clone, Copy, Debug)]
pub enum Phase {
    /// It never had the file system.
    Never,
    /// It serves it.
    Serving,
    /// It lets the calls end that are under way, and no new one begins: the move of that number, to that server, waits
    /// for them.
    Closing { dest: ServerNum, number: MoveNum },
    /// No call is under way, and the state is on offer to that server by the move of that number.
    Frozen { dest: ServerNum, number: MoveNum },
    /// It has handed the file system to that server. The epoch is the latest one in which it served it.
    Gone { dest: ServerNum, epoch: Epoch },
    /// It holds the offer of the move of that number, which begins that epoch.
    Incoming { epoch: Epoch, number: MoveNum },
}
