//! What the calls on a slot answer.
use crate::FsPass;
use nm_types::{Epoch, Era, Instance, MoveNum, Reply, ServerNum};

/// What the door of a file system answers to one who wants to call.
#[derive(Drop)]
pub enum Enter {
    /// It is served: with this pass calls may be made.
    Entered(FsPass),
    /// It is served, and as many passes are out as there may be.
    Full { passes: u64 },
    /// It is on its way: try again later (NFS4ERR_DELAY).
    Delay,
    /// It is at that server now (NFS4ERR_MOVED).
    Moved { dest: ServerNum },
    /// It was never here.
    Unknown,
}

/// What came of a call.
#[derive(Drop)]
pub enum Answer {
    /// It is the entry of that place, from 1 on over all epochs, with that reply.
    Done {
        place: u64,
        reply: Reply,
    },
    /// The lease is of an earlier era of its instance than that one, which is the latest that was seen here, or of that one, and it
    /// has ended.
    Ended {
        era: Era,
    },
    /// The pass is of another epoch than the slot, or the state isn't here for calls.
    Strayed {
        pass_epoch: Epoch,
        slot_epoch: Epoch,
    },
    /// There is no room for a further entry.
    Last {
        count: u64,
    },
}

/// What came of the end of an instance's era.
#[derive(Clone, Copy, Debug)]
pub enum Swept {
    /// What the instance had here has ended.
    Ended,
    /// There was nothing to end.
    Nothing,
    /// What it has in the state that is frozen or on offer here ends where that is served here again.
    PutOff,
    /// There is no room for a further entry.
    Last,
}

/// What came of beginning a move.
#[derive(Clone, Copy, Debug)]
pub enum Begin {
    /// The move of that number is under way.
    Begun(MoveNum),
    /// The file system isn't here.
    NotServed,
    /// The move of that number is under way already.
    Busy { number: MoveNum },
    /// It is to go where it is.
    Same,
    /// A number of the file system is at its end.
    Last,
}

/// What came of freezing a file system for its move.
#[derive(Clone, Copy, Debug)]
pub enum Freeze {
    /// It is frozen for the move of that number.
    Frozen(MoveNum),
    /// So many passes are still out.
    Waiting { passes: u64 },
    /// No move is under way here.
    Idle,
}

/// What came of handing the file system over.
#[derive(Drop)]
pub enum Commit {
    /// It is gone: the instances that hold something in it, in order of string, verifier, flavor and uid.
    Committed(Vec<Instance>),
    /// It went by this move before.
    Again,
    /// This move doesn't go on. The greatest number that is known here is that one.
    Dead { current: MoveNum },
}

/// What came of giving a move up.
#[derive(Clone, Copy, Debug)]
pub enum Abandon {
    /// The file system is served here again; that move is over.
    Back(MoveNum),
    /// It has been handed over.
    Late,
    /// No move is under way here.
    Idle,
}

/// What came of an offer.
#[derive(Clone, Copy, Debug)]
pub enum Accept {
    /// It is held.
    Held,
    /// A move of that number, which isn't lower, is known here.
    Old { known: MoveNum },
    /// The file system itself is here.
    Live,
}

/// What came of installing an offer.
#[derive(Clone, Copy, Debug)]
pub enum Install {
    /// The file system is served here.
    Now,
    /// It was installed before.
    Already,
    /// This offer isn't held.
    Absent,
}
