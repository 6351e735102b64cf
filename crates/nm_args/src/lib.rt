//! The arguments of COMPOUND (RFC 7530, 15.2; RFC 7531), read and written: every operation of NFSv4.0.
//!
//! [`read_compound`] answers a compound exactly where bytes are its arguments: the operations that can be read, and how they
//! end. A number that no operation has and arguments that can't be read are ends, since what stands before them is carried
//! out; what can't be told apart from other bytes is garbage, at its place. What [`write_compound`] writes is read again as
//! what was written.
//!
//! [`write_deed`] and [`read_deed`] are for the calls that owners of opens and of locks keep, as an image of a file system has
//! them: one operation with its arguments, in which every clientid is 0.
//!
//! `specs/Operations` is the table of operations: their numbers, and how the arguments of each are read and spelled, by the
//! layouts of `specs/Opens`, `Locks`, `Data`, `Names` and `Clients`. `specs/Compounds` says what is read of any bytes, and
//! what a compound is apart from how it is read. `specs/Deeds` has the layout of kept calls.
#![tactic(auto)]

mod clients;
mod compound;
mod data;
mod deeds;
mod laws;
mod locks;
mod names;
mod op;
mod opens;
mod operations;
mod ops;
mod parts;
mod reading;
mod writing;

pub use compound::{ArgsFault, Compound, CompoundEnd};
pub use deeds::{read_deed, write_deed};
pub use laws::{
    arguments_are_read_as_spelled, clean_compounds_can_be_written, compounds_are_read_as_spelled,
    compounds_are_read_as_written, kept_calls_are_read_as_written,
};
pub use op::{
    Op, OpCode, OwnedLock, OwnedLockTest, OwnedLocker, OwnedOpen, OwnedRelease, RenameArgs,
    SetClientIdArgs, SetClientIdConfirmArgs,
};
pub use ops::Ops;
pub use reading::read_compound;
pub use writing::{put_compound, write_compound};
