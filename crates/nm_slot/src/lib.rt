//! A file system at one server: what this server does with it, and the steps by which it moves to another one
//! (Transparent State Migration, RFC 7931).
#![tactic(auto)]

mod answers;
mod destination;
mod door;
mod eras;
mod image;
mod laws;
mod pass;
mod phase;
mod slot;
mod source;
mod stage;
mod sweeps;

pub use answers::{Abandon, Accept, Answer, Begin, Commit, Enter, Freeze, Install, Swept};
pub use image::Image;
pub use laws::{
    a_move_gets_on, calls_are_of_eras_that_stand, entries_stay_legal, nothing_is_lost, one_holder,
    one_server_serves, slots_follow_the_phase, some_answers_never_come, the_door_is_accounted_for,
};
pub use pass::FsPass;
pub use phase::Phase;
pub use slot::Slot;
