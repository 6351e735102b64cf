//! The run of a script without messages between client and server: each call reaches a server at once, and its reply the
//! client. What the servers of a move send one another waits for the lines that deliver it.
//!
//! The layer above may rely on `text_of_run`: its text is that of the run over each file system's list of steps.
#![tactic(auto)]

mod asks;
mod clients;
mod files;
mod laws;
mod locking;
mod names;
mod orders;
mod releases;
mod run;
mod sends;
mod slots;

pub use laws::one_server_has_each_file_system;
pub use run::{Run, text_of_run};
