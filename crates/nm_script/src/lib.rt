//! The script that the program runs, the text that it prints, and the outside that it reads from and writes to.
#![tactic(auto)]

mod draft;
mod fault;
mod lock_text;
mod memory;
mod move_text;
mod names;
mod order;
mod outcome_text;
mod outside;
mod read;
mod report;
mod run;
mod script;
mod table_text;
mod text;
mod words;
mod writing;

pub use memory::{MemorySink, MemorySource};
pub use outside::{Failed, ReadAllFault, Sink, Source, read_all, write_all};
pub use read::read_script;
pub use report::{
    HeldReport, IdleRow, MoveNames, MoveRow, MoveTold, Names, OutcomeRow, PhaseNow, PhaseReport,
    Report, ReportRow, Told,
};
pub use script::{
    ClientRow, ClientRows, FsRow, FsRows, Head, Line, Lines, Script, ScriptFault, ServerRow,
    ServerRows, Why,
};
pub use text::{append_line_text, fault_text, held_text, line_text, usage_text};
