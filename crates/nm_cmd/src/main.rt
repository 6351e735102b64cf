//! The program `nfsmove`: `nfsmove replay` reads a script from standard input and writes what comes of it to standard
//! output.
#![tactic(auto)]

mod replay;
mod standard;
mod status;

use nm_types::Memory;
pub use replay::{Answer, replay};
use standard::{StandardInput, StandardOutput};
pub use status::Status;
use std::alloc::Global;
use std::process::ExitCode;
use std::rt::Env;
use std::{env, io};

// The words after the program's name. Words that aren't text are none that the program knows.
fn words_of<R: Env + AllocGlobal>(rt: &R, alloc: Global) -> Result<Vec<String>, Memory> {
    match env::args(rt) {
        Ok(args) => {
            let mut words = Vec::new(alloc);
            for word in args.skip(1) {
                words.push(word)?;
            }
            Ok(words)
        }
        Err(fault) if fault.kind() == io::ErrorKind::OutOfMemory => Err(Memory),
        Err(_) => Ok(Vec::new(alloc)),
    }
}

fn main(rt: HostRuntime) -> ExitCode {
    let status = match words_of(&rt, rt.alloc()) {
        Ok(words) => {
            let mut source = StandardInput::new(rt.reader());
            let mut sink = StandardOutput::new(io::writer(&rt));
            replay(rt.alloc(), &words, &mut source, &mut sink)
        }
        Err(Memory) => Status::Memory,
    };
    ExitCode::from(status.number())
}
