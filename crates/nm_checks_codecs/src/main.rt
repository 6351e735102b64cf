//! Cases for the codecs, and for the names and numbers below them: each line of standard input is a case, and the same line
//! of standard output tells what came of it. docs/FORMATS.md has the lines, in "Cases of the tests".
#![tactic(auto)]

mod args;
mod attrs;
mod callback;
mod case;
mod cuts;
mod fault;
mod input;
mod kept;
mod ones;
mod result_places;
mod results;
mod rpc_messages;
mod rpc_names;
mod rpc_records;
mod rules;
mod text;
mod xdr;

use fault::Fault;
use std::io;
use std::io::Write;
use std::process::ExitCode;

fn main(rt: HostRuntime) -> io::Result<ExitCode> {
    let text = io::read_to_string(rt.alloc(), rt.reader())?;
    let mut told = String::new(rt.alloc());
    let faults = input::answers(rt.alloc(), text.as_str(), &mut told)?;
    io::writer(&rt).write_all(told.as_bytes())?;
    Ok(ExitCode::from(u8::from(faults)))
}
