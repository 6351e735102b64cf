//! Tests of scripts, of the text that is printed, of runs, and of sources and sinks, as cases on standard input. docs/FORMATS.md
//! has their language. The first line of a case is printed, and below it what came of the case. Nothing stands on this crate.
#![tactic(auto)]

mod cases;
mod lines;
mod outside;
mod rows;
mod scripts;
mod text;

use cases::answer_all;
use nm_types::Memory;
use std::alloc::AllocError;
use std::io::{self, Write};

fn main(rt: HostRuntime) -> io::Result<()> {
    let input = io::read_to_string(rt.alloc(), rt.reader())?;
    let mut out = Vec::new(rt.alloc());
    match answer_all(&mut out, input.as_str()) {
        Ok(()) => io::writer(&rt).write_all(&out),
        Err(Memory) => Err(AllocError)?,
    }
}
