//! Texts that are read as scripts, printed and run.
ghost use Rattle.std.specs.Prelude.{◌≤◌, length};
ghost use Rattle.nm_script.specs.Grammar.{IsWellFormed};

use crate::lines::say_script;
use crate::text::{say, say_number};
use nm_script::{Script, ScriptFault, fault_text, read_script};
use nm_short::{Run, text_of_run};
use nm_slot::Phase;
use nm_types::{FsNum, Memory, ServerNum};

// A phase that has two numbers.
fn say_two(out: &mut Vec<u8>, word: &[u8], first: u64, second: u64) -> Result<(), Memory> {
    say(out, word)?;
    say_number(out, first)?;
    say_number(out, second)
}

fn say_phase(out: &mut Vec<u8>, phase: Phase) -> Result<(), Memory> {
    match phase {
        Phase::Never => say(out, b" never"),
        Phase::Serving => say(out, b" serving"),
        Phase::Closing { dest, number } => {
            say_two(out, b" closing", dest.number() as u64, number.number())
        }
        Phase::Frozen { dest, number } => {
            say_two(out, b" frozen", dest.number() as u64, number.number())
        }
        Phase::Gone { dest, epoch } => {
            say_two(out, b" gone", dest.number() as u64, epoch.number())
        }
        Phase::Incoming { epoch, number } => {
            say_two(out, b" incoming", epoch.number(), number.number())
        }
    }
}

// What the first servers do with a file system, between bars.
fn say_phases(out: &mut Vec<u8>, run: &Run, fs: FsNum, servers: u32) -> Result<(), Memory> {
    say(out, b"|")?;
    for number in 0..servers {
        if let Some(server) = ServerNum::new(number) {
            match run.phase_at(fs, server) {
                Some(phase) => say_phase(out, phase)?,
                None => say(out, b" none")?,
            }
            say(out, b" |")?;
        }
    }
    say(out, b"\n")
}

// The same of the first file system behind each line.
#[tactic(auto, using(nm_short::proofs::FileFirst::clients_are_short))]
fn run_lines(out: &mut Vec<u8>, script: &Script) -> Result<(), Memory>
    requires formed { IsWellFormed script.now }
    requires few { length script.now.head.file_systems ≤ 64 }
{
    let Some(fs) = FsNum::new(0) else {
        return Ok(());
    };
    let servers = script.head.servers.items().len().min(16) as u32;
    let mut run = Run::new(*out.allocator(), &script.head)?;
    for line in script.lines.items() {
        run.line(&script.head, line)?;
        say_phases(out, &run, fs, servers)?;
    }
    Ok(())
}

fn answer_read(out: &mut Vec<u8>, command: &str, script: &Script) -> Result<(), Memory>
    requires formed { IsWellFormed script.now }
    requires few { length script.now.head.file_systems ≤ 64 }
{
    match command {
        "run" => say(out, &text_of_run(*out.allocator(), script)?),
        "print" => say_script(out, script),
        "phases" => run_lines(out, script),
        _ => say(out, b"a script\n"),
    }
}

/// What a command makes of a text, or why that is no script.
pub(crate) fn answer_script(out: &mut Vec<u8>, command: &str, text: &[u8]) -> Result<(), Memory> {
    let alloc = *out.allocator();
    match read_script(alloc, text) {
        Ok(script) => answer_read(out, command, &script),
        Err(ScriptFault::At { line, why }) => say(out, &fault_text(alloc, line, why)?),
        Err(ScriptFault::Memory) => Err(Memory),
    }
}
