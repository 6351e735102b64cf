//! Cases of what makes up a file system's state, and of a file system at a server: the program reads lines from standard input
//! and prints one line for each, what comes of it. docs/FORMATS.md has the lines. Nothing stands on this crate.
#![tactic(auto)]

mod deeds;
mod fault;
mod journals;
mod leases;
mod named;
mod owners;
mod places;
mod ranges;
mod replies;
mod rolls;
mod said;
mod shares;
mod slots;
mod states;
mod text;
mod trees;
mod words;

use fault::Fault;
use nm_types::Memory;
use owners::Known;
use ranges::Locks;
use shares::Opens;
use slots::Slots;
use states::States;
use std::alloc::Global;
use std::io::{self, Read, Write};
use text::{append, append_number};
use trees::Trees;
use words::{chosen, parts};

// What a line is about.
#[derive(Clone, Copy)]
enum About {
    State,
    Tree,
    Shares,
    Ranges,
    Owners,
    Slots,
}

const ABOUT: [(&str, About); 17] = [
    ("fs", About::State),
    ("ask", About::State),
    ("moved", About::State),
    ("end", About::State),
    ("gone", About::State),
    ("show", About::State),
    ("holders", About::State),
    ("holder", About::State),
    ("has", About::State),
    ("tree", About::Tree),
    ("shares", About::Shares),
    ("ranges", About::Ranges),
    ("owners", About::Owners),
    ("slot", About::Slots),
    ("image", About::Slots),
    ("roll", About::Slots),
    ("journal", About::Slots),
];

/// What the lines so far have left.
#[derive(Drop)]
struct World {
    states: States,
    trees: Trees,
    opens: Opens,
    locks: Locks,
    known: Known,
    slots: Slots,
}

impl World {
    fn new(alloc: Global) -> Result<World, Memory> {
        Ok(World {
            states: States::new(alloc)?,
            trees: Trees::new(alloc)?,
            opens: Opens::new(alloc)?,
            locks: Locks::new(alloc),
            known: Known::new(alloc),
            slots: Slots::new(alloc)?,
        })
    }

    // What comes of a case, by its first word.
    fn case(&mut self, words: &[&[u8]], out: &mut Vec<u8>) -> Result<(), Fault> {
        let [first, rest @ ..] = words else {
            return Err(Fault::Word);
        };
        match chosen(&ABOUT, first)? {
            About::State => self.states.line(words, out),
            About::Tree => self.trees.line(rest, out),
            About::Shares => self.opens.line(rest, out),
            About::Ranges => self.locks.line(rest, out),
            About::Owners => self.known.line(rest, out),
            About::Slots => self.slots.line(words, out),
        }
    }

    // What comes of a line. One that says nothing is printed as it is.
    fn line(&mut self, line: &[u8], out: &mut Vec<u8>) -> Result<(), Fault> {
        if says_nothing(line) {
            return Ok(append(out, line)?);
        }
        let words = parts(*out.allocator(), line, b' ')?;
        self.case(&words, out)
    }
}

// Whether a line is empty or a comment.
fn says_nothing(line: &[u8]) -> bool {
    match line {
        [] => true,
        [first, ..] => *first == b'#',
    }
}

// Prints what comes of a line, or what is wrong with it.
fn answer(world: &mut World, number: u64, line: &[u8], out: &mut Vec<u8>) -> Result<(), Memory> {
    let before = out.len();
    if let Err(fault) = world.line(line, out) {
        out.truncate(before);
        refuse(number, fault, out)?;
    }
    Ok(out.push(b'\n')?)
}

fn refuse(number: u64, fault: Fault, out: &mut Vec<u8>) -> Result<(), Memory> {
    out.extend_from_slice(b"line ")?;
    append_number(out, number)?;
    out.extend_from_slice(b": ")?;
    Ok(out.extend_from_slice(fault.text())?)
}

// Prints what comes of each line.
fn answer_lines(world: &mut World, lines: &[&[u8]], out: &mut Vec<u8>) -> Result<(), Memory> {
    let mut number = 0u64;
    for line in lines {
        number = number.saturating_add(1);
        answer(world, number, line, out)?;
    }
    Ok(())
}

fn answer_all(alloc: Global, lines: &[&[u8]], out: &mut Vec<u8>) -> Result<(), Memory> {
    let mut world = World::new(alloc)?;
    answer_lines(&mut world, lines, out)
}

fn answer_text(text: &[u8], out: &mut Vec<u8>) -> Result<(), Memory> {
    let alloc = *out.allocator();
    let lines = parts(alloc, text, b'\n')?;
    answer_all(alloc, &lines, out)
}

// All that comes in, without the last line's end: it begins no other line.
fn read_text(rt: &(impl Input + AllocGlobal)) -> io::Result<Vec<u8>> {
    let mut text = Vec::new(rt.alloc());
    rt.reader().read_to_end(&mut text)?;
    if text.last() == Some(&b'\n') {
        text.pop();
    }
    Ok(text)
}

fn write_answers(rt: &(impl Print + AllocGlobal), text: &[u8]) -> io::Result<()> {
    let mut out = Vec::new(rt.alloc());
    match answer_text(text, &mut out) {
        Ok(()) => io::writer(rt).write_all(&out),
        Err(Memory) => Err(io::ErrorKind::OutOfMemory.into()),
    }
}

fn main(rt: HostRuntime) -> io::Result<()> {
    let text = read_text(&rt)?;
    write_answers(&rt, &text)
}
