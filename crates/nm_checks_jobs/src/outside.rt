//! Texts that are read from sources and written to sinks in memory, a piece at a time, with calls that fail.
use crate::text::{number, say, say_number};
use nm_script::{MemorySink, MemorySource, ReadAllFault, Source, read_all, write_all};
use nm_types::Memory;

// The numbers from a place on.
fn behind(list: &[u64], at: usize) -> &[u64] {
    match list.get(at..) {
        Some(rest) => rest,
        None => &[],
    }
}

// How often an object failed, and a text.
fn say_came(out: &mut Vec<u8>, faults: u64, text: &[u8]) -> Result<(), Memory> {
    say(out, b"faults")?;
    say_number(out, faults)?;
    say(out, b": ")?;
    say(out, text)?;
    say(out, b"|\n")
}

fn say_all(out: &mut Vec<u8>, source: &mut MemorySource, most: usize) -> Result<(), Memory> {
    match read_all(*out.allocator(), source, most) {
        Ok(text) => say_came(out, source.faults(), &text),
        Err(ReadAllFault::Failed) => say_came(out, source.faults(), b"failed"),
        Err(ReadAllFault::Memory) => Err(Memory),
    }
}

/// `source MOST PIECE [FAILING ..]`: reads all, and one byte more than MOST at most.
pub(crate) fn read_all_of(out: &mut Vec<u8>, text: &[u8], list: &[u64]) -> Result<(), Memory> {
    let piece = number(list, 1) as usize;
    let mut source = MemorySource::new(*out.allocator(), text, piece, behind(list, 2))?;
    say_all(out, &mut source, number(list, 0) as usize)
}

// How many bytes come for each of these rooms, of 16 bytes at most.
fn say_reads(out: &mut Vec<u8>, source: &mut MemorySource, rooms: &[u64]) -> Result<(), Memory> {
    let mut buffer = [0; 16];
    for room in rooms {
        let (front, _) = buffer.split_at_mut((*room).min(16) as usize);
        match source.read(front) {
            Ok(count) => say_number(out, count as u64)?,
            Err(_) => say(out, b" failed")?,
        }
    }
    say(out, b"\n")
}

/// `reads PIECE FAILING ROOM ..`
pub(crate) fn read_rooms(out: &mut Vec<u8>, text: &[u8], list: &[u64]) -> Result<(), Memory> {
    let piece = number(list, 0) as usize;
    let mut source = MemorySource::new(*out.allocator(), text, piece, &[number(list, 1)])?;
    say(out, b"came:")?;
    say_reads(out, &mut source, behind(list, 2))
}

fn say_written(out: &mut Vec<u8>, sink: &mut MemorySink, text: &[u8]) -> Result<(), Memory> {
    if write_all(sink, text).is_err() {
        say(out, b"failed, ")?;
    }
    say_came(out, sink.faults(), sink.held())
}

/// `sink PIECE [FAILING ..]`
pub(crate) fn write_all_of(out: &mut Vec<u8>, text: &[u8], list: &[u64]) -> Result<(), Memory> {
    let piece = number(list, 0) as usize;
    let mut sink = MemorySink::new(*out.allocator(), piece, behind(list, 1))?;
    say_written(out, &mut sink, text)
}
