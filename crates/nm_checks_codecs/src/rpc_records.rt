//! Records of RPC (RFC 5531, 11).
use crate::{Fault, text};
use nm_rpc::{RecordFault, Records, split_records, write_records};
use std::alloc::Global;

/// The answer to a case of records.
pub(crate) fn line(alloc: Global, words: &[&str], out: &mut String) -> Result<(), Fault> {
    match words {
        ["records", limit, steps @ ..] => run(alloc, text::short(limit)?, steps, out),
        ["halves", limit, bytes] => halves(alloc, text::short(limit)?, bytes, out),
        ["pieces", limit, bytes] => pieces(alloc, text::short(limit)?, bytes, out),
        ["message", bytes] => message(alloc, bytes, out),
        _ => Err(Fault::NoCase),
    }
}

// `records LIMIT STEP ..`: what comes of each step. HEX feeds these bytes, `next` gives a record, and `all` those that wait.
fn run(alloc: Global, limit: u32, steps: &[&str], out: &mut String) -> Result<(), Fault> {
    let mut records = Records::new(alloc, limit);
    for (index, word) in steps.iter().enumerate() {
        if index > 0 {
            out.push_str("; ")?;
        }
        step(alloc, &mut records, word, out)?;
    }
    Ok(())
}

fn step(alloc: Global, records: &mut Records, word: &str, out: &mut String) -> Result<(), Fault> {
    match word {
        "next" => put_next(records, out),
        "all" => put_all(records, out),
        _ => feed_word(alloc, records, word, out),
    }
}

fn feed_word(
    alloc: Global,
    records: &mut Records,
    word: &str,
    out: &mut String,
) -> Result<(), Fault> {
    let piece = text::bytes_of(alloc, word)?;
    feed(records, &piece, out)
}

fn put_next(records: &mut Records, out: &mut String) -> Result<(), Fault> {
    match records.next() {
        Some(record) => text::put_bytes(out, &record),
        None => Ok(out.push_str("none")?),
    }
}

// The most records that are told.
const MOST: usize = 1_000_000;

// The records that wait, until there is none.
fn put_all(records: &mut Records, out: &mut String) -> Result<(), Fault> {
    out.push('[')?;
    for index in 0..MOST {
        let Some(record) = records.next() else {
            break;
        };
        if index > 0 {
            out.push(' ')?;
        }
        text::put_bytes(out, &record)?;
    }
    out.push(']')?;
    Ok(())
}

// Feeds a piece, and where there was no memory for it once more, as if it had never been fed.
fn fed(records: &mut Records, piece: &[u8]) -> Result<Result<(), RecordFault>, Fault> {
    let answer = match records.feed(piece) {
        Err(RecordFault::Memory) => records.feed(piece),
        answer => answer,
    };
    match answer {
        Err(RecordFault::Memory) => Err(Fault::Memory),
        answer => Ok(answer),
    }
}

fn feed(records: &mut Records, piece: &[u8], out: &mut String) -> Result<(), Fault> {
    match fed(records, piece)? {
        Ok(()) => Ok(out.push_str("fed")?),
        Err(fault) => Ok(write!(out, "fault {fault:?}")?),
    }
}

// `halves LIMIT HEX`: for each place of the stream the records of the bytes before it, and those of these bytes and the rest.
fn halves(alloc: Global, limit: u32, word: &str, out: &mut String) -> Result<(), Fault> {
    let stream = text::bytes_of(alloc, word)?;
    put_halves(alloc, limit, &stream, out)
}

fn put_halves(alloc: Global, limit: u32, stream: &[u8], out: &mut String) -> Result<(), Fault> {
    let mut last = String::new(alloc);
    for place in 0..=stream.len() {
        let told = told_of_halves(alloc, limit, stream, place)?;
        text::put_change(place, told, &mut last, out)?;
    }
    Ok(())
}

fn told_of_halves(alloc: Global, limit: u32, stream: &[u8], place: usize) -> Result<String, Fault> {
    let mut told = String::new(alloc);
    put_half(alloc, limit, stream, place, &mut told)?;
    Ok(told)
}

fn put_half(
    alloc: Global,
    limit: u32,
    stream: &[u8],
    place: usize,
    out: &mut String,
) -> Result<(), Fault> {
    let (Some(front), Some(rest)) = (stream.get(..place), stream.get(place..)) else {
        return Err(Fault::NoCase);
    };
    feed_pieces(alloc, limit, &[front], out)?;
    out.push_str(" then ")?;
    feed_pieces(alloc, limit, &[front, rest], out)
}

// What comes of these pieces, one after the other.
fn feed_pieces(alloc: Global, limit: u32, pieces: &[&[u8]], out: &mut String) -> Result<(), Fault> {
    let mut records = Records::new(alloc, limit);
    for piece in pieces {
        feed(&mut records, piece, out)?;
        out.push(' ')?;
    }
    put_all(&mut records, out)
}

// `pieces LIMIT HEX`: for each size the records of the stream in pieces of that size, fed and split.
fn pieces(alloc: Global, limit: u32, word: &str, out: &mut String) -> Result<(), Fault> {
    let stream = text::bytes_of(alloc, word)?;
    put_pieces(alloc, limit, &stream, out)
}

fn put_pieces(alloc: Global, limit: u32, stream: &[u8], out: &mut String) -> Result<(), Fault> {
    let mut last = String::new(alloc);
    for size in 1..=stream.len() {
        let told = told_of_pieces(alloc, limit, stream, size)?;
        text::put_change(size, told, &mut last, out)?;
    }
    Ok(())
}

fn told_of_pieces(alloc: Global, limit: u32, stream: &[u8], size: usize) -> Result<String, Fault> {
    let mut told = String::new(alloc);
    feed_sized(alloc, limit, stream, size, &mut told)?;
    told.push_str(" split ")?;
    split(alloc, limit, stream, size, &mut told)?;
    Ok(told)
}

// The records of a stream that is fed in pieces of this size, up to the first that is refused.
fn feed_sized(
    alloc: Global,
    limit: u32,
    stream: &[u8],
    size: usize,
    out: &mut String,
) -> Result<(), Fault> {
    let mut records = Records::new(alloc, limit);
    for piece in stream.chunks(size.max(1)) {
        if let Err(fault) = fed(&mut records, piece)? {
            write!(out, "fault {fault:?} ")?;
            break;
        }
    }
    put_all(&mut records, out)
}

fn split(
    alloc: Global,
    limit: u32,
    stream: &[u8],
    size: usize,
    out: &mut String,
) -> Result<(), Fault> {
    let pieces = in_pieces(alloc, stream, size)?;
    put_split(split_records(alloc, limit, &pieces), out)
}

// The stream in pieces of this size.
fn in_pieces(alloc: Global, stream: &[u8], size: usize) -> Result<Vec<Vec<u8>>, Fault> {
    let mut pieces = Vec::new(alloc);
    for piece in stream.chunks(size.max(1)) {
        pieces.push(piece.to_vec(alloc)?)?;
    }
    Ok(pieces)
}

fn put_split(records: Result<Vec<Vec<u8>>, RecordFault>, out: &mut String) -> Result<(), Fault> {
    match records {
        Ok(records) => put_records(&records, out),
        Err(RecordFault::Memory) => Err(Fault::Memory),
        Err(fault) => Ok(write!(out, "fault {fault:?}")?),
    }
}

fn put_records(records: &[Vec<u8>], out: &mut String) -> Result<(), Fault> {
    out.push('[')?;
    for (index, record) in records.iter().enumerate() {
        if index > 0 {
            out.push(' ')?;
        }
        text::put_bytes(out, record)?;
    }
    Ok(out.push(']')?)
}

// `message HEX`: the record that is written of a message, and what is read of it.
fn message(alloc: Global, word: &str, out: &mut String) -> Result<(), Fault> {
    let bytes = text::bytes_of(alloc, word)?;
    if bytes.len() >= 0x8000_0000 {
        return Err(Fault::NoCase);
    }
    let record = write_records(alloc, &bytes)?;
    put_record(alloc, bytes.len() as u32, &record, out)
}

// A record, and what is read of it.
fn put_record(alloc: Global, limit: u32, record: &[u8], out: &mut String) -> Result<(), Fault> {
    text::put_bytes(out, record)?;
    out.push(' ')?;
    feed_pieces(alloc, limit, &[record], out)
}
