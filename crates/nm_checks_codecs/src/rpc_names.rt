//! Stateids and filehandles as they stand in calls and replies.
use crate::{Fault, text};
use nm_types::{Handle, StateRef};
use std::alloc::Global;

/// The answer to a case of names.
pub(crate) fn line(alloc: Global, words: &[&str], out: &mut String) -> Result<(), Fault> {
    match words {
        ["stateid", bytes] => stateid(alloc, bytes, out),
        ["handle", bytes] => handle(alloc, bytes, out),
        _ => Err(Fault::NoCase),
    }
}

// `stateid HEX`: the stateid that is read of 16 bytes, and what is written of it.
fn stateid(alloc: Global, word: &str, out: &mut String) -> Result<(), Fault> {
    let bytes = text::bytes_of(alloc, word)?;
    put_stateid(&bytes, out)
}

fn put_stateid(bytes: &[u8], out: &mut String) -> Result<(), Fault> {
    let [
        s0,
        s1,
        s2,
        s3,
        b0,
        b1,
        b2,
        b3,
        b4,
        b5,
        b6,
        b7,
        b8,
        b9,
        b10,
        b11,
    ] = *bytes
    else {
        return Err(Fault::NoCase);
    };
    let seqid = u32::from_be_bytes([s0, s1, s2, s3]);
    let other = [b0, b1, b2, b3, b4, b5, b6, b7, b8, b9, b10, b11];
    let stateid = StateRef::read(seqid, &other);
    write!(out, "{stateid:?}")?;
    text::put_again(out, bytes, &stateid.wire())
}

// `handle HEX`: the file that is named by these bytes, and what is written of it.
fn handle(alloc: Global, word: &str, out: &mut String) -> Result<(), Fault> {
    let bytes = text::bytes_of(alloc, word)?;
    put_handle(&bytes, out)
}

fn put_handle(bytes: &[u8], out: &mut String) -> Result<(), Fault> {
    match Handle::read(bytes) {
        Some(handle) => {
            write!(out, "{handle:?}")?;
            text::put_again(out, bytes, &handle.wire())
        }
        None => Ok(out.push_str("none")?),
    }
}
