//! The items of XDR (RFC 4506).
use crate::{Fault, text};
use nm_xdr::{Cursor, Writer, XdrFault};
use std::alloc::Global;

/// The answer to `take HEX ITEM ..`: each item that is taken of the bytes or the fault of its take, the place behind them,
/// and what is written of the items that were taken. `read HEX ITEM ..` ends at the first fault.
pub(crate) fn line(alloc: Global, words: &[&str], out: &mut String) -> Result<(), Fault> {
    match words {
        ["take", bytes, items @ ..] => take_of(alloc, bytes, items, false, out),
        ["read", bytes, items @ ..] => take_of(alloc, bytes, items, true, out),
        _ => Err(Fault::NoCase),
    }
}

fn take_of(
    alloc: Global,
    bytes: &str,
    items: &[&str],
    ends: bool,
    out: &mut String,
) -> Result<(), Fault> {
    let bytes = text::bytes_of(alloc, bytes)?;
    take_all(alloc, &bytes, items, ends, out)
}

fn take_all(
    alloc: Global,
    bytes: &[u8],
    items: &[&str],
    ends: bool,
    out: &mut String,
) -> Result<(), Fault> {
    let mut cursor = Cursor::new(bytes);
    let mut writer = Writer::new(alloc);
    for word in items {
        let is_taken = take(&mut cursor, &mut writer, word, out)?;
        out.push_str("; ")?;
        if ends && !is_taken {
            break;
        }
    }
    let place = cursor.place();
    write!(out, "at {place}")?;
    let taken = match bytes.get(..place) {
        Some(taken) => taken,
        None => bytes,
    };
    text::put_again(out, taken, &writer.finish())
}

// Takes an item, and writes it again. Whether it was taken.
fn take(
    cursor: &mut Cursor<'_>,
    writer: &mut Writer,
    word: &str,
    out: &mut String,
) -> Result<bool, Fault> {
    match word.split_once(':') {
        Some((kind, limit)) => take_within(cursor, writer, kind, limit, out),
        None => take_plain(cursor, writer, word, out),
    }
}

fn take_plain(
    cursor: &mut Cursor<'_>,
    writer: &mut Writer,
    word: &str,
    out: &mut String,
) -> Result<bool, Fault> {
    match word {
        "u32" => put_u32(writer, cursor.take_u32(), out),
        "u64" => put_u64(writer, cursor.take_u64(), out),
        "bool" => put_bool(writer, cursor.take_bool(), out),
        "spot" => put_spot(cursor, out),
        _ => Err(Fault::NoCase),
    }
}

fn take_within(
    cursor: &mut Cursor<'_>,
    writer: &mut Writer,
    kind: &str,
    limit: &str,
    out: &mut String,
) -> Result<bool, Fault> {
    match kind {
        "fixed" => put_fixed(writer, cursor.take_fixed(text::size(limit)?), out),
        "opaque" => put_opaque(writer, cursor.take_opaque(text::short(limit)?), out),
        "count" => put_u32(writer, cursor.take_count(text::short(limit)?), out),
        _ => Err(Fault::NoCase),
    }
}

fn put_u32(
    writer: &mut Writer,
    taken: Result<u32, XdrFault>,
    out: &mut String,
) -> Result<bool, Fault> {
    match taken {
        Ok(number) => {
            write!(out, "{number}")?;
            writer.put_u32(number)?;
            Ok(true)
        }
        Err(fault) => put_fault(fault, out),
    }
}

fn put_u64(
    writer: &mut Writer,
    taken: Result<u64, XdrFault>,
    out: &mut String,
) -> Result<bool, Fault> {
    match taken {
        Ok(number) => {
            write!(out, "{number}")?;
            writer.put_u64(number)?;
            Ok(true)
        }
        Err(fault) => put_fault(fault, out),
    }
}

fn put_bool(
    writer: &mut Writer,
    taken: Result<bool, XdrFault>,
    out: &mut String,
) -> Result<bool, Fault> {
    match taken {
        Ok(flag) => {
            write!(out, "{flag}")?;
            writer.put_bool(flag)?;
            Ok(true)
        }
        Err(fault) => put_fault(fault, out),
    }
}

fn put_fixed(
    writer: &mut Writer,
    taken: Result<&[u8], XdrFault>,
    out: &mut String,
) -> Result<bool, Fault> {
    match taken {
        Ok(bytes) => {
            text::put_bytes(out, bytes)?;
            writer.put_fixed(bytes)?;
            Ok(true)
        }
        Err(fault) => put_fault(fault, out),
    }
}

fn put_opaque(
    writer: &mut Writer,
    taken: Result<&[u8], XdrFault>,
    out: &mut String,
) -> Result<bool, Fault> {
    match taken {
        Ok(bytes) => {
            text::put_bytes(out, bytes)?;
            if bytes.len() > u32::MAX as usize {
                return Err(Fault::NoCase);
            }
            writer.put_opaque(bytes)?;
            Ok(true)
        }
        Err(fault) => put_fault(fault, out),
    }
}

// Where the cursor is.
fn put_spot(cursor: &Cursor<'_>, out: &mut String) -> Result<bool, Fault> {
    let place = cursor.place();
    let left = cursor.left();
    write!(out, "at {place} left {left}")?;
    Ok(true)
}

fn put_fault(fault: XdrFault, out: &mut String) -> Result<bool, Fault> {
    write!(out, "fault {fault:?}")?;
    Ok(false)
}
