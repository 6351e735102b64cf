//! Attributes and bitmaps (RFC 7530, 5.6 to 5.8).
ghost use Rattle.std.specs.Prelude.{IfOk};
ghost use Rattle.nm_attrs.specs.Attributes.{AreAttrs};

use crate::{Fault, text};
use nm_attrs::{
    Attr, AttrFault, AttrValue, Attrs, Bitmap, FsLocations, Path, is_supported, read_bitmap,
    read_fattr, write_fattr,
};
use nm_types::Items;
use nm_xdr::{Cursor, Writer};
use std::alloc::Global;

/// The answer to a case of attributes.
pub(crate) fn line(alloc: Global, words: &[&str], out: &mut String) -> Result<(), Fault> {
    match words {
        ["bitmap", bytes] => bitmap(alloc, bytes, out),
        ["mask", mask] => put_mask(alloc, text::number(mask)?, out),
        ["supported", limit] => supported(alloc, text::short(limit)?, out),
        ["fattr", numbers, values] => fattr(alloc, numbers, values, out),
        ["write-attributes"] => put_attributes(alloc, out),
        _ => Err(Fault::NoCase),
    }
}

// `bitmap HEX`: the words that are read of a bitmap, the numbers that it has, the place behind it, and what is written of it.
fn bitmap(alloc: Global, word: &str, out: &mut String) -> Result<(), Fault> {
    let bytes = text::bytes_of(alloc, word)?;
    let mut cursor = Cursor::new(&bytes);
    let read = read_bitmap(alloc, &mut cursor);
    put_read(alloc, read, &bytes, cursor.place(), out)
}

fn put_read(
    alloc: Global,
    read: Result<Bitmap, AttrFault>,
    bytes: &[u8],
    place: usize,
    out: &mut String,
) -> Result<(), Fault> {
    match read {
        Ok(bitmap) => {
            put_bitmap_read(alloc, &bitmap, out)?;
            write!(out, " at {place}")?;
            put_bitmap_again(alloc, &bitmap, bytes, place, out)
        }
        Err(AttrFault::Memory) => Err(Fault::Memory),
        Err(fault) => Ok(write!(out, "fault {fault:?} at {place}")?),
    }
}

// `mask NUMBER`: the words of the bitmap of these bits.
fn put_mask(alloc: Global, mask: u64, out: &mut String) -> Result<(), Fault> {
    let bitmap = Bitmap::of_mask(alloc, mask)?;
    text::put_numbers(out, bitmap.items())
}

// The words of a bitmap, and the numbers that it has, 2^32 - 1 among those that are asked for.
fn put_bitmap_read(alloc: Global, bitmap: &Bitmap, out: &mut String) -> Result<(), Fault> {
    text::put_numbers(out, bitmap.items())?;
    out.push_str(" has ")?;
    let bits = bits_of(alloc, bitmap)?;
    text::put_numbers(out, &bits)
}

fn bits_of(alloc: Global, bitmap: &Bitmap) -> Result<Vec<u32>, Fault> {
    let mut bits = Vec::new(alloc);
    for bit in 0..300 {
        if bitmap.has(bit) {
            bits.push(bit)?;
        }
    }
    if bitmap.has(u32::MAX) {
        bits.push(u32::MAX)?;
    }
    Ok(bits)
}

fn put_bitmap_again(
    alloc: Global,
    bitmap: &Bitmap,
    bytes: &[u8],
    place: usize,
    out: &mut String,
) -> Result<(), Fault> {
    let mut writer = Writer::new(alloc);
    writer.put_words(bitmap.items())?;
    let read = match bytes.get(..place) {
        Some(read) => read,
        None => bytes,
    };
    text::put_again(out, read, &writer.finish())
}

// `supported LIMIT`: the numbers below the limit of the attributes that are supported.
fn supported(alloc: Global, limit: u32, out: &mut String) -> Result<(), Fault> {
    let bits = supported_below(alloc, limit)?;
    text::put_numbers(out, &bits)
}

fn supported_below(alloc: Global, limit: u32) -> Result<Vec<u32>, Fault> {
    let mut bits = Vec::new(alloc);
    for bit in 0..limit {
        if is_supported(bit) {
            bits.push(bit)?;
        }
    }
    Ok(bits)
}

// `fattr WORDS VALUES`: the attributes that are read of the values of a bitmap, and what is written of them.
fn fattr(alloc: Global, numbers: &str, values: &str, out: &mut String) -> Result<(), Fault> {
    let values = text::bytes_of(alloc, values)?;
    match bitmap_of(alloc, numbers)? {
        Some(bitmap) => attributes(alloc, &bitmap, &values, out),
        None => Ok(out.push_str("no bitmap")?),
    }
}

fn bitmap_of(alloc: Global, numbers: &str) -> Result<Option<Bitmap>, Fault> {
    let numbers = text::numbers_of(alloc, numbers)?;
    Ok(Bitmap::of_words(Items::from_slice(alloc, &numbers)?))
}

fn attributes(
    alloc: Global,
    bitmap: &Bitmap,
    values: &[u8],
    out: &mut String,
) -> Result<(), Fault> {
    match read_fattr(alloc, bitmap, values) {
        Ok(attrs) => { put_attrs(attrs.items(), out) }
        Err(AttrFault::Memory) => Err(Fault::Memory),
        Err(fault) => Ok(write!(out, "fault {fault:?}")?),
    }
}

fn put_attrs(attrs: &[Attr], out: &mut String) -> Result<(), Fault> {
    if attrs.is_empty() {
        out.push_str("none")?;
    }
    for (index, attr) in attrs.iter().enumerate() {
        if index > 0 {
            out.push_str("; ")?;
        }
        let bit = attr.bit;
        write!(out, "{bit} ")?;
        put_value(&attr.value, out)?;
    }
    Ok(())
}

fn put_value(value: &AttrValue, out: &mut String) -> Result<(), Fault> {
    match value {
        AttrValue::Words(bitmap) => {
            out.push_str("words ")?;
            text::put_numbers(out, bitmap.items())
        }
        AttrValue::U32(number) => Ok(write!(out, "u32 {number}")?),
        AttrValue::U64(number) => Ok(write!(out, "u64 {number}")?),
        AttrValue::Bool(flag) => Ok(write!(out, "{flag}")?),
        AttrValue::Fsid { major, minor } => Ok(write!(out, "fsid {major} {minor}")?),
        AttrValue::FileHandle(bytes) => {
            out.push_str("handle ")?;
            text::put_bytes(out, bytes.items())
        }
        AttrValue::Locations(locations) => put_locations(locations, out),
    }
}

// The root, and each location with its servers and its root there.
fn put_locations(locations: &FsLocations, out: &mut String) -> Result<(), Fault> {
    out.push_str("root ")?;
    put_path(&locations.root, out)?;
    for location in locations.locations.items() {
        out.push_str(" at ")?;
        put_path(&location.servers, out)?;
        out.push_str(" root ")?;
        put_path(&location.root, out)?;
    }
    Ok(())
}

// The names of a path.
fn put_path(path: &Path, out: &mut String) -> Result<(), Fault> {
    if path.items().is_empty() {
        out.push_str("none")?;
    }
    for (index, name) in path.items().iter().enumerate() {
        if index > 0 {
            out.push('/')?;
        }
        text::put_bytes(out, name.items())?;
    }
    Ok(())
}

// A size of 5 and the mode 0644.
#[tactic(auto, using(crate::proofs::AttrLaws::size_and_mode_are))]
fn size_and_mode(alloc: Global) -> Result<Attrs, Fault>
    ensures { IfOk result (λ attrs. AreAttrs attrs) }
{
    let mut attrs = Attrs::new(alloc);
    attrs.push(Attr {
        bit: 4,
        value: AttrValue::U64(5),
    })?;
    attrs.push(Attr {
        bit: 33,
        value: AttrValue::U32(0o644),
    })?;
    Ok(attrs)
}

// `write-attributes`: what is written of a size and a mode, behind a word.
fn put_attributes(alloc: Global, out: &mut String) -> Result<(), Fault> {
    let mut writer = Writer::new(alloc);
    writer.put_u32(7)?;
    write_fattr(&size_and_mode(alloc)?, &mut writer)?;
    text::put_bytes(out, &writer.finish())
}
