//! Words of a case, and the text that tells of it.
use crate::Fault;
use nm_types::Bytes;
use std::alloc::Global;

/// The bytes of a word: hexadecimal digits, with `(N*HEX)` for N times the bytes of HEX; `-` for none.
pub(crate) fn bytes_of(alloc: Global, word: &str) -> Result<Vec<u8>, Fault> {
    let mut bytes = Vec::new(alloc);
    if word == "-" {
        return Ok(bytes);
    }
    for (index, part) in word.split('(').enumerate() {
        if index == 0 {
            add_digits(alloc, part, &mut bytes)?;
        } else {
            add_repeated(alloc, part, &mut bytes)?;
        }
    }
    Ok(bytes)
}

/// The same as a list.
pub(crate) fn list_of(alloc: Global, word: &str) -> Result<Bytes, Fault> {
    let bytes = bytes_of(alloc, word)?;
    Ok(Bytes::from_slice(alloc, &bytes)?)
}

// The most bytes of a group.
const MOST: usize = 1 << 24;

// `N*HEX)`, and the digits behind it.
fn add_repeated(alloc: Global, part: &str, bytes: &mut Vec<u8>) -> Result<(), Fault> {
    let (group, rest) = part.split_once(')').ok_or(Fault::NoCase)?;
    let (count, digits) = group.split_once('*').ok_or(Fault::NoCase)?;
    let count = count.parse::<usize>().ok().ok_or(Fault::NoCase)?;
    add_group(count, &digits_of(alloc, digits)?, bytes)?;
    add_digits(alloc, rest, bytes)
}

fn add_group(count: usize, part: &[u8], bytes: &mut Vec<u8>) -> Result<(), Fault> {
    if count > MOST || count.saturating_mul(part.len()) > MOST {
        return Err(Fault::NoCase);
    }
    for _ in 0..count {
        bytes.extend_from_slice(part)?;
    }
    Ok(())
}

fn add_digits(alloc: Global, digits: &str, bytes: &mut Vec<u8>) -> Result<(), Fault> {
    Ok(bytes.extend_from_slice(&digits_of(alloc, digits)?)?)
}

fn digits_of(alloc: Global, digits: &str) -> Result<Vec<u8>, Fault> {
    match hex::decode(alloc, digits) {
        Ok(bytes) => Ok(bytes),
        Err(hex::FromHexError::OutOfMemory) => Err(Fault::Memory),
        Err(_) => Err(Fault::NoCase),
    }
}

/// The word at this place of a case.
pub(crate) fn at<'a>(words: &[&'a str], place: usize) -> Result<&'a str, Fault> {
    match words.get(place) {
        Some(word) => Ok(*word),
        None => Err(Fault::NoCase),
    }
}

/// A decimal number.
pub(crate) fn number(word: &str) -> Result<u64, Fault> {
    match word.parse::<u64>() {
        Ok(number) => Ok(number),
        Err(_) => Err(Fault::NoCase),
    }
}

/// A decimal number of 32 bits.
pub(crate) fn short(word: &str) -> Result<u32, Fault> {
    match word.parse::<u32>() {
        Ok(number) => Ok(number),
        Err(_) => Err(Fault::NoCase),
    }
}

// So many times the same byte are told as a group.
const MANY: usize = 24;

/// Bytes as such a word.
pub(crate) fn put_bytes(out: &mut String, bytes: &[u8]) -> Result<(), Fault> {
    if bytes.is_empty() {
        out.push_str("-")?;
    }
    let mut count = 0;
    let mut last = 0;
    for byte in bytes {
        if *byte != last {
            put_run(out, last, count)?;
            count = 0;
        }
        last = *byte;
        count = count.saturating_add(1);
    }
    put_run(out, last, count)
}

fn put_run(out: &mut String, byte: u8, count: usize) -> Result<(), Fault> {
    if count > MANY {
        write!(out, "({count}*{byte:02x})")?;
        return Ok(());
    }
    for _ in 0..count {
        write!(out, "{byte:02x}")?;
    }
    Ok(())
}

/// A number.
pub(crate) fn put_number(number: u64, out: &mut String) -> Result<(), Fault> {
    Ok(write!(out, "{number}")?)
}

/// What is written of bytes that were read: ` same`, or the other bytes.
pub(crate) fn put_again(out: &mut String, read: &[u8], written: &[u8]) -> Result<(), Fault> {
    if read == written {
        out.push_str(" same")?;
        return Ok(());
    }
    out.push_str(" writes ")?;
    put_bytes(out, written)
}

/// An answer and its number, where it isn't the answer before it.
pub(crate) fn put_change(
    number: usize,
    told: String,
    last: &mut String,
    out: &mut String,
) -> Result<(), Fault> {
    if told.as_str() == last.as_str() {
        return Ok(());
    }
    if !last.is_empty() {
        out.push_str(" | ")?;
    }
    write!(out, "{number} {told}")?;
    *last = told;
    Ok(())
}

/// A decimal number of bytes.
pub(crate) fn size(word: &str) -> Result<usize, Fault> {
    match word.parse::<usize>() {
        Ok(number) => Ok(number),
        Err(_) => Err(Fault::NoCase),
    }
}

/// The numbers of 32 bits between commas; `-` for none.
pub(crate) fn numbers_of(alloc: Global, word: &str) -> Result<Vec<u32>, Fault> {
    let mut numbers = Vec::new(alloc);
    if word == "-" {
        return Ok(numbers);
    }
    for part in word.split(',') {
        numbers.push(short(part)?)?;
    }
    Ok(numbers)
}

/// Numbers as such a word.
pub(crate) fn put_numbers(out: &mut String, numbers: &[u32]) -> Result<(), Fault> {
    if numbers.is_empty() {
        out.push_str("-")?;
    }
    for (index, number) in numbers.iter().enumerate() {
        if index > 0 {
            out.push(',')?;
        }
        write!(out, "{number}")?;
    }
    Ok(())
}
