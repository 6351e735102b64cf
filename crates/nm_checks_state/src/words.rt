//! The words of a line, and what they stand for.
use crate::fault::Fault;
use hex::FromHexError;
use nm_types::{
    Bytes, Instance, Items, Memory, Owner, OwnerKind, Principal, StateId, StateRef, Words,
};
use std::alloc::Global;

/// The parts of a line or of a word between separators.
pub(crate) fn parts(alloc: Global, text: &[u8], separator: u8) -> Result<Vec<&[u8]>, Memory> {
    Ok(text.split(|b| *b == separator).collect(alloc)?)
}

/// A word up to the first separator and behind it. Where it has none, nothing is behind it.
pub(crate) fn cut(word: &[u8], separator: u8) -> (&[u8], &[u8]) {
    match word.iter().position(|b| *b == separator) {
        Some(at) => (&word[..at], &word[at + 1..]),
        None => (word, &[]),
    }
}

/// What a word stands for by a table.
pub(crate) fn chosen<T: Copy>(table: &[(&str, T)], word: &[u8]) -> Result<T, Fault> {
    for (name, value) in table {
        if name.as_bytes() == word {
            return Ok(*value);
        }
    }
    Err(Fault::Word)
}

// The number that digits to that base, which is at most 10, stand for.
fn digits(word: &[u8], base: u64) -> Option<u64> {
    let mut number = 0u64;
    for b in word {
        let digit = u64::from(b.checked_sub(b'0')?);
        if digit >= base {
            return None;
        }
        number = number.checked_mul(base)?.checked_add(digit)?;
    }
    Some(number)
}

/// The number that a word spells in decimal digits.
pub(crate) fn number(word: &[u8]) -> Result<u64, Fault> {
    if word.is_empty() {
        return Err(Fault::Number);
    }
    digits(word, 10).ok_or(Fault::Number)
}

/// A number of 32 bits.
pub(crate) fn small(word: &[u8]) -> Result<u32, Fault> {
    u32::try_from(number(word)?).ok().ok_or(Fault::Number)
}

/// The mode of a file, in octal digits.
pub(crate) fn mode(word: &[u8]) -> Result<u32, Fault> {
    let mode = digits(word, 8).ok_or(Fault::Number)?;
    u32::try_from(mode).ok().ok_or(Fault::Number)
}

// The bytes of two hexadecimal digits each.
fn hex_bytes(alloc: Global, digits: &[u8]) -> Result<Bytes, Fault> {
    match hex::decode(alloc, digits) {
        Ok(bytes) => Ok(Bytes::from_slice(alloc, &bytes)?),
        Err(FromHexError::OutOfMemory) => Err(Fault::Memory),
        Err(_) => Err(Fault::Number),
    }
}

// So many times one byte, at most 2^20 times.
fn repeated(alloc: Global, count: u64, one: &[u8]) -> Result<Bytes, Fault> {
    let [byte] = one else {
        return Err(Fault::Number);
    };
    if count > 1 << 20 {
        return Err(Fault::Number);
    }
    let mut bytes = Bytes::new(alloc);
    for _ in 0..count {
        bytes.push(*byte)?;
    }
    Ok(bytes)
}

/// The bytes that a word stands for: `-` for none, `0xHH..` in hexadecimal digits, `N*HH` for N times one byte, or the bytes of
/// the word.
pub(crate) fn bytes(alloc: Global, word: &[u8]) -> Result<Bytes, Fault> {
    if word == b"-".as_slice() {
        return Ok(Bytes::new(alloc));
    }
    if let [b'0', b'x', digits @ ..] = word {
        return hex_bytes(alloc, digits);
    }
    let (count, byte) = cut(word, b'*');
    if byte.is_empty() {
        return Ok(Bytes::from_slice(alloc, word)?);
    }
    let byte = hex_bytes(alloc, byte)?;
    repeated(alloc, number(count)?, byte.items())
}

/// The words of a bitmap, with commas between: `-` for none.
pub(crate) fn bitmap(alloc: Global, word: &[u8]) -> Result<Words, Fault> {
    if word.is_empty() || word == b"-".as_slice() {
        return Ok(Items::new(alloc));
    }
    smalls(alloc, &parts(alloc, word, b',')?)
}

// Numbers of 32 bits, one a word.
fn smalls(alloc: Global, words: &[&[u8]]) -> Result<Words, Fault> {
    let mut numbers = Items::new(alloc);
    for word in words {
        numbers.push(small(word)?)?;
    }
    Ok(numbers)
}

/// A start of a client: `NAME`, of verifier 7, or `NAME@VERIFIER`. Its principal is user 0 of AUTH_SYS.
pub(crate) fn instance(word: &[u8]) -> Result<Instance, Fault> {
    let (name, verifier) = cut(word, b'@');
    let verifier = if verifier.is_empty() {
        7
    } else {
        number(verifier)?
    };
    let principal = Principal { flavor: 1, uid: 0 };
    match Instance::make(name, verifier, principal) {
        Ok(instance) => Ok(instance),
        Err(_) => Err(Fault::Word),
    }
}

/// An open owner of a start of a client, with that text.
pub(crate) fn open_owner(alloc: Global, who: &[u8], text: &[u8]) -> Result<Owner, Fault> {
    Ok(Owner {
        instance: instance(who)?,
        kind: OwnerKind::Opens,
        text: bytes(alloc, text)?,
    })
}

/// A stateid that a server made: `SEQID:COUNTER` in file system 0, or `SEQID:COUNTER:FS`.
pub(crate) fn named(word: &[u8]) -> Result<StateId, Fault> {
    let (seqid, rest) = cut(word, b':');
    let (counter, fs) = cut(rest, b':');
    let fs = if fs.is_empty() { 0 } else { small(fs)? };
    Ok(StateId {
        seqid: small(seqid)?,
        fs,
        counter: number(counter)?,
    })
}

/// A stateid as a request gives it: `zeros`, `ones`, or one that a server made.
pub(crate) fn stateid(word: &[u8]) -> Result<StateRef, Fault> {
    if word == b"zeros".as_slice() {
        return Ok(StateRef::Zeros);
    }
    if word == b"ones".as_slice() {
        return Ok(StateRef::Ones);
    }
    Ok(StateRef::Named(named(word)?))
}
