//! The words of a line: where they stand, and the forms of names and numbers.
ghost use Rattle.std.specs.Prelude.{◌≡◌, IfOk, map};
ghost use Rattle.std.specs.Str.{bytes_eq};
ghost use Rattle.nm_script.specs.Words as spec;
ghost use Rattle.nm_script.specs.Reading.{Gives, count_at};

use crate::Why;
use crate::fault::LineFault;
use hex::FromHexError;
use nm_types::{Bytes, LockKind, Memory};
use std::alloc::Global;

/// The words of a line, which stand apart by one space. Two spaces have an empty word between them.
#[tactic(auto, unfolding(crate::specs::Words::words_of))]
pub(crate) fn words_of(alloc: Global, line: &[u8]) -> Result<Vec<&[u8]>, Memory>
    ensures { IfOk result (λ words. map (λ word. word.now) words.items ≡ spec.words_of line.now) }
{
    Ok(line.split(|b| *b == b' ').collect(alloc)?)
}

/// Whether a word is that one.
pub(crate) fn is_word(word: &[u8], keyword: &[u8]) -> bool
    ensures { result ≡ bytes_eq word.now keyword.now }
{
    word == keyword
}

/// Whether one of the words is empty.
pub(crate) fn has_empty_word(words: &[&[u8]]) -> bool
    ensures { result ≡ spec.has_empty_word (map (λ word. word.now) words.now) }
{
    for word in words {
        if word.is_empty() {
            return true;
        }
    }
    false
}

/// Whether each byte may stand in a line.
pub(crate) fn is_printable(line: &[u8]) -> bool
    ensures { result ≡ spec.is_printable line.now }
{
    line.iter().all(|b| (b' '..=b'~').contains(b))
}

/// Whether a line says something: an empty one and one that begins with `#` don't.
pub(crate) fn says_something(line: &[u8]) -> bool
    ensures { result ≡ spec.says_something line.now }
{
    match line {
        [] => false,
        [first, ..] => *first != b'#',
    }
}

#[tactic(auto, unfolding(crate::specs::Words::is_name_byte))]
fn is_name_byte(b: u8) -> bool
    ensures { result ≡ spec.is_name_byte b }
{
    b.is_ascii_alphanumeric() || b == b'-' || b == b'_'
}

fn are_name_bytes(word: &[u8]) -> bool
    ensures { result ≡ spec.are_name_bytes word.now }
{
    word.iter().all(|b| is_name_byte(*b))
}

fn are_file_bytes(word: &[u8]) -> bool
    ensures { result ≡ spec.are_file_bytes word.now }
{
    word.iter().all(|b| is_name_byte(*b) || *b == b'.')
}

/// Whether a word has the form of a name: 1 to 16 letters, digits, `-` or `_`.
#[tactic(auto, unfolding(crate::specs::Words::is_name))]
pub(crate) fn is_name(word: &[u8]) -> bool
    ensures { result ≡ spec.is_name word.now }
{
    if word.is_empty() || word.len() > 16 {
        return false;
    }
    are_name_bytes(word)
}

/// Whether a word has the form of a file's name: 1 to 64 letters, digits, `-`, `_` or `.`, but not `.` or `..`.
#[tactic(auto, unfolding(crate::specs::Words::is_file_name))]
pub(crate) fn is_file_name(word: &[u8]) -> bool
    ensures { result ≡ spec.is_file_name word.now }
{
    if word.is_empty() || word.len() > 64 {
        return false;
    }
    if is_word(word, b".") || is_word(word, b"..") {
        return false;
    }
    are_file_bytes(word)
}

/// The number so far with one more digit, where it is one and the number stays below 2^64.
#[tactic(auto, unfolding(crate::specs::Words::with_digit))]
fn with_digit(number: u64, digit: u8) -> Option<u64>
    ensures { result ≡ spec.with_digit number digit }
{
    if !digit.is_ascii_digit() {
        return None;
    }
    number.checked_mul(10)?.checked_add((digit - b'0') as u64)
}

fn digits(word: &[u8]) -> Option<u64>
    ensures { result ≡ spec.digits_at 0 word.now }
{
    let mut number = 0;
    for b in word {
        number = with_digit(number, *b)?;
    }
    Some(number)
}

/// The number that a word spells: in decimal, below 2^64, with no sign and no leading zero.
#[tactic(auto, unfolding(crate::specs::Words::number_at))]
pub(crate) fn number(word: &[u8]) -> Result<u64, Why>
    ensures { result ≡ spec.number_at word.now }
{
    if word.is_empty() || (word.len() > 1 && word[0] == b'0') {
        return Err(Why::Number);
    }
    digits(word).ok_or(Why::Number)
}

/// The access of an open by its word.
#[tactic(auto, unfolding(crate::specs::Words::access_at))]
pub(crate) fn access(word: &[u8]) -> Result<u32, Why>
    ensures { result ≡ spec.access_at word.now }
{
    if is_word(word, b"r") {
        return Ok(1);
    }
    if is_word(word, b"w") {
        return Ok(2);
    }
    if is_word(word, b"rw") {
        return Ok(3);
    }
    Err(Why::Word)
}

/// What an open denies others by its word.
#[tactic(auto, unfolding(crate::specs::Words::deny_at))]
pub(crate) fn deny(word: &[u8]) -> Result<u32, Why>
    ensures { result ≡ spec.deny_at word.now }
{
    if is_word(word, b"none") {
        return Ok(0);
    }
    access(word)
}

/// The kind of a lock by its word.
#[tactic(auto, unfolding(crate::specs::Words::lock_kind_at))]
pub(crate) fn lock_kind(word: &[u8]) -> Result<LockKind, Why>
    ensures { result ≡ spec.lock_kind_at word.now }
{
    if is_word(word, b"r") {
        return Ok(LockKind::Read);
    }
    if is_word(word, b"w") {
        return Ok(LockKind::Write);
    }
    Err(Why::Word)
}

/// How many bytes a read asks: at most 65,536.
#[tactic(auto, unfolding(crate::specs::Reading::count_at))]
pub(crate) fn count(word: &[u8]) -> Result<u32, Why>
    ensures { result ≡ count_at word.now }
{
    let count = number(word)?;
    if count > 65536 {
        return Err(Why::Number);
    }
    Ok(count as u32)
}

#[tactic(auto, unfolding(crate::specs::Words::is_small_digit))]
fn is_small_digit(b: u8) -> bool
    ensures { result ≡ spec.is_small_digit b }
{
    b.is_ascii_digit() || (b'a'..=b'f').contains(&b)
}

fn are_small_digits(word: &[u8]) -> bool
    ensures { result ≡ spec.are_small_digits word.now }
{
    word.iter().all(|b| is_small_digit(*b))
}

/// Whether a word is 2 to 2,048 digits `0` to `9`, `a` to `f`.
#[tactic(auto, unfolding(crate::specs::Words::is_hex))]
fn is_hex(word: &[u8]) -> bool
    ensures { result ≡ spec.is_hex word.now }
{
    if word.len() < 2 || word.len() > 2048 {
        return false;
    }
    are_small_digits(word)
}

/// The bytes that a word of an even number of digits spells.
#[tactic(auto, unfolding(crate::specs::Words::bytes_at))]
pub(crate) fn bytes(alloc: Global, word: &[u8]) -> Result<Bytes, LineFault>
    ensures { Gives result (spec.bytes_at word.now) }
{
    if !is_hex(word) {
        return Err(LineFault::Bad(Why::Number));
    }
    match hex::decode(alloc, word) {
        Ok(bytes) => Ok(Bytes::from_slice(alloc, &bytes)?),
        Err(FromHexError::OutOfMemory) => Err(LineFault::Memory),
        Err(_) => Err(LineFault::Bad(Why::Number)),
    }
}
