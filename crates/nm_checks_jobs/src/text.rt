//! Numbers and texts of cases, and what is printed of them.
use nm_types::Memory;
use std::alloc::Global;

/// The first word of a line, and what stands behind the blank after it.
pub(crate) fn parted(line: &str) -> (&str, &str) {
    match line.split_once(' ') {
        Some(parts) => parts,
        None => (line, ""),
    }
}

/// The numbers that the words of a text are; `None` where one is none.
pub(crate) fn numbers(alloc: Global, text: &str) -> Result<Option<Vec<u64>>, Memory> {
    let mut list = Vec::new(alloc);
    for word in text.split_whitespace() {
        match word.parse::<u64>() {
            Ok(number) => list.push(number)?,
            Err(_) => return Ok(None),
        }
    }
    Ok(Some(list))
}

/// The number at a place, 0 where there is none.
pub(crate) fn number(list: &[u64], at: usize) -> u64 {
    match list.get(at) {
        Some(number) => *number,
        None => 0,
    }
}

/// The same in 32 bits.
pub(crate) fn small_number(list: &[u64], at: usize) -> u32 {
    number(list, at).min(4_294_967_295) as u32
}

// What stands behind a `\`: `n` is a line feed, `xHH` that byte, and anything else itself.
fn put_escaped(out: &mut Vec<u8>, piece: &str) -> Result<(), Memory> {
    if let Some(rest) = piece.strip_prefix('n') {
        say(out, b"\n")?;
        return say(out, rest.as_bytes());
    }
    let digits = piece.get(1..3).unwrap_or("");
    match u8::from_str_radix(digits, 16) {
        Ok(byte) => {
            say(out, &[byte])?;
            say(out, piece.get(3..).unwrap_or("").as_bytes())
        }
        Err(_) => {
            say(out, b"\\")?;
            say(out, piece.as_bytes())
        }
    }
}

/// Adds a text that is written with `\n` and `\xHH`.
pub(crate) fn put_text(out: &mut Vec<u8>, text: &str) -> Result<(), Memory> {
    let mut is_escaped = false;
    for piece in text.split('\\') {
        if is_escaped {
            put_escaped(out, piece)?;
        } else {
            say(out, piece.as_bytes())?;
        }
        is_escaped = true;
    }
    Ok(())
}

/// Prints a text.
pub(crate) fn say(out: &mut Vec<u8>, text: &[u8]) -> Result<(), Memory> {
    Ok(out.extend_from_slice(text)?)
}

/// Prints a blank and a word.
pub(crate) fn say_word(out: &mut Vec<u8>, word: &[u8]) -> Result<(), Memory> {
    say(out, b" ")?;
    say(out, word)
}

/// Prints a blank and a number.
pub(crate) fn say_number(out: &mut Vec<u8>, number: u64) -> Result<(), Memory> {
    let digits = format!(in *out.allocator(); " {number}")?;
    say(out, digits.as_bytes())
}
