//! Writing behind what was written before.
use nm_types::{Instance, Memory};
use std::fmt;

/// Writes a text.
pub(crate) fn append(out: &mut Vec<u8>, text: &[u8]) -> Result<(), Memory> {
    Ok(out.extend_from_slice(text)?)
}

/// Writes a number in decimal digits.
pub(crate) fn append_number(out: &mut Vec<u8>, n: u64) -> Result<(), Memory> {
    let digits = format!(in *out.allocator(); "{n}")?;
    append(out, digits.as_bytes())
}

/// Writes numbers, with a blank before each.
pub(crate) fn append_numbers(out: &mut Vec<u8>, numbers: &[u64]) -> Result<(), Memory> {
    for n in numbers {
        out.push(b' ')?;
        append_number(out, *n)?;
    }
    Ok(())
}

/// Writes a value as `{:?}` does.
pub(crate) fn append_debug<T: fmt::Debug>(out: &mut Vec<u8>, value: &T) -> Result<(), Memory> {
    let text = format!(in *out.allocator(); "{value:?}")?;
    append(out, text.as_bytes())
}

// Whether all bytes of a long text are the same.
fn is_one_byte(bytes: &[u8], first: u8) -> bool {
    bytes.len() > 16 && bytes.iter().all(|b| *b == first)
}

// Writes bytes in hexadecimal digits.
fn append_hex(out: &mut Vec<u8>, bytes: &[u8]) -> Result<(), Memory> {
    for b in bytes {
        let digits = format!(in *out.allocator(); "{b:02x}")?;
        append(out, digits.as_bytes())?;
    }
    Ok(())
}

/// Writes bytes as a word: `-` for none, `N*HH` for many times one byte, as they are where they can be seen, or else `0xHH..`.
pub(crate) fn append_bytes(out: &mut Vec<u8>, bytes: &[u8]) -> Result<(), Memory> {
    let Some(first) = bytes.first() else {
        return append(out, b"-");
    };
    if is_one_byte(bytes, *first) {
        append_number(out, bytes.len() as u64)?;
        out.push(b'*')?;
        return append_hex(out, &[*first]);
    }
    if bytes.iter().all(|b| b.is_ascii_graphic()) {
        return append(out, bytes);
    }
    append(out, b"0x")?;
    append_hex(out, bytes)
}

/// Writes the start of a client as `NAME@VERIFIER`.
pub(crate) fn append_instance(out: &mut Vec<u8>, instance: &Instance) -> Result<(), Memory> {
    append(out, instance.id())?;
    out.push(b'@')?;
    append_number(out, instance.verifier())
}

/// Writes the mode of a file in octal digits.
pub(crate) fn append_mode(out: &mut Vec<u8>, mode: u32) -> Result<(), Memory> {
    let digits = format!(in *out.allocator(); "{mode:o}")?;
    append(out, digits.as_bytes())
}
