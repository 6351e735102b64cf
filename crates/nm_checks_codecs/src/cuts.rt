//! A case of each front of some bytes.
use crate::{Fault, case, text};
use std::alloc::Global;

/// The answers to a case in which one word, `%` and hexadecimal digits, is cut after each number of its bytes, from none
/// to all. A number of bytes stands before the first answer and before each that isn't the one before it.
pub(crate) fn line(alloc: Global, words: &[&str], out: &mut String) -> Result<(), Fault> {
    let mut cut = words.to_vec(alloc)?;
    for (place, word) in words.iter().enumerate() {
        if let Some(digits) = word.strip_prefix('%') {
            return answers(alloc, &mut cut, place, digits, out);
        }
    }
    Err(Fault::NoCase)
}

fn answers<'a>(
    alloc: Global,
    words: &mut [&'a str],
    place: usize,
    digits: &'a str,
    out: &mut String,
) -> Result<(), Fault> {
    let mut last = String::new(alloc);
    for len in 0..=digits.len() / 2 {
        let front = digits.get(..len * 2).ok_or(Fault::NoCase)?;
        if let Some(word) = words.get_mut(place) {
            *word = if len == 0 { "-" } else { front };
        }
        let mut told = String::new(alloc);
        case::line(alloc, words, &mut told)?;
        text::put_change(len, told, &mut last, out)?;
    }
    Ok(())
}
