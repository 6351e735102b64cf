//! A case with each word of some bytes all ones.
use crate::{Fault, case, text};
use std::alloc::Global;

/// The answers to a case in which one word, `%` and hexadecimal digits, has all ones in the place of each four of its bytes in
/// turn. The place of the four stands before the first answer and before each that isn't the one before it.
pub(crate) fn line(alloc: Global, words: &[&str], out: &mut String) -> Result<(), Fault> {
    for (place, word) in words.iter().enumerate() {
        if let Some(digits) = word.strip_prefix('%') {
            return answers(alloc, words, place, digits, out);
        }
    }
    Err(Fault::NoCase)
}

fn answers(
    alloc: Global,
    words: &[&str],
    place: usize,
    digits: &str,
    out: &mut String,
) -> Result<(), Fault> {
    let mut last = String::new(alloc);
    for four in 0..digits.len() / 8 {
        let told = answer(alloc, words, place, digits, four.saturating_mul(8))?;
        text::put_change(four.saturating_mul(4), told, &mut last, out)?;
    }
    Ok(())
}

fn answer(
    alloc: Global,
    words: &[&str],
    place: usize,
    digits: &str,
    start: usize,
) -> Result<String, Fault> {
    let digits = with_ones(alloc, digits, start)?;
    let line = with_word(alloc, words, place, digits.as_str())?;
    let mut told = String::new(alloc);
    judge(alloc, line.as_str(), &mut told)?;
    Ok(told)
}

// The line of these words, with another one at that place.
fn with_word(alloc: Global, words: &[&str], place: usize, other: &str) -> Result<String, Fault> {
    let mut line = String::new(alloc);
    for (at, word) in words.iter().enumerate() {
        if at > 0 {
            line.push(' ')?;
        }
        line.push_str(if at == place { other } else { word })?;
    }
    Ok(line)
}

fn judge(alloc: Global, line: &str, out: &mut String) -> Result<(), Fault> {
    let words = line.split(' ').collect::<Vec<&str>>(alloc)?;
    case::line(alloc, words.as_slice(), out)
}

fn with_ones(alloc: Global, digits: &str, start: usize) -> Result<String, Fault> {
    let (Some(front), Some(behind)) = (digits.get(..start), digits.get(start.saturating_add(8)..))
    else {
        return Err(Fault::NoCase);
    };
    let mut whole = String::from_str(alloc, front)?;
    whole.push_str("ffffffff")?;
    whole.push_str(behind)?;
    Ok(whole)
}
