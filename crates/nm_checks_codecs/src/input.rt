//! The lines of the input, and the names that stand for texts in them.
use crate::{Fault, case, cuts, ones};
use std::alloc::{AllocError, Global};

/// A name, and the text that it stands for.
#[derive(Clone, Copy)]
struct Named<'a> {
    name: &'a str,
    text: &'a str,
}

/// Tells the answers to all lines, each on a line of its own, and whether a line was no case.
pub(crate) fn answers(alloc: Global, text: &str, out: &mut String) -> Result<bool, AllocError> {
    let mut names = Vec::new(alloc);
    let mut faults = false;
    for (index, line) in text.lines().enumerate() {
        match answer(alloc, &mut names, line, out) {
            Ok(()) => {}
            Err(Fault::NoCase) => {
                faults = true;
                let number = index.saturating_add(1);
                write!(out, "line {number}: no case")?;
            }
            Err(Fault::Memory) => return Err(AllocError),
        }
        out.push('\n')?;
    }
    Ok(faults)
}

// A comment and an empty line are told as they are.
fn answer<'a>(
    alloc: Global,
    names: &mut Vec<Named<'a>>,
    line: &'a str,
    out: &mut String,
) -> Result<(), Fault> {
    if line.is_empty() || line.starts_with('#') {
        out.push_str(line)?;
        return Ok(());
    }
    if let Some(naming) = line.strip_prefix("let ") {
        return keep_name(names, naming, out);
    }
    let told = told_of(alloc, names, line)?;
    out.push_str(told.as_str())?;
    Ok(())
}

// `NAME TEXT`: the name stands for that text from here on.
fn keep_name<'a>(
    names: &mut Vec<Named<'a>>,
    naming: &'a str,
    out: &mut String,
) -> Result<(), Fault> {
    let Some((name, text)) = naming.split_once(' ') else {
        return Err(Fault::NoCase);
    };
    names.push(Named { name, text })?;
    write!(out, "let {name}")?;
    Ok(())
}

fn told_of(alloc: Global, names: &[Named<'_>], line: &str) -> Result<String, Fault> {
    let mut told = String::new(alloc);
    let mut whole = String::new(alloc);
    put_whole(names, line, &mut whole)?;
    judge(alloc, whole.as_str(), &mut told)?;
    Ok(told)
}

// The answer to a line without names.
fn judge(alloc: Global, line: &str, out: &mut String) -> Result<(), Fault> {
    let words = line.split(' ').collect::<Vec<&str>>(alloc)?;
    match words.as_slice() {
        ["cuts", rest @ ..] => cuts::line(alloc, rest, out),
        ["ones", rest @ ..] => ones::line(alloc, rest, out),
        words => case::line(alloc, words, out),
    }
}

// The line with the texts of its names.
fn put_whole(names: &[Named<'_>], line: &str, out: &mut String) -> Result<(), Fault> {
    for (index, word) in line.split(' ').enumerate() {
        if index > 0 {
            out.push(' ')?;
        }
        put_word(names, word, out)?;
    }
    Ok(())
}

// A word. `@NAME` is the name's text, and `@NAME/PLACE=HEX` that text with these bytes at that place.
fn put_word(names: &[Named<'_>], word: &str, out: &mut String) -> Result<(), Fault> {
    let mut rest = word;
    if let Some(cut) = word.strip_prefix('%') {
        out.push('%')?;
        rest = cut;
    }
    let Some(named) = rest.strip_prefix('@') else {
        out.push_str(rest)?;
        return Ok(());
    };
    match named.split_once('/') {
        Some((name, change)) => put_changed(text_of(names, name)?, change, out),
        None => {
            out.push_str(text_of(names, named)?)?;
            Ok(())
        }
    }
}

// The text of a name: the one given last.
fn text_of<'a>(names: &[Named<'a>], name: &str) -> Result<&'a str, Fault> {
    for known in names.iter().rev() {
        if known.name == name {
            return Ok(known.text);
        }
    }
    Err(Fault::NoCase)
}

// Hexadecimal digits, with those of `PLACE=HEX` from that byte on.
fn put_changed(text: &str, change: &str, out: &mut String) -> Result<(), Fault> {
    let Some((place, digits)) = change.split_once('=') else {
        return Err(Fault::NoCase);
    };
    let Ok(place) = place.parse::<usize>() else {
        return Err(Fault::NoCase);
    };
    let start = place.saturating_mul(2);
    let Some(front) = text.get(..start) else {
        return Err(Fault::NoCase);
    };
    out.push_str(front)?;
    out.push_str(digits)?;
    if let Some(rest) = text.get(start.saturating_add(digits.len())..) {
        out.push_str(rest)?;
    }
    Ok(())
}
