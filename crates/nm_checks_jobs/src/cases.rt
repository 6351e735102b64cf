//! The cases of a text: lines that begin one, and the lines of its block below it.
use crate::outside::{read_all_of, read_rooms, write_all_of};
use crate::rows::{answer_row, say_held};
use crate::scripts::answer_script;
use crate::text::{number, numbers, parted, put_text, say};
use nm_script::{Why, fault_text, usage_text};
use nm_types::Memory;

// `times N TEXT`: adds a text to the front so many times.
fn add_times(front: &mut Vec<u8>, rest: &str) -> Result<(), Memory> {
    let (times, text) = parted(rest);
    for _ in 0..times.parse::<u32>().unwrap_or(0) {
        put_text(front, text)?;
    }
    Ok(())
}

// A case whose text is the front, the rest of its line, and its block.
fn answer_text(
    out: &mut Vec<u8>,
    front: &[u8],
    command: &str,
    rest: &str,
    block: &str,
) -> Result<(), Memory> {
    let mut text = Vec::from_slice(*out.allocator(), front)?;
    put_text(&mut text, rest)?;
    say(&mut text, block.as_bytes())?;
    answer_script(out, command, &text)
}

fn answer_listed(
    out: &mut Vec<u8>,
    front: &[u8],
    command: &str,
    list: &[u64],
) -> Result<(), Memory> {
    let alloc = *out.allocator();
    match command {
        "source" => read_all_of(out, front, list),
        "reads" => read_rooms(out, front, list),
        "sink" => write_all_of(out, front, list),
        "held" => say_held(out, list),
        "fault" => say(out, &fault_text(alloc, number(list, 0), Why::Name)?),
        "usage" => say(out, &usage_text(alloc)?),
        _ => answer_row(out, command, list),
    }
}

// A case of numbers.
fn answer_numbers(
    out: &mut Vec<u8>,
    front: &[u8],
    command: &str,
    rest: &str,
) -> Result<(), Memory> {
    match numbers(*out.allocator(), rest)? {
        Some(list) => answer_listed(out, front, command, &list),
        None => say(out, b"no case\n"),
    }
}

fn answer(out: &mut Vec<u8>, front: &mut Vec<u8>, line: &str, block: &str) -> Result<(), Memory> {
    let (command, rest) = parted(line);
    match command {
        "" | "#" => Ok(()),
        "front" => {
            front.clear();
            say(front, block.as_bytes())
        }
        "times" => add_times(front, rest),
        "read" | "run" | "print" | "phases" => answer_text(out, front, command, rest, block),
        _ => answer_numbers(out, front, command, rest),
    }
}

// A line begins with two blanks where it is of a block.
fn answer_lines(
    out: &mut Vec<u8>,
    front: &mut Vec<u8>,
    block: &mut String,
    input: &str,
) -> Result<(), Memory> {
    let mut case = "";
    for line in input.lines() {
        match line.strip_prefix("  ") {
            Some(text) => {
                block.push_str(text)?;
                block.push_str("\n")?;
            }
            None => {
                answer(out, front, case, block.as_str())?;
                block.clear();
                case = line;
                say(out, line.as_bytes())?;
                say(out, b"\n")?;
            }
        }
    }
    answer(out, front, case, block.as_str())
}

/// Answers all cases of a text.
pub(crate) fn answer_all(out: &mut Vec<u8>, input: &str) -> Result<(), Memory> {
    let alloc = *out.allocator();
    let mut front = Vec::new(alloc);
    let mut block = String::new(alloc);
    answer_lines(out, &mut front, &mut block, input)
}
