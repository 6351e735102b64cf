//! Scripts as they were read: the head, and each line with numbers for names.
use crate::text::{say, say_number, say_word};
use nm_script::{Head, Line, Script};
use nm_types::{Action, FsNum, LockAction, LockKind, Memory};

// The word of an action.
fn verb(action: &Action) -> &'static [u8] {
    match action {
        Action::Open(_) => b" open",
        Action::Create(_) => b" create",
        Action::Close(_) => b" close",
        Action::Downgrade(_) => b" downgrade",
        Action::Lock(_) => b" lock",
        Action::Unlock(_) => b" unlock",
        Action::Test(_) => b" test",
        Action::Release(_) => b" release",
        Action::Read(_) => b" read",
        Action::Write(_) => b" write",
        Action::Size(_) => b" size",
        Action::Remove(_) => b" remove",
        Action::MkDir(_) => b" mkdir",
        Action::List(_) => b" list",
    }
}

// A file, two numbers, and an owner.
fn say_numbers(
    out: &mut Vec<u8>,
    file: &[u8],
    first: u64,
    second: u64,
    owner: &[u8],
) -> Result<(), Memory> {
    say_word(out, file)?;
    say_number(out, first)?;
    say_number(out, second)?;
    say_word(out, owner)
}

fn say_lock(out: &mut Vec<u8>, action: &LockAction) -> Result<(), Memory> {
    let kind: &[u8] = match action.kind {
        LockKind::Read => b"r",
        LockKind::Write => b"w",
    };
    say_word(out, action.file.items())?;
    say_word(out, kind)?;
    say_number(out, action.offset)?;
    say_number(out, action.length)?;
    say_word(out, action.owner.items())
}

// What stands behind the file system of an action.
fn say_arguments(out: &mut Vec<u8>, action: &Action) -> Result<(), Memory> {
    match action {
        Action::Open(a) | Action::Create(a) | Action::Downgrade(a) => say_numbers(
            out,
            a.file.items(),
            a.access as u64,
            a.deny as u64,
            a.owner.items(),
        ),
        Action::Close(a) => {
            say_word(out, a.file.items())?;
            say_word(out, a.owner.items())
        }
        Action::Lock(a) | Action::Test(a) => say_lock(out, a),
        Action::Unlock(a) => {
            say_numbers(out, a.file.items(), a.offset, a.length, a.owner.items())
        }
        Action::Release(a) => say_word(out, a.owner.items()),
        Action::Read(a) => say_numbers(
            out,
            a.file.items(),
            a.offset,
            a.count as u64,
            a.owner.items(),
        ),
        Action::Write(a) => {
            say_word(out, a.file.items())?;
            say_number(out, a.offset)?;
            let digits = hex::encode(*out.allocator(), a.data.items())?;
            say_word(out, digits.as_bytes())?;
            say_word(out, a.owner.items())
        }
        Action::Size(a) => {
            say_word(out, a.file.items())?;
            say_number(out, a.size)?;
            say_word(out, a.owner.items())
        }
        Action::Remove(a) | Action::MkDir(a) => say_word(out, a.file.items()),
        Action::List(_) => Ok(()),
    }
}

fn say_order(out: &mut Vec<u8>, word: &[u8], fs: FsNum) -> Result<(), Memory> {
    say(out, word)?;
    say_number(out, fs.number() as u64)
}

fn say_line(out: &mut Vec<u8>, line: &Line) -> Result<(), Memory> {
    match line {
        Line::Do { client, action } => {
            say(out, b"do")?;
            say_number(out, *client as u64)?;
            say_order(out, verb(action), action.fs())?;
            say_arguments(out, action)
        }
        Line::Finish { client } => {
            say(out, b"do")?;
            say_number(out, *client as u64)?;
            say(out, b" finish")
        }
        Line::Move { fs, to } => {
            say_order(out, b"move", *fs)?;
            say_number(out, to.number() as u64)
        }
        Line::Freeze(fs) => say_order(out, b"freeze", *fs),
        Line::Abandon(fs) => say_order(out, b"abandon", *fs),
        Line::Commit(fs) => say_order(out, b"commit", *fs),
        Line::Settle(fs) => say_order(out, b"settle", *fs),
        Line::Shift { fs, to } => {
            say_order(out, b"shift", *fs)?;
            say_number(out, to.number() as u64)
        }
        Line::Show(fs) => say_order(out, b"show", *fs),
    }
}

// The lease, and then servers, file systems and clients.
fn say_head(out: &mut Vec<u8>, head: &Head) -> Result<(), Memory> {
    say(out, b"lease")?;
    say_number(out, head.lease as u64)?;
    say(out, b", servers")?;
    for row in head.servers.items() {
        say_word(out, row.name.items())?;
    }
    say(out, b", file systems")?;
    for row in head.file_systems.items() {
        say_word(out, row.name.items())?;
        say_number(out, row.at.number() as u64)?;
    }
    say(out, b", clients")?;
    for row in head.clients.items() {
        say_word(out, row.name.items())?;
        say_number(out, row.verifier)?;
    }
    Ok(())
}

/// Prints a script as it was read.
pub(crate) fn say_script(out: &mut Vec<u8>, script: &Script) -> Result<(), Memory> {
    say_head(out, &script.head)?;
    say(out, b"\n")?;
    for line in script.lines.items() {
        say_line(out, line)?;
        say(out, b"\n")?;
    }
    Ok(())
}
