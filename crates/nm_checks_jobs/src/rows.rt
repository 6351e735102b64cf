//! Rows that are printed and that no run prints so: outcomes, moves, and what is held.
use crate::text::{number, say, small_number};
use nm_script::{
    MoveNames, MoveRow, MoveTold, OutcomeRow, PhaseNow, PhaseReport, ReportRow, Told, held_text,
    line_text,
};
use nm_types::{
    Bytes, Cause, Denied, HeldKind, HeldRow, HeldTable, Instance, Items, LockKind, LockRange,
    Memory, MoveNum, OpStatus, Principal, Verb,
};
use std::alloc::Global;

fn bytes(alloc: Global, text: &[u8]) -> Result<Bytes, Memory> {
    Bytes::from_slice(alloc, text)
}

// What is in the way of a lock: a range of C1/o, from its first to its last byte.
fn denied(alloc: Global, list: &[u64]) -> Result<Told, Memory> {
    let range = LockRange {
        kind: LockKind::Write,
        first: number(list, 0),
        last: number(list, 1).max(number(list, 0)),
    };
    Ok(Told::Denied(Denied {
        range,
        owner: bytes(alloc, b"C1/o")?,
        instance: None,
    }))
}

// What a client is told of an open.
fn told(alloc: Global, command: &str, list: &[u64]) -> Result<Option<Told>, Memory> {
    let told = match command {
        "answered" => match OpStatus::read(small_number(list, 0)) {
            Some(status) => Told::Answered(status),
            None => return Ok(None),
        },
        "refused" => match OpStatus::read(small_number(list, 0)) {
            Some(status) => Told::Refused(status),
            None => return Ok(None),
        },
        "wrote" => Told::Wrote(small_number(list, 0)),
        "stopped" => Told::Stopped,
        "denied" => denied(alloc, list)?,
        _ => return Ok(None),
    };
    Ok(Some(told))
}

fn outcome(alloc: Global, told: Told) -> Result<ReportRow, Memory> {
    Ok(ReportRow::Outcome(OutcomeRow {
        client: bytes(alloc, b"C1")?,
        verb: Verb::Open,
        told,
    }))
}

// What comes of a line that moves a file system.
fn move_told(command: &str, list: &[u64]) -> Option<MoveTold> {
    match command {
        "last" => Some(MoveTold::Last),
        "waiting" => Some(MoveTold::Waiting(number(list, 0))),
        "badimage" => Some(MoveTold::Refused(Cause::BadImage {
            at: number(list, 0),
        })),
        "live" => Some(MoveTold::Refused(Cause::Live)),
        "differs" => Some(MoveTold::Refused(Cause::Differs {
            here: number(list, 0),
            there: number(list, 1),
        })),
        "full" => Some(MoveTold::Refused(Cause::Full)),
        "absent" => Some(MoveTold::Refused(Cause::Absent)),
        _ => None,
    }
}

fn moved(alloc: Global, told: MoveTold) -> Result<ReportRow, Memory> {
    Ok(ReportRow::Move(MoveRow {
        file_system: bytes(alloc, b"X")?,
        told,
    }))
}

fn passing(alloc: Global, number: u64) -> Result<ReportRow, Memory> {
    Ok(ReportRow::Phase(PhaseReport {
        file_system: bytes(alloc, b"X")?,
        phase: PhaseNow::Passing(MoveNames {
            source: bytes(alloc, b"S1")?,
            dest: bytes(alloc, b"S2")?,
            number: MoveNum::new(number),
        }),
    }))
}

fn say_row(out: &mut Vec<u8>, row: ReportRow) -> Result<(), Memory> {
    let alloc = *out.allocator();
    let mut report = Items::new(alloc);
    report.push(row)?;
    say(out, &line_text(alloc, &report)?)
}

/// Prints the row of a case.
pub(crate) fn answer_row(out: &mut Vec<u8>, command: &str, list: &[u64]) -> Result<(), Memory> {
    let alloc = *out.allocator();
    if command == "passing" {
        return say_row(out, passing(alloc, number(list, 0))?);
    }
    if let Some(told) = move_told(command, list) {
        return say_row(out, moved(alloc, told)?);
    }
    match told(alloc, command, list)? {
        Some(told) => say_row(out, outcome(alloc, told)?),
        None => say(out, b"no case\n"),
    }
}

// An open of f, with that access and deny.
fn opened(alloc: Global, access: u32, deny: u32) -> Result<HeldTable, Memory> {
    let mut table = HeldTable::new(alloc);
    let principal = Principal { flavor: 1, uid: 1 };
    if let Ok(instance) = Instance::make(b"nfsmove/C2", 7, principal) {
        table.push(HeldRow {
            counter: 2,
            seqid: 1,
            file: 16,
            name: bytes(alloc, b"f")?,
            instance,
            owner: bytes(alloc, b"C2/p")?,
            row: HeldKind::Open { access, deny },
        })?;
    }
    Ok(table)
}

// `held ACCESS DENY`, and `held` alone.
pub(crate) fn say_held(out: &mut Vec<u8>, list: &[u64]) -> Result<(), Memory> {
    let alloc = *out.allocator();
    let phase = PhaseNow::At(bytes(alloc, b"S1")?);
    let table = match list.is_empty() {
        true => HeldTable::new(alloc),
        false => opened(alloc, small_number(list, 0), small_number(list, 1))?,
    };
    say(out, &held_text(alloc, b"X", &phase, &table)?)
}
