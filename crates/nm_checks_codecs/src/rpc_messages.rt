//! Calls and replies of RPC (RFC 5531, 9).
ghost use Rattle.std.specs.Prelude.{◌≡◌};
ghost use Rattle.nm_rpc.specs.Messages.{has_spelling};

use crate::{Fault, text};
use nm_rpc::{
    CallFault, CallHead, ReplyOutcome, Service, read_call, read_reply, write_call, write_refusal,
    write_reply,
};
use nm_types::Principal;
use std::alloc::Global;

/// The answer to a case of messages.
pub(crate) fn line(alloc: Global, words: &[&str], out: &mut String) -> Result<(), Fault> {
    match words {
        ["call", services, bytes] => call(alloc, services, bytes, out),
        ["write-call", numbers, machine, body] => write(alloc, numbers, machine, body, out),
        ["reply", bytes] => reply(alloc, bytes, out),
        ["refusal", fault, numbers] => refusal(alloc, fault_of(alloc, fault, numbers)?, out),
        _ => Err(Fault::NoCase),
    }
}

// `call SERVICES HEX`: the head that is read of a call, and what is written of it.
fn call(alloc: Global, services: &str, bytes: &str, out: &mut String) -> Result<(), Fault> {
    let services = services_of(alloc, services)?;
    let bytes = text::bytes_of(alloc, bytes)?;
    put_call(alloc, &services, &bytes, out)
}

// Services `PROGRAM:VERSION:GREATEST` between commas; `-` for none.
fn services_of(alloc: Global, word: &str) -> Result<Vec<Service>, Fault> {
    let mut services = Vec::new(alloc);
    if word == "-" {
        return Ok(services);
    }
    for part in word.split(',') {
        services.push(service_of(part)?)?;
    }
    Ok(services)
}

fn service_of(word: &str) -> Result<Service, Fault> {
    let wrong = Fault::NoCase;
    let (program, rest) = word.split_once(':').ok_or(wrong)?;
    let (version, greatest) = rest.split_once(':').ok_or(wrong)?;
    Ok(Service {
        program: text::short(program)?,
        version: text::short(version)?,
        greatest: text::short(greatest)?,
    })
}

fn put_call(
    alloc: Global,
    services: &[Service],
    bytes: &[u8],
    out: &mut String,
) -> Result<(), Fault> {
    match read_call(alloc, bytes, services) {
        Ok(head) => put_read(alloc, &head, bytes, out),
        Err(CallFault::Memory) => Err(Fault::Memory),
        Err(fault) => Ok(write!(out, "fault {fault:?}")?),
    }
}

fn put_read(alloc: Global, head: &CallHead, bytes: &[u8], out: &mut String) -> Result<(), Fault> {
    put_head(head, out)?;
    let Some(body) = bytes.get(head.body..) else {
        return Err(Fault::NoCase);
    };
    match written(alloc, head, body)? {
        Some(written) => text::put_again(out, bytes, &written),
        None => Ok(out.push_str(" not asked")?),
    }
}

fn put_head(head: &CallHead, out: &mut String) -> Result<(), Fault> {
    let (xid, program, version, procedure) = (head.xid, head.program, head.version, head.procedure);
    let Principal { flavor, uid } = head.principal;
    let body = head.body;
    write!(
        out,
        "xid {xid} program {program} version {version} procedure {procedure}"
    )?;
    write!(out, " flavor {flavor} uid {uid} machine ")?;
    text::put_bytes(out, head.machine.items())?;
    Ok(write!(out, " body {body}")?)
}

// The call with this head and this body, where it can be written.
fn written(alloc: Global, head: &CallHead, body: &[u8]) -> Result<Option<Vec<u8>>, Fault> {
    if !is_spelled(head) {
        return Ok(None);
    }
    Ok(Some(write_call(alloc, head, body)?))
}

// Whether a call with this head can be written: without a name there is no user and no machine, and the machine's name has
// at most 255 bytes.
fn is_spelled(head: &CallHead) -> bool
    ensures { result ≡ has_spelling head.now }
{
    if head.principal.flavor == 0 {
        return head.principal.uid == 0 && head.machine.items().is_empty();
    }
    head.principal.flavor == 1 && head.machine.items().len() <= 255
}

// `write-call NUMBERS MACHINE BODY`: the call that is written.
fn write(
    alloc: Global,
    numbers: &str,
    machine: &str,
    body: &str,
    out: &mut String,
) -> Result<(), Fault> {
    let head = head_of(alloc, numbers, machine)?;
    let body = text::bytes_of(alloc, body)?;
    match written(alloc, &head, &body)? {
        Some(written) => text::put_bytes(out, &written),
        None => Ok(out.push_str("not asked")?),
    }
}

// `XID,PROGRAM,VERSION,PROCEDURE,FLAVOR,UID,BODY` and the machine's name.
fn head_of(alloc: Global, numbers: &str, machine: &str) -> Result<CallHead, Fault> {
    let numbers = text::numbers_of(alloc, numbers)?;
    let [xid, program, version, procedure, flavor, uid, body] = *numbers.as_slice() else {
        return Err(Fault::NoCase);
    };
    Ok(CallHead {
        xid,
        program,
        version,
        procedure,
        principal: Principal { flavor, uid },
        machine: text::list_of(alloc, machine)?,
        body: body as usize,
    })
}

// `reply HEX`: the head that is read of a reply, and what is written of one that has a body.
fn reply(alloc: Global, word: &str, out: &mut String) -> Result<(), Fault> {
    let bytes = text::bytes_of(alloc, word)?;
    put_reply(alloc, &bytes, out)
}

fn put_reply(alloc: Global, bytes: &[u8], out: &mut String) -> Result<(), Fault> {
    match read_reply(bytes) {
        Ok(head) => {
            write!(out, "{head:?}")?;
            match head.outcome {
                ReplyOutcome::Success { body } => {
                    put_reply_again(alloc, head.xid, bytes, body, out)
                }
                _ => Ok(()),
            }
        }
        Err(fault) => Ok(write!(out, "fault {fault:?}")?),
    }
}

fn put_reply_again(
    alloc: Global,
    xid: u32,
    bytes: &[u8],
    place: usize,
    out: &mut String,
) -> Result<(), Fault> {
    let Some(body) = bytes.get(place..) else {
        return Err(Fault::NoCase);
    };
    let written = write_reply(alloc, xid, body)?;
    text::put_again(out, bytes, &written)
}

// The fault of this name with these numbers.
fn fault_of(alloc: Global, name: &str, numbers: &str) -> Result<CallFault, Fault> {
    let numbers = text::numbers_of(alloc, numbers)?;
    named_fault(name, &numbers)
}

fn named_fault(name: &str, numbers: &[u32]) -> Result<CallFault, Fault> {
    match (name, numbers) {
        ("NotCall", []) => Ok(CallFault::NotCall),
        ("RpcVersion", [xid]) => Ok(CallFault::RpcVersion { xid: *xid }),
        ("Auth", [xid]) => Ok(CallFault::Auth { xid: *xid }),
        ("Program", [xid]) => Ok(CallFault::Program { xid: *xid }),
        ("Version", [xid, low, high]) => Ok(CallFault::Version {
            xid: *xid,
            low: *low,
            high: *high,
        }),
        ("Proc", [xid]) => Ok(CallFault::Proc { xid: *xid }),
        ("Garbage", [xid, at]) => Ok(CallFault::Garbage {
            xid: *xid,
            at: *at as usize,
        }),
        ("Memory", []) => Ok(CallFault::Memory),
        _ => Err(Fault::NoCase),
    }
}

// `refusal FAULT NUMBERS`: the reply that is written to a call with this fault, and what is read of it.
fn refusal(alloc: Global, fault: CallFault, out: &mut String) -> Result<(), Fault> {
    match write_refusal(alloc, &fault)? {
        Some(bytes) => {
            text::put_bytes(out, &bytes)?;
            out.push(' ')?;
            put_reply(alloc, &bytes, out)
        }
        None => Ok(out.push_str("none")?),
    }
}
