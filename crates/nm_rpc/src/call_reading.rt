//! Reading of calls: each step refuses by the items that can be read.
ghost use Rattle.std.specs.Prelude.{◌≡◌, ◌<◌, length, option_copied, IfOk, OnErr};
ghost use Rattle.std.specs.Option.{option_map};
ghost use Rattle.nm_rpc.specs.Messages.{call_id, rpc_checked, caller_checked, service_checked, service_of, served_by, seen_by, head_checked, call_of, Answers};

use crate::credentials::{Caller, caller_in_credential};
use crate::headers::{auth_at_place, take_header, word_at_place};
use crate::{CallFault, CallHead, Service};
use nm_types::{Bytes, Memory};
use nm_xdr::Cursor;
use std::alloc::Global;

/// Reads what stands before the body of a call to one of the services (RFC 5531, 9). The verifier, and the stamp, the
/// gid and the gids of AUTH_SYS are read and not kept.
///
/// A fault is the first in the order of [`CallFault`], of those for which the items that can be read stand: a program
/// that nobody serves is Program also where the version can't be read any more. Memory may be wanting for the machine's
/// name of a call that is taken.
#[tactic(auto, unfolding(crate::specs::Messages::call_of))]
pub fn read_call(alloc: Global, bytes: &[u8], services: &[Service]) -> Result<CallHead, CallFault>
    ensures { Answers result (call_of services.now bytes.now) }
{
    let xid = id_of_call(bytes)?;
    check_rpc_version(bytes, xid)?;
    let caller = check_caller(bytes, xid)?;
    check_service(bytes, xid, services)?;
    head_of_call(alloc, bytes, xid, caller)
}

// The xid, where this is a call.
#[tactic(auto, unfolding(crate::specs::Messages::call_id))]
fn id_of_call(bytes: &[u8]) -> Result<u32, CallFault>
    ensures { result ≡ call_id bytes.now }
{
    match (word_at_place(bytes, 0), word_at_place(bytes, 4)) {
        (Some(xid), Some(0)) => Ok(xid),
        _ => Err(CallFault::NotCall),
    }
}

#[tactic(auto, unfolding(crate::specs::Messages::rpc_checked))]
fn check_rpc_version(bytes: &[u8], xid: u32) -> Result<(), CallFault>
    ensures { result ≡ rpc_checked xid bytes.now }
{
    match word_at_place(bytes, 8) {
        Some(version) if version != 2 => Err(CallFault::RpcVersion { xid }),
        _ => Ok(()),
    }
}

// Who calls. None where the credential can't be read.
#[tactic(auto, unfolding(crate::specs::Messages::caller_checked))]
fn check_caller<'a>(bytes: &'a [u8], xid: u32) -> Result<Option<Caller<'a>>, CallFault>
    ensures { seen_by (option_map (λ c. record { principal = c.principal; machine = c.machine.now })) result ≡ caller_checked xid bytes.now }
{
    let Some(flavor) = word_at_place(bytes, 24) else {
        return Ok(None);
    };
    let Some(credential) = auth_at_place(bytes, 28) else {
        return if flavor > 1 {
            Err(CallFault::Auth { xid })
        } else {
            Ok(None)
        };
    };
    match caller_in_credential(flavor, credential) {
        Some(caller) => Ok(Some(caller)),
        None => Err(CallFault::Auth { xid }),
    }
}

#[tactic(auto, unfolding(crate::specs::Messages::service_checked))]
fn check_service(bytes: &[u8], xid: u32, services: &[Service]) -> Result<(), CallFault>
    ensures { result ≡ service_checked services.now xid bytes.now }
{
    let Some(program) = word_at_place(bytes, 12) else {
        return Ok(());
    };
    check_numbers(
        service_of_program(services, program).copied(),
        xid,
        word_at_place(bytes, 16),
        word_at_place(bytes, 20),
    )
}

// The first service of a program.
#[tactic(auto, unfolding(crate::specs::Messages::service_of))]
fn service_of_program(services: &[Service], program: u32) -> Option<&Service>
    ensures { option_copied result ≡ service_of services.now program }
{
    services.iter().find(|s| s.program == program)
}

fn check_numbers(
    service: Option<Service>,
    xid: u32,
    version: Option<u32>,
    procedure: Option<u32>,
) -> Result<(), CallFault>
    ensures { result ≡ served_by service xid version procedure }
{
    let Some(service) = service else {
        return Err(CallFault::Program { xid });
    };
    if version.is_some_and(|v| v != service.version) {
        return Err(CallFault::Version {
            xid,
            low: service.version,
            high: service.version,
        });
    }
    if procedure.is_some_and(|p| p > service.greatest) {
        return Err(CallFault::Proc { xid });
    }
    Ok(())
}

// The head, where all of the header can be read.
#[tactic(auto, unfolding(crate::specs::Messages::head_checked))]
fn head_of_call(
    alloc: Global,
    bytes: &[u8],
    xid: u32,
    caller: Option<Caller<'_>>,
) -> Result<CallHead, CallFault>
    ensures { Answers result (head_checked xid (option_map (λ c. record { principal = c.principal; machine = c.machine.now }) caller.entry) bytes.now) }
{
    let mut cursor = Cursor::new(bytes);
    let header = match take_header(&mut cursor) {
        Ok(header) => header,
        Err(fault) => {
            return Err(CallFault::Garbage {
                xid,
                at: fault.place(),
            });
        }
    };
    let Some(caller) = caller else {
        return Err(CallFault::Auth { xid });
    };
    Ok(CallHead {
        xid,
        program: header.program,
        version: header.version,
        procedure: header.procedure,
        principal: caller.principal,
        machine: copy_of_name(alloc, caller.machine)?,
        body: cursor.place(),
    })
}

// A copy of a name. Where the name is empty it takes no memory.
fn copy_of_name(alloc: Global, name: &[u8]) -> Result<Bytes, Memory>
    ensures value { IfOk result (λ bytes. bytes ≡ name.now) }
    ensures memory { OnErr result (0 < length name.now) }
{
    if name.is_empty() {
        return Ok(Bytes::new(alloc));
    }
    Bytes::from_slice(alloc, name)
}
