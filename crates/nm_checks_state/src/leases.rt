//! Leases and lists of clients by words, and the same in what is printed.
use crate::fault::Fault;
use crate::text::{append, append_instance, append_number};
use crate::words::{cut, instance, number, small};
use nm_types::{Era, Instance, LeasePass, Memory, ServerNum};
use std::alloc::Global;

/// A server, by `S` and its number.
pub(crate) fn server(word: &[u8]) -> Result<ServerNum, Fault> {
    let [b'S', digits @ ..] = word else {
        return Err(Fault::Word);
    };
    ServerNum::new(small(digits)?).ok_or(Fault::Number)
}

/// These starts of clients.
pub(crate) fn instances(alloc: Global, words: &[&[u8]]) -> Result<Vec<Instance>, Fault> {
    let mut instances = Vec::new(alloc);
    for word in words {
        instances.push(instance(word)?).map_err(Memory::from)?;
    }
    Ok(instances)
}

/// The lease of a start of a client in an era, as `CLIENT:ERA`.
pub(crate) fn lease(word: &[u8]) -> Result<LeasePass, Fault> {
    let (client, era) = cut(word, b':');
    Ok(LeasePass {
        instance: instance(client)?,
        era: Era::new(number(era)?),
    })
}

/// These leases.
pub(crate) fn leases(alloc: Global, words: &[&[u8]]) -> Result<Vec<LeasePass>, Fault> {
    let mut leases = Vec::new(alloc);
    for word in words {
        leases.push(lease(word)?).map_err(Memory::from)?;
    }
    Ok(leases)
}

/// Writes words and a number behind them.
pub(crate) fn append_counted(out: &mut Vec<u8>, words: &[u8], n: u64) -> Result<(), Memory> {
    append(out, words)?;
    append_number(out, n)
}

/// Writes a blank and a client, with its principal where that isn't user 0 of AUTH_SYS.
pub(crate) fn append_client(out: &mut Vec<u8>, client: &Instance) -> Result<(), Memory> {
    append(out, b" ")?;
    append_instance(out, client)?;
    let its = client.principal();
    if its.flavor == 1 && its.uid == 0 {
        return Ok(());
    }
    append_counted(out, b"/", its.flavor as u64)?;
    append_counted(out, b"/", its.uid as u64)
}

/// Writes a client and the era of its lease.
pub(crate) fn append_lease(out: &mut Vec<u8>, client: &Instance, era: Era) -> Result<(), Memory> {
    append_client(out, client)?;
    append_counted(out, b":", era.number())
}
