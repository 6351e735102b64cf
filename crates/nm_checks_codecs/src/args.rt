//! The arguments of COMPOUND (RFC 7530, 15.2), read of bytes and written again.
use crate::Fault;
use crate::text::{at, bytes_of, put_again, put_bytes};
use nm_args::{Compound, CompoundEnd, Op, read_compound, write_compound};
use std::alloc::Global;

/// The answer to `args HEX`, which tells the tag, the minor version and each operation, and to `args-end HEX`, which tells how many
/// operations there are: then how they end, and what is written of them where that is clean.
pub(crate) fn line(alloc: Global, words: &[&str], out: &mut String) -> Result<(), Fault> {
    let whole = at(words, 0)? == "args";
    let bytes = bytes_of(alloc, at(words, 1)?)?;
    put_read(alloc, &bytes, whole, out)?;
    match rewritten(alloc, &bytes)? {
        Some(written) => put_again(out, &bytes, &written),
        None => Ok(()),
    }
}

fn put_read(alloc: Global, bytes: &[u8], whole: bool, out: &mut String) -> Result<(), Fault> {
    match read_compound(alloc, bytes) {
        Ok(compound) => put_compound(&compound, whole, out),
        Err(fault) => Ok(write!(out, "fault {fault:?}")?),
    }
}

fn put_compound(compound: &Compound, whole: bool, out: &mut String) -> Result<(), Fault> {
    let ops = compound.ops.items();
    if whole {
        write!(out, "minor {} tag ", compound.minor)?;
        put_bytes(out, compound.tag.items())?;
        put_ops(ops, out)?;
    } else {
        write!(out, "{}", ops.len())?;
    }
    Ok(write!(out, " {:?}", compound.end)?)
}

fn put_ops(ops: &[Op], out: &mut String) -> Result<(), Fault> {
    for op in ops {
        write!(out, " {op:?}")?;
    }
    Ok(())
}

// What is written of a compound that is read to a clean end.
#[tactic(auto, using(nm_args::proofs::WholeLaws::compound_clean))]
fn rewritten(alloc: Global, bytes: &[u8]) -> Result<Option<Vec<u8>>, Fault> {
    let compound = match read_compound(alloc, bytes) {
        Ok(compound) => compound,
        Err(_) => return Ok(None),
    };
    match compound.end {
        CompoundEnd::Clean => Ok(Some(write_compound(alloc, &compound)?)),
        _ => Ok(None),
    }
}
