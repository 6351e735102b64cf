//! The results of COMPOUND (RFC 7530, 16), read of bytes and written again.
use crate::Fault;
use crate::text::{at, bytes_of, put_again, put_bytes};
use nm_results::{OpResult, ResultValue, Results, read_results, write_results};
use std::alloc::Global;

/// The answer to `results HEX`, which tells the status of the whole, the tag, each result, and what is written of them; and to
/// `results-end HEX`, which tells how many results there are, the status, how many entries each READDIR has, and whether the same
/// is written.
pub(crate) fn line(alloc: Global, words: &[&str], out: &mut String) -> Result<(), Fault> {
    let whole = at(words, 0)? == "results";
    let bytes = bytes_of(alloc, at(words, 1)?)?;
    put_read(alloc, &bytes, whole, out)?;
    match rewritten(alloc, &bytes)? {
        Some(written) => put_written(&bytes, &written, whole, out),
        None => Ok(()),
    }
}

fn put_written(bytes: &[u8], written: &[u8], whole: bool, out: &mut String) -> Result<(), Fault> {
    if whole || bytes == written {
        return put_again(out, bytes, written);
    }
    Ok(out.push_str(" other")?)
}

fn put_read(alloc: Global, bytes: &[u8], whole: bool, out: &mut String) -> Result<(), Fault> {
    match read_results(alloc, bytes) {
        Ok(results) => {
            if whole {
                put_whole(&results, out)
            } else {
                put_outline(&results, out)
            }
        }
        Err(fault) => Ok(write!(out, "fault {fault:?}")?),
    }
}

fn put_whole(results: &Results, out: &mut String) -> Result<(), Fault> {
    write!(out, "{:?} tag ", results.status)?;
    put_bytes(out, results.tag.items())?;
    put_items(results.items.items(), out)
}

fn put_items(items: &[OpResult], out: &mut String) -> Result<(), Fault> {
    for item in items {
        write!(out, " {} {:?} {:?}", item.op, item.status, item.value)?;
    }
    Ok(())
}

fn put_outline(results: &Results, out: &mut String) -> Result<(), Fault> {
    let items = results.items.items();
    write!(out, "{} {:?}", items.len(), results.status)?;
    put_entries(items, out)
}

fn put_entries(items: &[OpResult], out: &mut String) -> Result<(), Fault> {
    for item in items {
        if let ResultValue::ReadDir(dir) = &item.value {
            write!(out, " entries {}", dir.entries.items().len())?;
        }
    }
    Ok(())
}

// What is written of results that are read.
#[tactic(auto, using(nm_results::proofs::WrittenLaws::read_fits))]
fn rewritten(alloc: Global, bytes: &[u8]) -> Result<Option<Vec<u8>>, Fault> {
    let results = match read_results(alloc, bytes) {
        Ok(results) => results,
        Err(_) => return Ok(None),
    };
    Ok(Some(write_results(alloc, &results)?))
}
