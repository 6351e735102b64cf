//! Where results stand among the bytes of results, and how long they are as they are written.
use crate::Fault;
use crate::text::{at, bytes_of, list_of, short};
use nm_results::{
    OpResult, ResultValue, place_of_result, read_results, result_length, results_length,
};
use nm_types::OpStatus;
use std::alloc::Global;

/// The answer to `places HEX`: how many bytes are written of the results, and of each; and the place at which each begins, with
/// that behind the last one, and that of one more.
pub(crate) fn places(alloc: Global, words: &[&str], out: &mut String) -> Result<(), Fault> {
    let bytes = bytes_of(alloc, at(words, 1)?)?;
    match read_results(alloc, &bytes) {
        Ok(results) => {
            put_number(results_length(&results), out)?;
            put_lengths(results.items.items(), out)?;
            put_places(alloc, &bytes, results.items.items().len(), out)
        }
        Err(fault) => Ok(write!(out, "fault {fault:?}")?),
    }
}

fn put_lengths(items: &[OpResult], out: &mut String) -> Result<(), Fault> {
    out.push_str(" long")?;
    for item in items {
        out.push(' ')?;
        put_number(result_length(item), out)?;
    }
    Ok(())
}

fn put_places(alloc: Global, bytes: &[u8], count: usize, out: &mut String) -> Result<(), Fault> {
    out.push_str(" at")?;
    for index in 0..count.saturating_add(2) {
        out.push(' ')?;
        put_number(place_of_result(alloc, bytes, index)?, out)?;
    }
    Ok(())
}

fn put_number(number: Option<usize>, out: &mut String) -> Result<(), Fault> {
    match number {
        Some(number) => Ok(write!(out, "{number}")?),
        None => Ok(out.push_str("none")?),
    }
}

/// The answer to `result-length OP STATUS HEX`: how many bytes are written of a result of this operation with this status that tells a
/// filehandle.
pub(crate) fn length(alloc: Global, words: &[&str], out: &mut String) -> Result<(), Fault> {
    let Some(status) = OpStatus::read(short(at(words, 2)?)?) else {
        return Err(Fault::NoCase);
    };
    let result = OpResult {
        op: short(at(words, 1)?)?,
        status,
        value: ResultValue::GetFh(list_of(alloc, at(words, 3)?)?),
    };
    put_number(result_length(&result), out)
}
