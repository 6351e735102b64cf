//! The kinds of cases, by their first word.
use crate::{
    Fault, args, attrs, callback, kept, result_places, results, rpc_messages, rpc_names,
    rpc_records, rules, xdr,
};
use std::alloc::Global;

/// The answer to a case.
pub(crate) fn line(alloc: Global, words: &[&str], out: &mut String) -> Result<(), Fault> {
    let Some(word) = words.first() else {
        return Err(Fault::NoCase);
    };
    match *word {
        "take" | "read" => xdr::line(alloc, words, out),
        "records" | "halves" | "pieces" | "message" => rpc_records::line(alloc, words, out),
        "call" | "write-call" | "reply" | "refusal" => rpc_messages::line(alloc, words, out),
        "stateid" | "handle" => rpc_names::line(alloc, words, out),
        "bitmap" | "mask" | "supported" | "fattr" | "write-attributes" => attrs::line(
            alloc, words, out,
        ),
        "args" | "args-end" => args::line(alloc, words, out),
        "results" | "results-end" => results::line(alloc, words, out),
        "kept" => kept::line(alloc, words, out),
        "places" => result_places::places(alloc, words, out),
        "result-length" => result_places::length(alloc, words, out),
        "callback-reply" => callback::reply(alloc, words, out),
        "callback" => callback::line(alloc, words, out),
        _ => rules::line(alloc, words, out),
    }
}
