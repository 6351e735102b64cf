//! The records of a whole stream that came in pieces.

ghost use Rattle.std.specs.Prelude.{◌≡◌, ℕ, ◌++◌, List, map, IfOk, IfErr, OnOk};
ghost use Rattle.std.specs.List.{flat_map};
ghost use Rattle.nm_rpc.specs.Stream.{Splits, IsTooLong};
ghost use Rattle.nm_rpc.specs.Feeding.{fresh, fed, refusal_of, IsRefusal};

use crate::fault::RecordFault;
use crate::records::Records;
use nm_types::Memory;
use std::alloc::Global;

/// The records of a stream that came in these pieces. A record of it may have `limit` bytes.
///
/// TooLong exactly where the stream is too long. Memory where there is none for the records.
pub fn split_records(
    alloc: Global,
    limit: u32,
    pieces: &[Vec<u8>],
) -> Result<Vec<Vec<u8>>, RecordFault>
    // Up to a rest that is less than a record, the stream is these records.
    ensures split { IfOk result (λ records. (rest : List ℕ)
        × Splits (flat_map (λ p. p.items) pieces.now) (map (λ r. r.items) records.items) rest) }

    // No others are, so it doesn't matter how it was cut.
    ensures only { IfOk result (λ records. (others : List (List ℕ)) (rest : List ℕ)
        → Splits (flat_map (λ p. p.items) pieces.now) others rest → map (λ r. r.items) records.items ≡ others) }
    ensures fits { OnOk result ((records : List (List ℕ)) (got : ℕ)
        → IsTooLong limit (flat_map (λ p. p.items) pieces.now) records got → ⊥) }
    ensures refused { IfErr result (λ e. IsRefusal limit (flat_map (λ p. p.items) pieces.now) e) }
{
    let records = feed_all(alloc, limit, pieces)?;
    Ok(take_all(alloc, records)?)
}

// What is held after all pieces.
fn feed_all(alloc: Global, limit: u32, pieces: &[Vec<u8>]) -> Result<Records, RecordFault>
    ensures held { IfOk result (λ records. (records ≡ fed (fresh limit) (flat_map (λ p. p.items) pieces.now))
        × (refusal_of records.phase ≡ None)) }
    ensures refused { IfErr result (λ e. IsRefusal limit (flat_map (λ p. p.items) pieces.now) e) }
{
    let mut records = Records::new(alloc, limit);
    for piece in pieces {
        records.feed(piece)?;
    }
    Ok(records)
}

// The records that wait.
fn take_all(alloc: Global, mut records: Records) -> Result<Vec<Vec<u8>>, Memory>
    ensures { IfOk result (λ whole. map (λ r. r.items) whole.items ≡ records.waiting) }
{
    let mut whole = Vec::new(alloc);
    while let Some(record) = records.next() {
        whole.push(record)?;
    }
    Ok(whole)
}
