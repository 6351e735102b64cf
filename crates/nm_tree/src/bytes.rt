//! The bytes of a file, made anew.
ghost use Rattle.std.specs.Prelude.{◌≡◌, ◌≤◌, ◌+◌, ◌++◌, length, take, drop, min, replicate, IfOk, OnOk};
ghost use Rattle.nm_rules.specs.Contents.{part, sized, written, size_limit, transfer_limit};
ghost use Rattle.nm_tree.specs.Answers.{read_part};

use nm_types::{Bytes, Memory};
use std::alloc::Global;

/// So many bytes, or as many as there are.
pub fn front(bytes: &[u8], count: usize) -> &[u8]
    ensures { result.now ≡ take count bytes.now }
{
    if count < bytes.len() {
        bytes.split_at(count).0
    } else {
        bytes
    }
}

/// The bytes behind so many.
pub fn behind(bytes: &[u8], count: usize) -> &[u8]
    ensures { result.now ≡ drop count bytes.now }
{
    if count < bytes.len() {
        bytes.split_at(count).1
    } else {
        &[]
    }
}

// Adds these bytes.
fn append(out: &mut Bytes, bytes: &[u8]) -> Result<(), Memory>
    ensures { OnOk result (out.new ≡ out.old ++ bytes.now) }
{
    for byte in bytes {
        out.push(*byte)?;
    }
    Ok(())
}

// Adds so many zeros.
fn fill(out: &mut Bytes, count: usize) -> Result<(), Memory>
    ensures { OnOk result (out.new ≡ out.old ++ replicate count 0) }
{
    for _ in 0..count {
        out.push(0)?;
    }
    Ok(())
}

/// As long as that: cut, or filled up with 0.
#[tactic(auto, unfolding(nm_rules::specs::Contents::sized))]
pub fn sized_bytes(alloc: Global, bytes: &[u8], size: usize) -> Result<Bytes, Memory>
    ensures { IfOk result (λ it. it ≡ sized size bytes.now) }
{
    let mut out = Bytes::from_slice(alloc, front(bytes, size))?;
    fill(&mut out, size.saturating_sub(bytes.len()))?;
    Ok(out)
}

/// With other bytes from an offset on. Bytes that were never written are 0.
#[tactic(auto, unfolding(nm_rules::specs::Contents::written))]
pub fn written_bytes(
    alloc: Global,
    bytes: &[u8],
    offset: usize,
    new: &[u8],
) -> Result<Bytes, Memory>
    requires { offset + length new.now ≤ size_limit }

    ensures { IfOk result (λ it. it ≡ written offset new.now bytes.now) }
{
    let mut out = sized_bytes(alloc, bytes, offset)?;
    append(&mut out, new)?;
    append(&mut out, behind(bytes, offset + new.len()))?;
    Ok(out)
}

// At most 64 KiB from an offset on, or as many as there are.
#[tactic(auto, unfolding(nm_rules::specs::Contents::part))]
fn part_of(bytes: &[u8], offset: u64, count: u32) -> &[u8]
    ensures { result.now ≡ part offset (min count transfer_limit) bytes.now }
{
    front(behind(bytes, offset as usize), count.min(65_536) as usize)
}

/// What a read gives: at most 64 KiB, and whether the file ends with them.
#[tactic(auto, using(crate::proofs::CallLemmas::ends_there), unfolding(crate::specs::Answers::read_part))]
pub fn read_bytes(
    alloc: Global,
    bytes: &[u8],
    offset: u64,
    count: u32,
) -> Result<(Bytes, bool), Memory>
    ensures { IfOk result (λ read. read ≡ read_part offset count bytes.now) }
{
    let part = part_of(bytes, offset, count);
    let ends = (bytes.len() as u64).saturating_sub(part.len() as u64) <= offset;
    Ok((Bytes::from_slice(alloc, part)?, ends))
}
