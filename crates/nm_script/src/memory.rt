//! A source and a sink in memory: they give and take few bytes at a time, and fail at the calls that they are told.
ghost use Rattle.std.specs.Prelude.{◌≡◌, ◌≤◌, ◌<◌, false, Some, [], drop, take, length, vec_len, IfOk};
ghost use Rattle.std.specs.Bool.{OnTrue};
ghost use Rattle.nm_script.specs.Outside.{HasRisen};

use crate::{Failed, Sink, Source};
use nm_types::Memory;
use std::alloc::Global;

// The calls that are to fail, counted from 1, and how many came and how many failed.
#[derive(Drop)]
struct Faults {
    failing: Vec<u64>,
    calls: u64,
    count: u64,
}

impl Faults {
    fn new(alloc: Global, failing: &[u64]) -> Result<Faults, Memory>
        ensures { IfOk result (λ faults. faults.count ≡ 0) }
    {
        Ok(Faults {
            failing: failing.to_vec(alloc)?,
            calls: 0,
            count: 0,
        })
    }

    // Counts a failure. The count stands still at its type's end.
    fn count_one(&mut self)
        ensures risen { HasRisen self.old.count self.new.count }
        ensures count { self.old.count ≤ self.new.count }
    {
        self.count = self.count.saturating_add(1);
    }

    // Whether the call that comes now is to fail, which it counts.
    fn next_fails(&mut self) -> bool
        ensures risen { OnTrue result (HasRisen self.old.count self.new.count) }
        ensures count { self.old.count ≤ self.new.count }
    {
        self.calls = self.calls.saturating_add(1);
        let fails = self.failing.contains(&self.calls);
        if fails {
            self.count_one();
        }
        fails
    }
}

/// Bytes that are read from memory, a piece at a time.
#[derive(Drop)]
pub struct MemorySource {
    bytes: Vec<u8>,
    at: usize,
    piece: usize,
    ended: bool,
    faults: Faults,
    ghost within: { at ≤ vec_len bytes },
}

impl MemorySource {
    /// A source of these bytes. A read gives at most `piece` of them, 0 standing for 1. The reads whose numbers, from
    /// 1, are in `failing` fail. `Memory` where an allocation failed.
    pub fn new(
        alloc: Global,
        bytes: &[u8],
        piece: usize,
        failing: &[u64],
    ) -> Result<MemorySource, Memory>
        ensures left { IfOk result (λ source. ⟦<MemorySource as Source>⟧.left source ≡ Some bytes.now) }
        ensures ended { IfOk result (λ source. ⟦<MemorySource as Source>⟧.ended source ≡ false) }
        ensures faults { IfOk result (λ source. ⟦<MemorySource as Source>⟧.faults source ≡ 0) }
    {
        Ok(MemorySource {
            bytes: bytes.to_vec(alloc)?,
            at: 0,
            piece,
            ended: false,
            faults: Faults::new(alloc, failing)?,
        })
    }

    /// How many reads failed.
    pub fn faults(&self) -> u64
        ensures { result ≡ ⟦<MemorySource as Source>⟧.faults self.now }
    {
        self.faults.count
    }
}

// Copies bytes from the front of `left` to the front of `buf`: as many as there are, fit and are allowed.
fn copy_front(left: &[u8], buf: &mut [u8], most: usize) -> usize
    ensures copied { take result buf.new ≡ take result left.now }
    ensures there { result ≤ length left.now }
    ensures fits { result ≤ length buf.new }
    ensures some { 0 < length left.now → 0 < length buf.new → 0 < most → 0 < result }
{
    let n = left.len().min(buf.len()).min(most);
    buf[..n].copy_from_slice(&left[..n]);
    n
}

impl Source for MemorySource {
    ghost left = { λ s. Some (drop s.at s.bytes.items) };

    ghost ended = { λ s. s.ended };

    ghost faults = { λ s. s.faults.count };

    #[tactic(auto, using(crate::proofs::OutsideLemmas::read_splits))]
    fn read(&mut self, buf: &mut [u8]) -> Result<usize, Failed> {
        if self.faults.next_fails() {
            return Err(Failed);
        }
        let (_, left) = self.bytes.split_at(self.at);
        let n = copy_front(left, buf, self.piece.max(1));
        self.at += n;
        self.ended |= n == 0 && !buf.is_empty();
        Ok(n)
    }
}

/// What was written to memory, a piece at a time.
#[derive(Drop)]
pub struct MemorySink {
    held: Vec<u8>,
    piece: usize,
    faults: Faults,
}

impl MemorySink {
    /// A sink that holds nothing yet. A write takes at most `piece` bytes, 0 standing for 1. The writes whose numbers,
    /// from 1, are in `failing` fail, and so does a write for which an allocation fails. `Memory` where an allocation
    /// failed.
    pub fn new(alloc: Global, piece: usize, failing: &[u64]) -> Result<MemorySink, Memory>
        ensures held { IfOk result (λ sink. ⟦<MemorySink as Sink>⟧.held sink ≡ Some []) }
        ensures faults { IfOk result (λ sink. ⟦<MemorySink as Sink>⟧.faults sink ≡ 0) }
    {
        Ok(MemorySink {
            held: Vec::new(alloc),
            piece,
            faults: Faults::new(alloc, failing)?,
        })
    }

    /// The bytes that it took.
    pub fn held(&self) -> &[u8]
        ensures { ⟦<MemorySink as Sink>⟧.held self.now ≡ Some result.now }
    {
        &self.held
    }

    /// How many writes failed.
    pub fn faults(&self) -> u64
        ensures { result ≡ ⟦<MemorySink as Sink>⟧.faults self.now }
    {
        self.faults.count
    }
}

impl Sink for MemorySink {
    ghost held = { λ s. Some s.held.items };

    ghost faults = { λ s. s.faults.count };

    fn write(&mut self, bytes: &[u8]) -> Result<usize, Failed> {
        if self.faults.next_fails() {
            return Err(Failed);
        }
        let n = bytes.len().min(self.piece.max(1));
        if self.held.extend_from_slice(&bytes[..n]).is_err() {
            self.faults.count_one();
            return Err(Failed);
        }
        Ok(n)
    }
}
