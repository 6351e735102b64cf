//! The outside: sources of bytes and sinks for them, which may fail and count how often they did.
ghost use Rattle.std.specs.Prelude.{◌≡◌, ◌+◌, ◌^◌, ◌≤◌, ◌<◌, ◌-◌, min, ℕ, Bool, List, Option, ◌||◌, length, vec_len, take, IfOk, OnOk, OnErr, IfSome, IsTrue, IsErrOf};
ghost use Rattle.nm_script.specs.Outside.{behind, with_more, NoneLeft, gave_end, HasRisen, TookPart, WrotePart};
ghost use Rattle.nm_script.specs.declared.outside.ReadAllFault.TheVariants.{Failed as SourceFailed, Memory as OutOfMemory};

use std::alloc::{AllocError, Global};

/// A call of a source or of a sink failed, and the object's count of faults has risen.
#[derive(Clone, Copy, Debug)]
pub struct Failed;

/// Where bytes come from.
pub trait Source {
    /// The bytes that are still to be read, where the source tells them.
    ghost left: { Self → Option (List ℕ) };

    /// Whether a read has given the end.
    ghost ended: { Self → Bool };

    /// How often the source has failed.
    ghost faults: { Self → ℕ };

    /// Reads some bytes into the front of `buf`, and says how many. No byte for a buffer that has room is the end of
    /// the input. `Failed` only where the source failed; nothing is then taken from it.
    fn read(&mut self, buf: &mut [u8]) -> Result<usize, Failed>
        ensures room { IfOk result (λ n. n ≤ length buf.new) }
        ensures gives { IfOk result (λ n. left self.old ≡ behind (take n buf.new) (left self.new)) }
        ensures keeps { OnErr result (left self.new ≡ left self.old) }
        ensures whether_ended { ended self.new ≡ (ended self.old || gave_end result (length buf.new)) }
        ensures end { IsTrue (gave_end result (length buf.new)) → NoneLeft (left self.new) }
        ensures failed { OnErr result (HasRisen (faults self.old) (faults self.new)) }
        ensures count { faults self.old ≤ faults self.new };
}

/// Where bytes go.
pub trait Sink {
    /// The bytes that it has taken, where the sink tells them.
    ghost held: { Self → Option (List ℕ) };

    /// How often the sink has failed.
    ghost faults: { Self → ℕ };

    /// Takes some bytes from the front of these, and says how many: at least one, where there are any. `Failed` only
    /// where the sink failed; it then took nothing.
    fn write(&mut self, bytes: &[u8]) -> Result<usize, Failed>
        ensures room { IfOk result (λ n. n ≤ length bytes.now) }
        ensures progress { IfOk result (λ n. 0 < length bytes.now → 0 < n) }
        ensures takes { IfOk result (λ n. held self.new ≡ with_more (held self.old) (take n bytes.now)) }
        ensures keeps { OnErr result (held self.new ≡ held self.old) }
        ensures failed { OnErr result (HasRisen (faults self.old) (faults self.new)) }
        ensures count { faults self.old ≤ faults self.new };
}

/// Why a source was not read.
#[derive(Clone, Copy, Debug)]
pub enum ReadAllFault {
    /// The source failed, and its count of faults has risen.
    Failed,
    /// An allocation failed.
    Memory,
}

impl From<Failed> for ReadAllFault {
    ghost from_gives = { λ _ fault. fault ≡ SourceFailed };

    fn from(_: Failed) -> Self {
        ReadAllFault::Failed
    }
}

impl From<AllocError> for ReadAllFault {
    ghost from_gives = { λ _ fault. fault ≡ OutOfMemory };

    fn from(_: AllocError) -> Self {
        ReadAllFault::Memory
    }
}

// Room for one read.
fn room_for_a_read(alloc: Global) -> Result<Vec<u8>, AllocError>
    ensures { IfOk result (λ buffer. 0 < vec_len buffer) }
{
    vec![in alloc; 0; 65536]
}

/// Reads a source to its end, or until it gave one byte more than `most`.
///
/// `Failed` only where the source failed, and `Memory` where an allocation did. Some bytes may then be taken from the
/// source's front.
#[tactic(auto, using(crate::proofs::OutsideLemmas::next_read, crate::proofs::OutsideLemmas::took_both, crate::proofs::OutsideLemmas::whole_is_front, crate::proofs::OutsideLemmas::full_is_front))]
pub fn read_all<S: Source>(
    alloc: Global,
    source: &mut S,
    most: usize,
) -> Result<Vec<u8>, ReadAllFault>
    ensures gives { IfOk result (λ text. S.left source.old ≡ behind text.items (S.left source.new)) }
    ensures front { IfOk result (λ text. IfSome (S.left source.old) (λ left. text.items ≡ take (most + 1) left)) }
    ensures ended { IfOk result (λ text. length text.items ≤ most → IsTrue (S.ended source.new)) }
    ensures whole { IfOk result (λ text. length text.items ≤ most → NoneLeft (S.left source.new)) }
    ensures within { IfOk result (λ text. length text.items ≤ most + 1) }
    ensures part { OnErr result (TookPart (S.left source.old) (S.left source.new)) }
    ensures failed { IsErrOf result SourceFailed → HasRisen (S.faults source.old) (S.faults source.new) }
    ensures count { S.faults source.old ≤ S.faults source.new }
{
    let mut buffer = room_for_a_read(alloc)?;
    let mut text = Vec::new(alloc);
    while text.len() <= most {
        let room = (most - text.len()).min(buffer.len() - 1) + 1;
        let (front, _) = buffer.split_at_mut(room);
        let n = source.read(front)?;
        if n == 0 {
            return Ok(text);
        }
        text.extend_from_slice(&front[..n])?;
    }
    Ok(text)
}

/// Writes all these bytes. `Failed` only where the sink failed; a part of them, from the first on, is then written.
#[tactic(auto, using(crate::proofs::OutsideLemmas::next_write))]
pub fn write_all<K: Sink>(sink: &mut K, bytes: &[u8]) -> Result<(), Failed>
    ensures wrote { OnOk result (K.held sink.new ≡ with_more (K.held sink.old) bytes.now) }
    ensures part { OnErr result (WrotePart (K.held sink.old) (K.held sink.new) bytes.now) }
    ensures failed { OnErr result (HasRisen (K.faults sink.old) (K.faults sink.new)) }
    ensures count { K.faults sink.old ≤ K.faults sink.new }
{
    let mut done = 0;
    while done < bytes.len() {
        let (_, rest) = bytes.split_at(done);
        done += sink.write(rest)?;
    }
    Ok(())
}
