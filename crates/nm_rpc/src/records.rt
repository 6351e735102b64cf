//! Records out of a stream's bytes, and a message as a record.

ghost use Rattle.std.specs.Prelude.{◌≡◌, ℕ, ◌+◌, ◌-◌, ◌<◌, ◌≤◌, ◌^◌, List, [], ◌∷◌, ◌++◌, length, take, drop, Some, Err, option_map, IfOk, OnOk, OnErr};
ghost use Rattle.nm_xdr.specs.Items.{word};
ghost use Rattle.nm_rpc.specs.Stream.{IsSpellingOf};
ghost use Rattle.nm_rpc.specs.Feeding.{fresh, settled, opened, grown, taken_in, fed, IsAfter, refusal_of, Feeds, counted, Gives};
ghost use Rattle.nm_rpc.specs.Kept.{IsHeader, IsKept, back_to};
ghost use Rattle.nm_rpc.specs.declared.fault.RecordFault.TheVariants.{TooLong};
ghost use Rattle.std.specs.Option.{option_to_list};
ghost use Rattle.nm_rpc.specs.declared.phase.Phase.TheVariants.{Header};

use crate::fault::RecordFault;
use crate::joined::Joined;
use crate::phase::Phase;
use nm_types::Memory;
use nm_xdr::Writer;
use std::alloc::Global;
use std::collections::VecDeque;
use std::marker::Model;

/// The number of a header whose top bit alone is set: the last fragment of its record, with no bytes.
const LAST: u32 = 0x8000_0000;

/// How many bytes a header has.
const HEADER: usize = 4;

/// The records of a stream (RFC 5531, section 11), which is fed in pieces of any sizes.
///
/// Contracts see the limit, the records that wait to be given, what has come of the next one, and what the
/// next byte belongs to.
#[derive(Drop)]
pub struct Records {
    limit: u32,
    waiting: VecDeque<Joined>,
    partial: Joined,
    phase: Phase,
}

impl Model for Records {
    ghost use Rattle.nm_rpc.specs.Feeding.{RecordsNow};
    ghost use Rattle.nm_rpc.specs.Kept.{IsKept};

    ghost Value = { RecordsNow };

    ghost view = { λ r. record { limit = r.limit; waiting = r.waiting.items; partial = r.partial; phase = r.phase } };

    ghost invariant = { λ r. IsKept r.limit r.partial r.phase };
}

// Where a feed began: how many records were waiting, how many bytes of the next had come, and what the next
// byte belonged to.
#[derive(Clone, Copy)]
struct Mark {
    waiting: usize,
    partial: usize,
    phase: Phase,
}

impl Records {
    /// A stream before its first byte. A record of it may have `limit` bytes.
    pub fn new(alloc: Global, limit: u32) -> Records
        ensures { result ≡ fresh limit }
    {
        Records {
            limit,
            waiting: VecDeque::new(alloc),
            partial: Joined::new(alloc),
            phase: Phase::Header { number: 0, seen: 0 },
        }
    }

    /// Takes the next bytes of the stream.
    ///
    /// TooLong exactly where a record's fragments so far, with the one that its last header announces, add up
    /// past the limit. Every later feed answers the same. Memory where there is none for what the piece
    /// adds: then everything is as it was.
    #[tactic(auto, using(crate::proofs::WholeLaws::feeds_after))]
    pub fn feed(&mut self, piece: &[u8]) -> Result<(), RecordFault>
        ensures fed { Feeds self.old piece.now result self.new }

        // What is held is of the whole stream so far, however it was cut.
        ensures stream { (stream : List ℕ) (given : List (List ℕ)) → IsAfter stream given self.old
            → IsAfter (stream ++ counted piece.now result) given self.new }
        ensures again { (got : ℕ) → refusal_of self.old.phase ≡ Some got
            → (result ≡ Err (TooLong got)) × (self.new ≡ self.old) }
    {
        self.take_or_stay(piece)
    }

    /// The next record that is whole, None where none is waiting.
    pub fn next(&mut self) -> Option<Vec<u8>>
        ensures given { Gives self.old (option_map (λ r. r.items) result) self.new }
        ensures stream { (stream : List ℕ) (given : List (List ℕ)) → IsAfter stream given self.old
            → IsAfter stream (given ++ option_to_list (option_map (λ r. r.items) result)) self.new }
    {
        self.pop()
    }

    // The first record that waits.
    fn pop(&mut self) -> Option<Vec<u8>>
        ensures { Gives self.old (option_map (λ r. r.items) result) self.new }
    {
        match self.waiting.pop_front() {
            Some(record) => Some(record.into_bytes()),
            None => None,
        }
    }

    // Takes a piece, or where there is no memory for it leaves everything as it was.
    #[tactic(auto, using(crate::proofs::BackLaws::back_fed, crate::proofs::FeedLaws::stopped_fed))]
    fn take_or_stay(&mut self, piece: &[u8]) -> Result<(), RecordFault>
        ensures fed { Feeds self.old piece.now result self.new }
        ensures again { (got : ℕ) → refusal_of self.old.phase ≡ Some got
            → (result ≡ Err (TooLong got)) × (self.new ≡ self.old) }
    {
        let mark = Mark {
            waiting: self.waiting.len(),
            partial: self.partial.len(),
            phase: self.phase,
        };
        if let Phase::TooLong { got } = mark.phase {
            return Err(RecordFault::TooLong { got });
        }
        if let Err(Memory) = self.take(piece) {
            self.go_back(mark);
            return Err(RecordFault::Memory);
        }
        match self.phase {
            Phase::TooLong { got } => Err(RecordFault::TooLong { got }),
            _ => Ok(()),
        }
    }

    // Takes the bytes of a piece, or those before the first for which there is no memory.
    #[tactic(auto, using(crate::proofs::FeedLaws::next_fed), unfolding(crate::specs::Feeding::fed))]
    fn take(&mut self, piece: &[u8]) -> Result<(), Memory>
        ensures ok { OnOk result (self.new ≡ fed self.old piece.now) }
        ensures err { OnErr result ((n : ℕ) × (self.new ≡ fed self.old (take n piece.now))) }
    {
        let mut at = 0;
        while at < piece.len() {
            let (_, rest) = piece.split_at(at);
            at += self.step(rest)?;
        }
        Ok(())
    }

    // Takes the bytes at the front of a piece that belong together, and says how many they are.
    #[tactic(auto, using(crate::proofs::FeedLaws::header_fed, crate::proofs::FeedLaws::body_front_fed, crate::proofs::FeedLaws::stopped_fed))]
    fn step(&mut self, piece: &[u8]) -> Result<usize, Memory>
        requires { 0 < length piece.now }
        ensures fed { IfOk result (λ n. self.new ≡ fed self.old (take n piece.now)) }
        ensures some { IfOk result (λ n. 0 < n) }
        ensures within { IfOk result (λ n. n ≤ length piece.now) }
        ensures err { OnErr result (self.new ≡ self.old) }
    {
        match self.phase {
            Phase::Header { number, seen } => {
                self.take_header(number, seen, piece[0])?;
                Ok(1)
            }
            Phase::Body { left, last } => {
                let n = piece.len().min(left as usize);
                self.settle(&piece[..n], left - n as u32, last)?;
                Ok(n)
            }
            Phase::TooLong { got: _ } => Ok(piece.len()),
        }
    }

    // Takes a byte of a header.
    fn take_header(&mut self, number: u32, seen: u8, byte: u8) -> Result<(), Memory>
        requires { IsHeader number seen }
        ensures ok { OnOk result (self.new ≡ taken_in self.old byte (Header number seen)) }
        ensures err { OnErr result (self.new ≡ self.old) }
    {
        let read = number * 256 + u32::from(byte);
        if seen == 3 {
            return self.open(read);
        }
        self.phase = Phase::Header {
            number: read,
            seen: seen + 1,
        };
        Ok(())
    }

    // Begins the fragment of a header, where its record has room for it.
    #[tactic(auto, unfolding(crate::specs::Feeding::opened))]
    fn open(&mut self, header: u32) -> Result<(), Memory>
        ensures ok { OnOk result (self.new ≡ opened self.old header) }
        ensures err { OnErr result (self.new ≡ self.old) }
    {
        let length = header % LAST;
        let got = self.partial.len() as u64 + u64::from(length);
        if u64::from(self.limit) < got {
            self.phase = Phase::TooLong { got };
            return Ok(());
        }
        self.settle(&[], length, header >= LAST)
    }

    // Takes bytes of a fragment of which so many are still to come behind them. Where none are, it has
    // ended, and where it is the last, its record waits.
    #[tactic(auto, unfolding(crate::specs::Feeding::settled))]
    fn settle(&mut self, bytes: &[u8], left: u32, last: bool) -> Result<(), Memory>
        requires { length self.old.partial + length bytes.now + left ≤ self.old.limit }
        ensures ok { OnOk result (self.new ≡ settled (grown self.old bytes.now) left last) }
        ensures err { OnErr result (self.new ≡ self.old) }
    {
        let before = self.partial.len();
        self.partial.append(bytes)?;
        if left > 0 {
            self.phase = Phase::Body { left, last };
            return Ok(());
        }
        if last {
            let whole = self.partial.take();
            if let Err(refused) = self.waiting.push_back(whole) {
                self.partial = refused.value;
                self.partial.truncate(before);
                return Err(Memory);
            }
        }
        self.phase = Phase::Header { number: 0, seen: 0 };
        Ok(())
    }

    // Takes back what came since the mark.
    fn go_back(&mut self, mark: Mark)
        requires { let before = back_to mark.waiting mark.partial mark.phase self.old in IsKept before.limit before.partial before.phase }
        ensures { self.new ≡ back_to mark.waiting mark.partial mark.phase self.old }
    {
        if mark.waiting < self.waiting.len() {
            self.waiting.truncate(mark.waiting + 1);
            if let Some(record) = self.waiting.pop_back() {
                self.partial = record;
            }
        }
        self.partial.truncate(mark.partial);
        self.phase = mark.phase;
    }
}

/// A message as a record of one fragment (RFC 5531, section 11): its header, and its bytes.
///
/// The message has fewer than 2^31 bytes, as many as a fragment may have. Memory where there is none for the
/// record.
#[tactic(auto, using(crate::proofs::SpellingLaws::message_spelled), unfolding(nm_xdr::specs::Items::word))]
pub fn write_records(alloc: Global, message: &[u8]) -> Result<Vec<u8>, Memory>
    requires { length message.now < 2 ^ 31 }
    ensures bytes { IfOk result (λ bytes. bytes.items ≡ word (2147483648 + length message.now) ++ message.now) }
    ensures spelling { IfOk result (λ bytes. IsSpellingOf message.now bytes.items) }
{
    let header = (LAST + message.len() as u32).to_be_bytes();
    let mut bytes = Vec::with_capacity(alloc, HEADER + message.len())?;
    bytes.extend_from_slice(&header)?;
    bytes.extend_from_slice(message)?;
    Ok(bytes)
}

/// Makes what was put behind the 4 bytes from `at` on a record of one fragment (RFC 5531, section 11): its header comes into
/// their place. So a message is put once, behind 4 bytes that are kept free, and isn't moved.
///
/// The message has fewer than 2^31 bytes.
pub fn close_record(writer: &mut Writer, at: usize)
    requires inside { at + 4 ≤ length writer.old }
    requires short { length writer.old < at + 4 + 2 ^ 31 }
    ensures { writer.new ≡ take at writer.old ++ (word (2147483648 + length (drop (at + 4) writer.old)) ++ drop (at + 4) writer.old) }
{
    let length = writer.len() - at - HEADER;
    writer.set_u32(at, LAST + length as u32);
}
