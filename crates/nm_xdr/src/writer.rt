//! Putting items one after the other.

ghost use Rattle.std.specs.Prelude.{◌≡◌, ◌+◌, ◌<◌, ◌≤◌, ◌^◌, [], ◌++◌, length, take, drop, OnOk, OnErr};
ghost use Rattle.std.specs.List.{flat_map};
ghost use Rattle.nm_xdr.specs.Items.{word, hyper, flag, fixed, opaque, counted};
ghost use Rattle.nm_xdr.specs.Places.{Puts};

use crate::Memory;
use crate::cursor::padding_after;
use byteorder::{BigEndian, ByteOrder};
use std::alloc::Global;
use std::marker::Model;

/// Bytes behind which items are put, one after the other.
///
/// Contracts see the bytes that were put so far. A put that answers Memory leaves them as they were.
#[derive(Drop)]
pub struct Writer {
    bytes: Vec<u8>,
}

impl Model for Writer {
    ghost use Rattle.std.specs.Prelude.{ℕ, List};

    ghost Value = { List ℕ };

    ghost view = { λ w. w.bytes.items };
}

impl Writer {
    /// No bytes yet. Those to come are kept by this allocator.
    pub fn new(alloc: Global) -> Writer
        ensures { result ≡ [] }
    {
        Writer {
            bytes: Vec::new(alloc),
        }
    }

    /// All bytes that were put.
    pub fn finish(self) -> Vec<u8>
        ensures { result.items ≡ self }
    {
        let Writer { bytes } = self;
        bytes
    }

    /// How many bytes were put.
    pub fn len(&self) -> usize
        ensures { result ≡ length self.now }
    {
        self.bytes.len()
    }

    /// Makes room for so many more bytes at once, so that putting them moves nothing. What was put stays, also
    /// where there is no memory for them.
    pub fn reserve(&mut self, more: usize) -> Result<(), Memory>
        ensures { self.new ≡ self.old }
    {
        Ok(self.bytes.reserve(more)?)
    }

    /// Keeps the first `len` bytes: a put of several items that met want of memory goes back so.
    pub fn cut_back(&mut self, len: usize)
        ensures { self.new ≡ take len self.old }
    {
        self.bytes.truncate(len);
    }

    /// Puts bytes as they are.
    ///
    /// Memory where there is none for them.
    pub fn put_bytes(&mut self, b: &[u8]) -> Result<(), Memory>
        ensures ok { OnOk result (self.new ≡ self.old ++ b.now) }
        ensures err { OnErr result (self.new ≡ self.old) }
    {
        Ok(self.bytes.extend_from_slice(b)?)
    }

    /// Puts a number as 4 bytes, the highest first (RFC 4506, section 4.2).
    ///
    /// Memory where there is none for them.
    #[tactic(auto, unfolding(crate::specs::Items::word))]
    pub fn put_u32(&mut self, n: u32) -> Result<(), Memory>
        ensures ok { OnOk result (self.new ≡ self.old ++ word n) }
        ensures err { OnErr result (self.new ≡ self.old) }
    {
        let mut item = [0; 4];
        BigEndian::write_u32(&mut item, n);
        self.bytes.extend_from_slice(&item)?;
        Ok(())
    }

    /// Puts a number as 8 bytes, the highest first (RFC 4506, section 4.5).
    ///
    /// Memory where there is none for them.
    #[tactic(auto, unfolding(crate::specs::Items::hyper))]
    pub fn put_u64(&mut self, n: u64) -> Result<(), Memory>
        ensures ok { OnOk result (self.new ≡ self.old ++ hyper n) }
        ensures err { OnErr result (self.new ≡ self.old) }
    {
        let mut item = [0; 8];
        BigEndian::write_u64(&mut item, n);
        self.bytes.extend_from_slice(&item)?;
        Ok(())
    }

    /// Puts a flag as the number 1 or 0 (RFC 4506, section 4.4).
    ///
    /// Memory where there is none for its 4 bytes.
    #[tactic(auto, unfolding(crate::specs::Items::flag))]
    pub fn put_bool(&mut self, b: bool) -> Result<(), Memory>
        ensures ok { OnOk result (self.new ≡ self.old ++ flag b) }
        ensures err { OnErr result (self.new ≡ self.old) }
    {
        self.put_u32(u32::from(b))
    }

    /// Puts bytes, and the 0 to 3 zeros that pad them to a multiple of 4 (RFC 4506, section 4.9).
    ///
    /// Memory where there is none for all of these.
    #[tactic(auto, unfolding(crate::specs::Items::fixed))]
    pub fn put_fixed(&mut self, b: &[u8]) -> Result<(), Memory>
        ensures ok { OnOk result (self.new ≡ self.old ++ fixed b.now) }
        ensures err { OnErr result (self.new ≡ self.old) }
    {
        let padding = padding_after(b.len());
        self.bytes.reserve(b.len() + padding)?;
        self.bytes.extend_from_slice(b)?;
        self.bytes.resize(self.bytes.len() + padding, 0)?;
        Ok(())
    }

    /// Puts the number of bytes, the bytes, and the 0 to 3 zeros that pad them to a multiple of 4 (RFC 4506,
    /// section 4.10). There are fewer than 2^32 of them, since their number is a word.
    ///
    /// Memory where there is none for all of these.
    #[tactic(auto, unfolding(crate::specs::Items::opaque))]
    pub fn put_opaque(&mut self, b: &[u8]) -> Result<(), Memory>
        requires { length b.now < 2 ^ 32 }
        ensures ok { OnOk result (self.new ≡ self.old ++ opaque b.now) }
        ensures err { OnErr result (self.new ≡ self.old) }
    {
        let before = self.bytes.len();
        self.bytes.reserve(b.len() + 7)?;
        self.put_u32(b.len() as u32)?;
        match self.put_fixed(b) {
            Ok(()) => Ok(()),
            Err(memory) => {
                self.bytes.truncate(before);
                Err(memory)
            }
        }
    }

    /// Puts numbers of 4 bytes, one after the other.
    ///
    /// Memory where there is none for all of these.
    pub fn put_numbers(&mut self, numbers: &[u32]) -> Result<(), Memory>
        ensures ok { OnOk result (self.new ≡ self.old ++ flat_map word numbers.now) }
        ensures err { OnErr result (self.new ≡ self.old) }
    {
        let before = self.bytes.len();
        match self.put_each(numbers) {
            Ok(()) => Ok(()),
            Err(memory) => {
                self.bytes.truncate(before);
                Err(memory)
            }
        }
    }

    /// Puts the number of words, and the words (RFC 4506, section 4.13). There are fewer than 2^32 of them.
    ///
    /// Memory where there is none for all of these.
    pub fn put_words(&mut self, words: &[u32]) -> Result<(), Memory>
        requires { length words.now < 2 ^ 32 }
        ensures ok { OnOk result (self.new ≡ self.old ++ counted word words.now) }
        ensures err { OnErr result (self.new ≡ self.old) }
    {
        let before = self.bytes.len();
        self.put_u32(words.len() as u32)?;
        match self.put_numbers(words) {
            Ok(()) => Ok(()),
            Err(memory) => {
                self.bytes.truncate(before);
                Err(memory)
            }
        }
    }

    // Numbers, one after the other.
    #[tactic(auto, using(crate::proofs::PutLaws::front_there))]
    fn put_each(&mut self, numbers: &[u32]) -> Result<(), Memory>
        ensures { Puts self.old (flat_map word numbers.now) result self.new }
    {
        for n in numbers {
            self.put_u32(*n)?;
        }
        Ok(())
    }

    /// Puts a number in the place of the 4 bytes from `at` on, high byte first: of what was put there to keep
    /// the place free.
    #[tactic(auto, unfolding(crate::specs::Items::word))]
    pub fn set_u32(&mut self, at: usize, n: u32)
        requires { at + 4 ≤ length self.old }
        ensures { self.new ≡ take at self.old ++ (word n ++ drop (at + 4) self.old) }
    {
        BigEndian::write_u32(&mut self.bytes[at..at + 4], n);
    }

    /// Makes what was put behind the 4 bytes from `at` on a byte string: its length in their place, and behind it
    /// the 0 to 3 zeros that pad it (RFC 4506, section 4.10). So an item whose inside is put item by item needs no
    /// length ahead.
    ///
    /// Memory where there is none for the zeros.
    #[tactic(auto, unfolding(crate::specs::Items::opaque, crate::specs::Items::fixed))]
    pub fn close_opaque(&mut self, at: usize) -> Result<(), Memory>
        requires inside { at + 4 ≤ length self.old }
        requires short { length self.old < at + 4 + 2 ^ 32 }
        ensures ok { OnOk result (self.new ≡ take at self.old ++ opaque (drop (at + 4) self.old)) }
        ensures err { OnErr result (self.new ≡ self.old) }
    {
        let length = self.bytes.len() - at - 4;
        self.bytes
            .resize(self.bytes.len() + padding_after(length), 0)?;
        self.set_u32(at, length as u32);
        Ok(())
    }
}
