//! Taking items off the front of bytes.

ghost use Rattle.std.specs.Prelude.{◌≡◌, ◌+◌, ◌^◌, ◌≤◌, ◌<◌, ◌==◌, [], not, length, position, IfOk, OnOk, OnErr};
ghost use Rattle.nm_xdr.specs.Fields.{field, pass, rows_at};
ghost use Rattle.nm_xdr.specs.Items.{word_at, hyper_at, flag_at, fixed_at, length_at, opaque_at, bytes_at, only_at, choice_at, words_at, padding_of};
ghost use Rattle.nm_xdr.specs.Places.{after, end_of, Gives, Ends};

use crate::XdrFault;
use byteorder::{BigEndian, ByteOrder};
use std::marker::Model;

/// Bytes from which items are taken, one after the other.
///
/// Contracts see how many bytes were taken, the place, and the bytes that are left. A take that answers a
/// fault leaves both as they were. No take needs memory: what it answers lies in the bytes.
#[derive(Drop)]
pub struct Cursor<'a> {
    rest: &'a [u8],
    place: usize,
}

impl<'a> Model for Cursor<'a> {
    ghost use Rattle.std.specs.Prelude.{ℕ, List, length, ◌+◌, ◌<◌, ◌^◌};
    ghost use Rattle.nm_xdr.specs.Places.{Spot};

    ghost Value = { Spot };

    ghost view = { λ c. record { place = c.place; rest = c.rest.now } };

    ghost invariant = { λ c. c.place + length c.rest.now < 2 ^ 64 };
}

impl<'a> Cursor<'a> {
    /// The whole input, before its first item.
    pub fn new(bytes: &'a [u8]) -> Cursor<'a>
        ensures { result ≡ record { place = 0; rest = bytes.now } }
    {
        Cursor {
            rest: bytes,
            place: 0,
        }
    }

    /// A second cursor at the same place: a reader of several items puts it back where one of them is refused.
    pub fn fork(&self) -> Cursor<'a>
        ensures { result ≡ self.now }
    {
        Cursor {
            rest: self.rest,
            place: self.place,
        }
    }

    /// How many bytes are left.
    pub fn left(&self) -> usize
        ensures { result ≡ length self.now.rest }
    {
        self.rest.len()
    }

    /// How many bytes were taken: the place of the next item's first byte.
    pub fn place(&self) -> usize
        ensures { result ≡ self.now.place }
    {
        self.place
    }

    /// Takes a number of 4 bytes, the highest first (RFC 4506, section 4.2).
    ///
    /// Short where fewer than 4 bytes are left.
    #[tactic(auto, unfolding(crate::specs::Items::word_at))]
    pub fn take_u32(&mut self) -> Result<u32, XdrFault>
        ensures item { Gives (λ n. n) word_at self.old result self.new }
        ensures unmoved { OnErr result (self.new ≡ self.old) }
    {
        let number = self.word()?;
        self.pass(4);
        Ok(number)
    }

    /// Takes a number of 8 bytes, the highest first (RFC 4506, section 4.5).
    ///
    /// Short where fewer than 8 bytes are left.
    #[tactic(auto, unfolding(crate::specs::Items::hyper_at))]
    pub fn take_u64(&mut self) -> Result<u64, XdrFault>
        ensures item { Gives (λ n. n) hyper_at self.old result self.new }
        ensures unmoved { OnErr result (self.new ≡ self.old) }
    {
        if self.rest.len() < 8 {
            return Err(XdrFault::Short { at: self.place });
        }
        let number = BigEndian::read_u64(self.rest);
        self.pass(8);
        Ok(number)
    }

    /// Takes a flag: 4 bytes that are the number 0 or 1 (RFC 4506, section 4.4).
    ///
    /// Short where fewer than 4 bytes are left, Bool for any other number.
    #[tactic(auto, unfolding(crate::specs::Items::flag_at))]
    pub fn take_bool(&mut self) -> Result<bool, XdrFault>
        ensures item { Gives (λ b. b) flag_at self.old result self.new }
        ensures unmoved { OnErr result (self.new ≡ self.old) }
    {
        let got = self.word()?;
        if got > 1 {
            return Err(XdrFault::Bool {
                at: self.place,
                got,
            });
        }
        self.pass(4);
        Ok(got == 1)
    }

    /// Takes `n` bytes, and the 0 to 3 zeros that pad them to a multiple of 4 (RFC 4506, section 4.9).
    ///
    /// Short where fewer bytes than these are left, Padding where one of the zeros isn't 0.
    #[tactic(auto, unfolding(crate::specs::Items::fixed_at))]
    pub fn take_fixed(&mut self, n: usize) -> Result<&'a [u8], XdrFault>
        ensures item { Gives (λ bytes. bytes.now) (fixed_at n) self.old result self.new }
        ensures unmoved { OnErr result (self.new ≡ self.old) }
    {
        let at = self.place;
        let padding = padding_after(n);
        if self.rest.len() < n || self.rest.len() - n < padding {
            return Err(XdrFault::Short { at });
        }
        let (bytes, behind) = self.rest.split_at(n);
        if let Some(i) = first_filled(&behind[..padding]) {
            return Err(XdrFault::Padding { at: at + n + i });
        }
        self.pass(n + padding);
        Ok(bytes)
    }

    /// Takes a length of at most `max`, that many bytes, and the 0 to 3 zeros that pad them to a multiple of
    /// 4 (RFC 4506, section 4.10).
    ///
    /// TooLong for a greater length. Short, at the length, where it or the bytes and zeros that it announces
    /// aren't all there. Padding where one of the zeros isn't 0.
    #[tactic(auto, unfolding(crate::specs::Items::opaque_at))]
    pub fn take_opaque(&mut self, max: u32) -> Result<&'a [u8], XdrFault>
        ensures item { Gives (λ bytes. bytes.now) (opaque_at max) self.old result self.new }
        ensures unmoved { OnErr result (self.new ≡ self.old) }
    {
        let at = self.place;
        let mut cursor = self.fork();
        match cursor.take_counted_bytes(max) {
            Ok(bytes) => {
                *self = cursor;
                Ok(bytes)
            }
            Err(fault) => Err(fault.of_whole(at)),
        }
    }

    /// Takes a number of 4 bytes that is at most `max`: a count of rows (RFC 4506, section 4.13).
    ///
    /// Short where fewer than 4 bytes are left, TooLong for a greater number.
    #[tactic(auto, unfolding(crate::specs::Items::length_at))]
    pub fn take_count(&mut self, max: u32) -> Result<u32, XdrFault>
        ensures item { Gives (λ n. n) (length_at max) self.old result self.new }
        ensures unmoved { OnErr result (self.new ≡ self.old) }
    {
        let got = self.word()?;
        if max < got {
            return Err(XdrFault::TooLong {
                at: self.place,
                got: u64::from(got),
                max: u64::from(max),
            });
        }
        self.pass(4);
        Ok(got)
    }

    /// Takes what [`Cursor::take_opaque`] does. Whatever is wrong with it, the fault is Short at its length.
    #[tactic(auto, unfolding(crate::specs::Items::bytes_at))]
    pub fn take_bytes(&mut self, max: u32) -> Result<&'a [u8], XdrFault>
        ensures item { Gives (λ bytes. bytes.now) (bytes_at max) self.old result self.new }
        ensures unmoved { OnErr result (self.new ≡ self.old) }
    {
        match self.take_opaque(max) {
            Ok(bytes) => Ok(bytes),
            Err(_) => Err(XdrFault::Short { at: self.place }),
        }
    }

    /// Takes a byte string of at most `max` bytes, and gives a cursor over its inside. A place that this tells
    /// is a place of the whole input.
    ///
    /// Short, at the length, whatever is wrong with the byte string itself.
    #[tactic(auto, using(crate::proofs::ByteLaws::bytes_behind))]
    pub fn take_inside(&mut self, max: u32) -> Result<Cursor<'a>, XdrFault>
        ensures item { Gives (λ inside. inside.rest) (bytes_at max) self.old result self.new }
        ensures place { IfOk result (λ inside. inside.place ≡ self.old.place + 4) }
        ensures end { IfOk result (λ inside. end_of inside + padding_of (length inside.rest) ≡ self.new.place) }
        ensures unmoved { OnErr result (self.new ≡ self.old) }
    {
        let place = self.place;
        let rest = self.take_bytes(max)?;
        Ok(Cursor {
            rest,
            place: place + 4,
        })
    }

    /// Takes a number of 4 bytes that has to be this one: a constant of the layout.
    ///
    /// Short where fewer than 4 bytes are left, Enum for any other number.
    #[tactic(auto, unfolding(crate::specs::Items::only_at))]
    pub fn take_only(&mut self, number: u32) -> Result<u32, XdrFault>
        ensures item { Gives (λ n. n) (only_at number) self.old result self.new }
        ensures unmoved { OnErr result (self.new ≡ self.old) }
    {
        let got = self.word()?;
        if got != number {
            return Err(XdrFault::Enum {
                at: self.place,
                got,
            });
        }
        self.pass(4);
        Ok(got)
    }

    /// Takes a number of 4 bytes that is 0 or 1: which of two arms follows.
    ///
    /// Short where fewer than 4 bytes are left, Enum for a greater number.
    #[tactic(auto, unfolding(crate::specs::Items::choice_at))]
    pub fn take_choice(&mut self) -> Result<u32, XdrFault>
        ensures item { Gives (λ n. n) choice_at self.old result self.new }
        ensures unmoved { OnErr result (self.new ≡ self.old) }
    {
        let got = self.word()?;
        if 1 < got {
            return Err(XdrFault::Enum {
                at: self.place,
                got,
            });
        }
        self.pass(4);
        Ok(got)
    }

    /// Takes a count of at most `max` and so many numbers of 4 bytes, and keeps none of them.
    ///
    /// TooLong for a greater count, and Short where an item isn't all there.
    pub fn pass_words(&mut self, max: u32) -> Result<(), XdrFault>
        ensures item { Gives (λ u. u) (pass (words_at max)) self.old result self.new }
        ensures unmoved { OnErr result (self.new ≡ self.old) }
    {
        let start = self.fork();
        let passed = self.pass_counted(max);
        if passed.is_err() {
            *self = start;
        }
        passed
    }

    /// That no bytes are left: TooLong, with the limit 0 and at the first of them, where some are.
    pub fn end(&self) -> Result<(), XdrFault>
        ensures { Ends self.now result }
    {
        if self.rest.is_empty() {
            return Ok(());
        }
        Err(XdrFault::TooLong {
            at: self.place,
            got: self.rest.len() as u64,
            max: 0,
        })
    }

    // A count and so many numbers, one after the other.
    #[tactic(auto, unfolding(crate::specs::Items::words_at, crate::specs::Items::counted_at))]
    fn pass_counted(&mut self, max: u32) -> Result<(), XdrFault>
        ensures { Gives (λ u. u) (pass (words_at max)) self.old result self.new }
    {
        let count = self.take_count(max)?;
        self.pass_each(count)
    }

    #[tactic(auto, using(crate::proofs::PassLaws::word_missing))]
    fn pass_each(&mut self, count: u32) -> Result<(), XdrFault>
        ensures { Gives (λ u. u) (pass (rows_at (λ _. word_at) count [])) self.old result self.new }
    {
        for _ in 0..count {
            self.take_u32()?;
        }
        Ok(())
    }

    // A length and its bytes, one after the other.
    fn take_counted_bytes(&mut self, max: u32) -> Result<&'a [u8], XdrFault>
        ensures { Gives (λ bytes. bytes.now) (field (length_at max) fixed_at) self.old result self.new }
    {
        let length = self.take_count(max)?;
        self.take_fixed(length as usize)
    }

    // The number in the next 4 bytes, which stay.
    #[tactic(auto, unfolding(crate::specs::Items::word_at))]
    fn word(&self) -> Result<u32, XdrFault>
        ensures item { Gives (λ n. n) word_at self.now result (after self.now 4) }
        ensures enough { OnOk result (4 ≤ length self.now.rest) }
    {
        if self.rest.len() < 4 {
            return Err(XdrFault::Short { at: self.place });
        }
        Ok(BigEndian::read_u32(self.rest))
    }

    // Goes on past n bytes.
    fn pass(&mut self, n: usize)
        requires { n ≤ length self.old.rest }
        ensures { self.new ≡ after self.old n }
    {
        self.rest = &self.rest[n..];
        self.place += n;
    }
}

// How many zeros pad n bytes to a multiple of 4 (RFC 4506, section 3).
#[tactic(auto, unfolding(crate::specs::Items::padding_of))]
pub(crate) fn padding_after(n: usize) -> usize
    ensures number { result ≡ padding_of n }
    ensures few { result < 4 }
{
    (4 - n % 4) % 4
}

// The index of the first byte that isn't 0.
fn first_filled(bytes: &[u8]) -> Option<usize>
    ensures { result ≡ position (λ b. not (b == 0)) bytes.now }
{
    bytes.iter().position(|b| *b != 0)
}
