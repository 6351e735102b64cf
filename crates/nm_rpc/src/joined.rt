//! The bytes of a record, put together from its fragments.

ghost use Rattle.std.specs.Prelude.{◌≡◌, [], ◌++◌, length, take, OnOk, OnErr};

use nm_types::Memory;
use std::alloc::Global;
use std::marker::Model;

/// The bytes of a record, as far as they have come.
#[derive(Drop)]
pub struct Joined {
    bytes: Vec<u8>,
}

impl Model for Joined {
    ghost use Rattle.std.specs.Prelude.{ℕ, List};

    ghost Value = { List ℕ };

    ghost view = { λ j. j.bytes.items };
}

impl Joined {
    /// No bytes yet. They take no memory until some come.
    pub fn new(alloc: Global) -> Joined
        ensures { result ≡ [] }
    {
        Joined {
            bytes: Vec::new(alloc),
        }
    }

    /// How many bytes have come.
    pub fn len(&self) -> usize
        ensures { result ≡ length self.now }
    {
        self.bytes.len()
    }

    /// Puts bytes behind those that have come. Where there is no memory for them it changes nothing.
    pub fn append(&mut self, bytes: &[u8]) -> Result<(), Memory>
        ensures ok { OnOk result (self.new ≡ self.old ++ bytes.now) }
        ensures err { OnErr result (self.new ≡ self.old) }
    {
        Ok(self.bytes.extend_from_slice(bytes)?)
    }

    /// Keeps the first `len` bytes.
    pub fn truncate(&mut self, len: usize)
        ensures { self.new ≡ take len self.old }
    {
        self.bytes.truncate(len);
    }

    /// Puts no bytes in the place of these, and gives these.
    pub fn take(&mut self) -> Joined
        ensures taken { result ≡ self.old }
        ensures left { self.new ≡ [] }
    {
        let empty = Joined::new(*self.bytes.allocator());
        std::mem::replace(self, empty)
    }

    /// The bytes.
    pub fn into_bytes(self) -> Vec<u8>
        ensures { result.items ≡ self }
    {
        let Joined { bytes } = self;
        bytes
    }
}
