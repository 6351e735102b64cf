//! Bitmaps: which attributes are asked for, or told.
ghost use Rattle.std.specs.Prelude.{◌≡◌, ◌<◌, ◌≤◌, ◌^◌, ◌↔◌, [], ◌∷◌, ◌++◌, length, IfOk, IfSome, IsSome, OnOk, OnErr};
ghost use Rattle.nm_items.specs.Parts.{bitmap_at};
ghost use Rattle.nm_items.specs.Takes.{Takes};
ghost use Rattle.nm_attrs.specs.Bitmaps.{has, trimmed, words_of_mask};
ghost use Rattle.nm_attrs.specs.Takes.{TakesOrFails};

use crate::AttrFault;
use nm_items::{ReadFault, take_words};
use nm_types::{Items, Memory};
use nm_xdr::Cursor;
use std::alloc::Global;
use std::marker::Model;

/// Numbers of attributes, as at most 8 words (RFC 7531, bitmap4): attribute n is the bit n % 32 of the word n / 32.
///
/// Contracts see the list of the words.
#[derive(Debug, Drop)]
pub struct Bitmap {
    words: Items<u32>,
}

impl Model for Bitmap {
    ghost use Rattle.std.specs.Prelude.{ℕ, List, length, ◌≤◌};

    ghost Value = { List ℕ };

    ghost view = { λ b. b.words };

    ghost invariant = { λ b. length b.words ≤ 8 };

    ghost inverse = { λ words. record { words = words } };
}

impl Bitmap {
    /// The bitmap without a word. It takes no memory until one is pushed.
    pub fn new(alloc: Global) -> Bitmap
        ensures { result ≡ [] }
    {
        Bitmap {
            words: Items::new(alloc),
        }
    }

    /// The bitmap of these words. `None` exactly where there are more than 8.
    pub fn of_words(words: Items<u32>) -> Option<Bitmap>
        ensures value { IfSome result (λ b. b ≡ words) }
        ensures fits { IsSome result ↔ (length words ≤ 8) }
    {
        if words.items().len() <= 8 {
            Some(Bitmap { words })
        } else {
            None
        }
    }

    /// The bitmap of the attributes from 0 to 63 whose bit is 1 in the mask, without a last word that is 0.
    #[tactic(auto, unfolding(crate::specs::Bitmaps::words_of_mask))]
    pub fn of_mask(alloc: Global, mask: u64) -> Result<Bitmap, Memory>
        ensures { IfOk result (λ b. b ≡ words_of_mask mask) }
    {
        let low = (mask % 0x1_0000_0000) as u32;
        let high = (mask / 0x1_0000_0000) as u32;
        Bitmap::of_two(alloc, low, high)
    }

    // The same of its two words.
    fn of_two(alloc: Global, low: u32, high: u32) -> Result<Bitmap, Memory>
        ensures { IfOk result (λ b. b ≡ trimmed low high) }
    {
        let mut bitmap = Bitmap::new(alloc);
        if low == 0 && high == 0 {
            return Ok(bitmap);
        }
        bitmap.push(low)?;
        if high == 0 {
            return Ok(bitmap);
        }
        bitmap.push(high)?;
        Ok(bitmap)
    }

    /// Adds a word at the end. After want of memory the bitmap is as it was.
    pub fn push(&mut self, word: u32) -> Result<(), Memory>
        requires { length self.old < 8 }
        ensures ok { OnOk result (self.new ≡ self.old ++ word ∷ []) }
        ensures err { OnErr result (self.new ≡ self.old) }
    {
        self.words.push(word)
    }

    /// The words, in order.
    pub fn items(&self) -> &[u32]
        ensures value { result.now ≡ self.now }
        ensures few { length self.now ≤ 8 }
    {
        self.words.items()
    }

    /// The words, as a list.
    pub fn into_words(self) -> Items<u32>
        ensures value { result ≡ self }
        ensures few { length self ≤ 8 }
    {
        let Bitmap { words } = self;
        words
    }

    /// Whether the attribute of this number is in it.
    #[tactic(auto, unfolding(crate::specs::Bitmaps::has))]
    pub fn has(&self, bit: u32) -> bool
        ensures { result ≡ has self.now bit }
    {
        match self.items().get((bit / 32) as usize) {
            Some(word) => word >> (bit % 32) & 1 == 1,
            None => false,
        }
    }
}

/// Takes a bitmap: a count of at most 8, and so many words (RFC 7531, bitmap4).
///
/// Xdr with TooLong, at the count, where it is above 8, and with Short where an item isn't all there. Memory where there is
/// none for the words.
pub fn read_bitmap(alloc: Global, cursor: &mut Cursor<'_>) -> Result<Bitmap, AttrFault>
    ensures item { TakesOrFails bitmap_at cursor.old result cursor.new }
    ensures unmoved { OnErr result (cursor.new ≡ cursor.old) }
{
    Ok(take_bitmap(alloc, cursor)?)
}

/// The same, for readers whose fault is a [`ReadFault`].
pub(crate) fn take_bitmap(alloc: Global, cursor: &mut Cursor<'_>) -> Result<Bitmap, ReadFault>
    ensures item { Takes bitmap_at cursor.old result cursor.new }
    ensures unmoved { OnErr result (cursor.new ≡ cursor.old) }
{
    let words = take_words(alloc, cursor, 8)?;
    Ok(Bitmap { words })
}
