//! Byte strings, lists of words and attributes that are kept.
ghost use Rattle.std.specs.Prelude.{◌≡◌, ◌≤◌, ◌++◌, [], length, IfOk, OnOk, OnErr};
ghost use Rattle.nm_xdr.specs.Fields.{rows_at};
ghost use Rattle.nm_xdr.specs.Items.{word_at, bytes_at, words_at};
ghost use Rattle.nm_xdr.specs.Places.{Puts};
ghost use Rattle.nm_items.specs.Parts.{fattr, fattr_at, AreAttributes};
ghost use Rattle.nm_items.specs.Takes.{Takes};

use crate::ReadFault;
use nm_types::{Bytes, Fattr, Words};
use nm_xdr::{Cursor, Memory, Writer};
use std::alloc::Global;

/// Takes a byte string of at most `max` bytes (RFC 4506, section 4.10), and keeps a copy of it.
///
/// Xdr with Short at the length, whatever is wrong with it. Memory where there is none for the copy.
pub fn take_kept(alloc: Global, cursor: &mut Cursor<'_>, max: u32) -> Result<Bytes, ReadFault>
    ensures item { Takes (bytes_at max) cursor.old result cursor.new }
    ensures unmoved { OnErr result (cursor.new ≡ cursor.old) }
{
    let start = cursor.fork();
    let bytes = cursor.take_bytes(max)?;
    match Bytes::from_slice(alloc, bytes) {
        Ok(kept) => Ok(kept),
        Err(_) => {
            *cursor = start;
            Err(ReadFault::Memory)
        }
    }
}

/// Takes a count of at most `max` and so many words. A word takes memory once it was read.
///
/// Xdr with TooLong, at the count, where it is above `max`, and with Short where an item isn't all there. Memory where there is
/// none for the words.
pub fn take_words(alloc: Global, cursor: &mut Cursor<'_>, max: u32) -> Result<Words, ReadFault>
    ensures item { Takes (words_at max) cursor.old result cursor.new }
    ensures few { IfOk result (λ words. length words ≤ max) }
    ensures unmoved { OnErr result (cursor.new ≡ cursor.old) }
{
    let start = cursor.fork();
    let words = take_counted(alloc, cursor, max);
    if words.is_err() {
        *cursor = start;
    }
    words
}

#[tactic(auto, using(crate::proofs::RowLaws::count_within), unfolding(nm_xdr::specs::Items::words_at, nm_xdr::specs::Items::counted_at))]
fn take_counted(alloc: Global, cursor: &mut Cursor<'_>, max: u32) -> Result<Words, ReadFault>
    ensures item { Takes (words_at max) cursor.old result cursor.new }
    ensures few { IfOk result (λ words. length words ≤ max) }
{
    let count = cursor.take_count(max)?;
    take_each(alloc, cursor, count)
}

fn take_each(alloc: Global, cursor: &mut Cursor<'_>, count: u32) -> Result<Words, ReadFault>
    ensures item { Takes (rows_at (λ _. word_at) count []) cursor.old result cursor.new }
    ensures few { IfOk result (λ words. length words ≡ count) }
{
    let mut words = Words::new(alloc);
    for _ in 0..count {
        words.push(cursor.take_u32()?)?;
    }
    Ok(words)
}

/// Takes attributes as they stand in a message (RFC 7531, fattr4): at most 8 words of their bitmap, and at most 65,536 bytes
/// of their values.
///
/// Xdr with the first fault, and Memory where there is none for what is kept.
pub fn take_fattr(alloc: Global, cursor: &mut Cursor<'_>) -> Result<Fattr, ReadFault>
    ensures item { Takes fattr_at cursor.old result cursor.new }
    ensures unmoved { OnErr result (cursor.new ≡ cursor.old) }
{
    let start = cursor.fork();
    let attributes = take_attributes(alloc, cursor);
    if attributes.is_err() {
        *cursor = start;
    }
    attributes
}

#[tactic(auto, unfolding(crate::specs::Parts::fattr_at))]
fn take_attributes(alloc: Global, cursor: &mut Cursor<'_>) -> Result<Fattr, ReadFault>
    ensures { Takes fattr_at cursor.old result cursor.new }
{
    let words = take_words(alloc, cursor, 8)?;
    let values = take_kept(alloc, cursor, 65_536)?;
    Ok(Fattr { words, values })
}

/// Puts attributes as they stand in a message.
///
/// Memory where there is none for all of their bytes.
pub fn put_fattr(writer: &mut Writer, attributes: &Fattr) -> Result<(), Memory>
    requires { AreAttributes attributes.now }
    ensures ok { OnOk result (writer.new ≡ writer.old ++ fattr attributes.now) }
    ensures err { OnErr result (writer.new ≡ writer.old) }
{
    let before = writer.len();
    let put = put_attributes(writer, attributes);
    if put.is_err() {
        writer.cut_back(before);
    }
    put
}

#[tactic(auto, using(nm_xdr::proofs::PutLaws::front_there), unfolding(crate::specs::Parts::fattr))]
fn put_attributes(writer: &mut Writer, attributes: &Fattr) -> Result<(), Memory>
    requires { AreAttributes attributes.now }
    ensures { Puts writer.old (fattr attributes.now) result writer.new }
{
    writer.put_words(attributes.words.items())?;
    writer.put_opaque(attributes.values.items())
}
