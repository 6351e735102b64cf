//! What holds of all bitmaps and attributes, each law the contract of a function that does nothing.
ghost use Rattle.std.specs.Prelude.{ℕ, List, ◌++◌, ◌≡◌, Ok, Err};
ghost use Rattle.nm_xdr.specs.Fields.{IsBytes, IsItem};
ghost use Rattle.nm_xdr.specs.Places.{IsExact};
ghost use Rattle.nm_attrs.specs.declared.values.Attr.{Attr as AnyAttr};
ghost use Rattle.nm_items.specs.Parts.{bitmap, bitmap_at, IsBitmap, fattr, fattr_at as item_at};
ghost use Rattle.nm_attrs.specs.Attributes.{number, fattr_at, words_of, values_of, as_fattr, fattr_bytes, AreAttrs, IsFattr, IsLeastUnsupported, is_supported, supported_words};
ghost use Rattle.nm_attrs.specs.Bitmaps.{has};

/// A bitmap is read exactly where it is spelled, whatever follows, and a call that gives what this reading gives goes past
/// exactly its spelling.
pub fn bitmaps_are_read_as_spelled()
    ensures item { IsItem bitmap_at bitmap IsBitmap }
    ensures exact { IsExact bitmap_at bitmap IsBitmap }
{}

/// Attributes are read of a bitmap and of bytes exactly where they are those that the bitmap has, all supported, and the
/// bytes are their values, one after the other. So values have one spelling.
pub fn attributes_are_read_as_spelled()
    ensures found { (words bytes : List ℕ) (attrs : List AnyAttr) → IsBytes bytes → fattr_at words bytes ≡ Ok attrs → IsFattr words attrs bytes }
    ensures again { (words bytes : List ℕ) (attrs : List AnyAttr) → IsFattr words attrs bytes → fattr_at words bytes ≡ Ok attrs }
{}

/// A number is told as unsupported, whatever the bytes are, exactly where it is the least one of the bitmap that isn't
/// supported.
pub fn the_least_unsupported_is_told()
    ensures found { (words bytes : List ℕ) (bit : ℕ) → fattr_at words bytes ≡ Err (number bit) → IsLeastUnsupported words bit }
    ensures again { (words bytes : List ℕ) (bit : ℕ) → IsLeastUnsupported words bit → fattr_at words bytes ≡ Err (number bit) }
{}

/// The attributes that are supported are the numbers of the bitmap of two words, which supported_attrs tells of a server.
pub fn the_supported_have_two_words()
    ensures { (n : ℕ) → has supported_words n ≡ is_supported n }
{}

/// Attributes that are written are taken from what was written, whatever follows, and read again.
pub fn attributes_are_read_as_written()
    ensures taken { (attrs : List AnyAttr) (rest : List ℕ) → AreAttrs attrs → item_at (fattr_bytes attrs ++ rest) ≡ Ok (as_fattr attrs, rest) }
    ensures spelled { (attrs : List AnyAttr) → fattr (as_fattr attrs) ≡ fattr_bytes attrs }
    ensures read { (attrs : List AnyAttr) → AreAttrs attrs → fattr_at (words_of attrs) (values_of attrs) ≡ Ok attrs }
{}
