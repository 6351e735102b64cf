//! Writing of attributes.
ghost use Rattle.std.specs.Prelude.{◌≡◌, ◌<◌, ◌≤◌, ◌^◌, ◌++◌, All, length, IfOk, OnOk, OnErr};
ghost use Rattle.std.specs.List.{flat_map};
ghost use Rattle.nm_xdr.specs.Items.{opaque};
ghost use Rattle.nm_xdr.specs.Places.{Puts};
ghost use Rattle.nm_items.specs.Parts.{bitmap};
ghost use Rattle.nm_attrs.specs.Bitmaps.{words_of_mask};
ghost use Rattle.nm_attrs.specs.Attributes.{path, location, fs_locations, value_bytes, mask_of, values_of, as_fattr, fattr_bytes, IsPath, IsLocation, AreLocations, IsValue, AreAttrs};

use crate::lengths::values_length;
use crate::{Attr, AttrValue, Attrs, Bitmap, FsLocations, Location};
use nm_types::{Bytes, Fattr};
use nm_xdr::{Memory, Writer};
use std::alloc::Global;

/// Writes attributes: the bitmap of their numbers, without a last word that is 0, and their values as one item (RFC 7531,
/// fattr4). They are of the table, each at most once and by rising number, and their values have at most 65,536 bytes.
///
/// Memory where there is none for them behind what was put before; then nothing is put.
pub fn write_fattr(attrs: &Attrs, out: &mut Writer) -> Result<(), Memory>
    requires { AreAttrs attrs.now }
    ensures ok { OnOk result (out.new ≡ out.old ++ fattr_bytes attrs.now) }
    ensures err { OnErr result (out.new ≡ out.old) }
{
    let before = out.len();
    let put = put_attrs(out, attrs.items());
    if put.is_err() {
        out.cut_back(before);
    }
    put
}

/// The same attributes as they stand in a message, kept: the words of their bitmap and the bytes of their values.
///
/// Memory where there is none for these.
pub fn fattr_of(alloc: Global, attrs: &Attrs) -> Result<Fattr, Memory>
    requires { AreAttrs attrs.now }
    ensures { IfOk result (λ f. f ≡ as_fattr attrs.now) }
{
    let bitmap = Bitmap::of_mask(alloc, mask_of_attrs(attrs.items()))?;
    let values = kept_values(alloc, attrs.items())?;
    Ok(Fattr {
        words: bitmap.into_words(),
        values,
    })
}

// The values, kept.
fn kept_values(alloc: Global, attrs: &[Attr]) -> Result<Bytes, Memory>
    requires each { All (λ a. IsValue a.value) attrs.now }
    requires short { length (values_of attrs.now) ≤ 65536 }
    ensures { IfOk result (λ bytes. bytes ≡ values_of attrs.now) }
{
    let mut writer = Writer::new(alloc);
    writer.reserve(values_length(attrs))?;
    put_values(&mut writer, attrs)?;
    Bytes::from_slice(alloc, &writer.finish())
}

// The bitmap of the numbers, and the values as one item. Room for all of their bytes is made at once: a count, two words, a
// length, the values and at most 3 zeros.
#[tactic(auto, using(nm_xdr::proofs::PutLaws::front_there, nm_xdr::proofs::PutLaws::front_stands), unfolding(crate::specs::Attributes::fattr_bytes))]
fn put_attrs(out: &mut Writer, attrs: &[Attr]) -> Result<(), Memory>
    requires { AreAttrs attrs.now }
    ensures { Puts out.old (fattr_bytes attrs.now) result out.new }
{
    out.reserve(values_length(attrs) + 19)?;
    put_mask(out, mask_of_attrs(attrs))?;
    put_all_values(out, attrs)?;
    Ok(())
}

// The bitmap of a mask.
#[tactic(auto, unfolding(crate::specs::Bitmaps::words_of_mask))]
fn put_mask(out: &mut Writer, mask: u64) -> Result<(), Memory>
    ensures ok { OnOk result (out.new ≡ out.old ++ bitmap (words_of_mask mask)) }
    ensures err { OnErr result (out.new ≡ out.old) }
{
    let low = (mask % 0x1_0000_0000) as u32;
    let high = (mask / 0x1_0000_0000) as u32;
    if low == 0 && high == 0 {
        return out.put_words(&[]);
    }
    if high == 0 {
        return out.put_words(&[low]);
    }
    out.put_words(&[low, high])
}

// The values, one after the other, as one item: its length comes into its place behind them.
#[tactic(auto, using(nm_xdr::proofs::PutLaws::front_there, nm_xdr::proofs::PutLaws::front_stands, nm_xdr::proofs::PutLaws::closed_opaque))]
fn put_all_values(out: &mut Writer, attrs: &[Attr]) -> Result<(), Memory>
    requires each { All (λ a. IsValue a.value) attrs.now }
    requires short { length (values_of attrs.now) ≤ 65536 }
    ensures { Puts out.old (opaque (values_of attrs.now)) result out.new }
{
    let start = out.len();
    out.put_u32(0)?;
    put_values(out, attrs)?;
    out.close_opaque(start)?;
    Ok(())
}

// The bit of each attribute's number.
#[tactic(auto, unfolding(crate::specs::Attributes::mask_of))]
fn mask_of_attrs(attrs: &[Attr]) -> u64
    requires { All (λ a. a.bit < 64) attrs.now }
    ensures { result ≡ mask_of attrs.now }
{
    let mut mask = 0;
    for attr in attrs {
        mask |= 1 << attr.bit;
    }
    mask
}

// The values, one after the other.
#[tactic(auto, using(nm_xdr::proofs::PutLaws::front_stands))]
fn put_values(writer: &mut Writer, attrs: &[Attr]) -> Result<(), Memory>
    requires { All (λ a. IsValue a.value) attrs.now }
    ensures { Puts writer.old (values_of attrs.now) result writer.new }
{
    for attr in attrs {
        put_value(writer, &attr.value)?;
    }
    Ok(())
}

#[tactic(auto, using(nm_xdr::proofs::PutLaws::front_there, nm_xdr::proofs::PutLaws::front_stands), unfolding(crate::specs::Attributes::value_bytes))]
fn put_value(writer: &mut Writer, value: &AttrValue) -> Result<(), Memory>
    requires { IsValue value.now }
    ensures { Puts writer.old (value_bytes value.now) result writer.new }
{
    match value {
        AttrValue::Words(words) => writer.put_words(words.items()),
        AttrValue::U32(n) => writer.put_u32(*n),
        AttrValue::U64(n) => writer.put_u64(*n),
        AttrValue::Bool(b) => writer.put_bool(*b),
        AttrValue::Fsid { major, minor } => {
            writer.put_u64(*major)?;
            writer.put_u64(*minor)
        }
        AttrValue::FileHandle(handle) => writer.put_opaque(handle.items()),
        AttrValue::Locations(locations) => put_fs_locations(writer, locations),
    }
}

#[tactic(auto, using(nm_xdr::proofs::PutLaws::front_there, nm_xdr::proofs::PutLaws::front_stands), unfolding(crate::specs::Attributes::fs_locations))]
fn put_fs_locations(writer: &mut Writer, value: &FsLocations) -> Result<(), Memory>
    requires { AreLocations value.now }
    ensures { Puts writer.old (fs_locations value.now) result writer.new }
{
    put_path(writer, value.root.items())?;
    writer.put_u32(value.locations.items().len() as u32)?;
    put_locations(writer, value.locations.items())?;
    Ok(())
}

#[tactic(auto, using(nm_xdr::proofs::PutLaws::front_there, nm_xdr::proofs::PutLaws::front_stands))]
fn put_locations(writer: &mut Writer, locations: &[Location]) -> Result<(), Memory>
    requires { All IsLocation locations.now }
    ensures { Puts writer.old (flat_map location locations.now) result writer.new }
{
    for place in locations {
        put_location(writer, place)?;
    }
    Ok(())
}

#[tactic(auto, using(nm_xdr::proofs::PutLaws::front_there, nm_xdr::proofs::PutLaws::front_stands), unfolding(crate::specs::Attributes::location))]
fn put_location(writer: &mut Writer, place: &Location) -> Result<(), Memory>
    requires { IsLocation place.now }
    ensures { Puts writer.old (location place.now) result writer.new }
{
    put_path(writer, place.servers.items())?;
    put_path(writer, place.root.items())?;
    Ok(())
}

#[tactic(auto, using(nm_xdr::proofs::PutLaws::front_there, nm_xdr::proofs::PutLaws::front_stands))]
fn put_path(writer: &mut Writer, names: &[Bytes]) -> Result<(), Memory>
    requires { IsPath names.now }
    ensures { Puts writer.old (path names.now) result writer.new }
{
    writer.put_u32(names.len() as u32)?;
    put_names(writer, names)?;
    Ok(())
}

#[tactic(auto, using(nm_xdr::proofs::PutLaws::front_there, nm_xdr::proofs::PutLaws::front_stands))]
fn put_names(writer: &mut Writer, names: &[Bytes]) -> Result<(), Memory>
    requires { All (λ name. length name ≤ 1048576) names.now }
    ensures { Puts writer.old (flat_map opaque names.now) result writer.new }
{
    for name in names {
        writer.put_opaque(name.items())?;
    }
    Ok(())
}
