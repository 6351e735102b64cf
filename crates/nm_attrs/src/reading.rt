//! Reading of attributes.
ghost use Rattle.std.specs.Prelude.{◌≡◌, ◌++◌, ◌∷◌, [], ◌==◌};
ghost use Rattle.nm_xdr.specs.Fields.{rows_at, all_of};
ghost use Rattle.nm_xdr.specs.Items.{opaque_at};
ghost use Rattle.nm_items.specs.Takes.{Takes};
ghost use Rattle.nm_attrs.specs.Attributes.{path_at, location_at, locations_at, fs_locations_at, value_at, attr_at, attrs_at, in_bitmap, is_supported, unsupported, fattr_at, AnswersAttrs, table};

use crate::bitmap::take_bitmap;
use crate::values::supported_attributes;
use crate::{
    Attr, AttrFault, AttrKind, AttrLayout, AttrValue, Attrs, Bitmap, FsLocations, Location,
    Locations, Path,
};
use nm_items::ReadFault;
use nm_types::Bytes;
use nm_xdr::Cursor;
use std::alloc::Global;

/// Reads the attributes of a bitmap, whose values are all of these bytes (RFC 7530, 5.6 to 5.8; RFC 7531, fattr4).
///
/// Unsupported, with the least number, where the bitmap has one that isn't supported. Xdr with the first fault of the values,
/// and with TooLong (limit 0), at the first byte that is left over and with the number of such bytes. Memory where there is none
/// for what is kept.
#[tactic(auto, using(nm_xdr::proofs::PassLaws::left_over, nm_xdr::proofs::PassLaws::nothing_left), unfolding(crate::specs::Attributes::fattr_at))]
pub fn read_fattr(alloc: Global, bitmap: &Bitmap, values: &[u8]) -> Result<Attrs, AttrFault>
    ensures { AnswersAttrs result bitmap.now values.now }
{
    if let Some(bit) = first_unsupported(bitmap) {
        return Err(AttrFault::Unsupported { bit });
    }
    let mut cursor = Cursor::new(values);
    let attrs = take_attrs(alloc, &mut cursor, bitmap, &supported_attributes())?;
    if let Err(fault) = cursor.end() {
        return Err(AttrFault::Xdr(fault));
    }
    Ok(attrs)
}

// The least number in the bitmap that isn't supported.
#[tactic(auto, unfolding(crate::specs::Attributes::unsupported))]
fn first_unsupported(bitmap: &Bitmap) -> Option<u32>
    ensures { result ≡ unsupported bitmap.now }
{
    let end = 32 * bitmap.items().len() as u32;
    (0..end).find(|bit| bitmap.has(*bit) && !is_supported(*bit))
}

/// Whether an attribute of this number is supported.
#[tactic(auto, unfolding(crate::specs::Attributes::is_supported, crate::specs::Attributes::table))]
pub fn is_supported(bit: u32) -> bool
    ensures { result ≡ is_supported bit }
{
    matches!(bit, 0..=11 | 19 | 20 | 24 | 33)
}

// Those of these attributes that the bitmap has, with their values.
fn take_attrs(
    alloc: Global,
    cursor: &mut Cursor<'_>,
    bitmap: &Bitmap,
    layouts: &[AttrLayout],
) -> Result<Attrs, ReadFault>
    ensures { Takes (attrs_at (in_bitmap bitmap.now layouts.now) []) cursor.old result cursor.new }
{
    let mut attrs = Attrs::new(alloc);
    for layout in layouts {
        attrs = take_if_asked(alloc, cursor, bitmap, *layout, attrs)?;
    }
    Ok(attrs)
}

#[tactic(auto, unfolding(crate::specs::Attributes::attrs_at))]
fn take_if_asked(
    alloc: Global,
    cursor: &mut Cursor<'_>,
    bitmap: &Bitmap,
    layout: AttrLayout,
    mut attrs: Attrs,
) -> Result<Attrs, ReadFault>
    ensures { Takes (attrs_at (in_bitmap bitmap.now (layout ∷ [])) attrs) cursor.old result cursor.new }
{
    if bitmap.has(layout.bit) {
        attrs.push(take_attr(alloc, cursor, layout)?)?;
    }
    Ok(attrs)
}

fn take_attr(alloc: Global, cursor: &mut Cursor<'_>, layout: AttrLayout) -> Result<Attr, ReadFault>
    ensures { Takes (attr_at layout) cursor.old result cursor.new }
{
    let value = take_value(alloc, cursor, layout.kind)?;
    Ok(Attr {
        bit: layout.bit,
        value,
    })
}

#[tactic(auto, unfolding(crate::specs::Attributes::value_at, crate::specs::Attributes::two_at))]
fn take_value(
    alloc: Global,
    cursor: &mut Cursor<'_>,
    kind: AttrKind,
) -> Result<AttrValue, ReadFault>
    ensures { Takes (value_at kind) cursor.old result cursor.new }
{
    Ok(match kind {
        AttrKind::Words => AttrValue::Words(take_bitmap(alloc, cursor)?),
        AttrKind::U32 => AttrValue::U32(cursor.take_u32()?),
        AttrKind::U64 => AttrValue::U64(cursor.take_u64()?),
        AttrKind::Bool => AttrValue::Bool(cursor.take_bool()?),
        AttrKind::Fsid => AttrValue::Fsid {
            major: cursor.take_u64()?,
            minor: cursor.take_u64()?,
        },
        AttrKind::FileHandle => {
            AttrValue::FileHandle(Bytes::from_slice(alloc, cursor.take_opaque(128)?)?)
        }
        AttrKind::Locations => AttrValue::Locations(take_fs_locations(alloc, cursor)?),
    })
}

#[tactic(auto, unfolding(crate::specs::Attributes::fs_locations_at))]
fn take_fs_locations(alloc: Global, cursor: &mut Cursor<'_>) -> Result<FsLocations, ReadFault>
    ensures { Takes fs_locations_at cursor.old result cursor.new }
{
    let root = take_path(alloc, cursor)?;
    let locations = take_locations(alloc, cursor)?;
    Ok(FsLocations { root, locations })
}

#[tactic(auto, unfolding(crate::specs::Attributes::locations_at, nm_xdr::specs::Items::counted_at))]
fn take_locations(alloc: Global, cursor: &mut Cursor<'_>) -> Result<Locations, ReadFault>
    ensures { Takes locations_at cursor.old result cursor.new }
{
    let count = cursor.take_count(u32::MAX)?;
    take_each_location(alloc, cursor, count)
}

// So many locations. Each takes memory once it was read.
fn take_each_location(
    alloc: Global,
    cursor: &mut Cursor<'_>,
    count: u32,
) -> Result<Locations, ReadFault>
    ensures { Takes (rows_at (λ _. location_at) count []) cursor.old result cursor.new }
{
    let mut locations = Locations::new(alloc);
    for _ in 0..count {
        locations.push(take_location(alloc, cursor)?)?;
    }
    Ok(locations)
}

#[tactic(auto, unfolding(crate::specs::Attributes::location_at))]
fn take_location(alloc: Global, cursor: &mut Cursor<'_>) -> Result<Location, ReadFault>
    ensures { Takes location_at cursor.old result cursor.new }
{
    let servers = take_path(alloc, cursor)?;
    let root = take_path(alloc, cursor)?;
    Ok(Location { servers, root })
}

#[tactic(auto, unfolding(crate::specs::Attributes::path_at, nm_xdr::specs::Items::counted_at))]
fn take_path(alloc: Global, cursor: &mut Cursor<'_>) -> Result<Path, ReadFault>
    ensures { Takes path_at cursor.old result cursor.new }
{
    let count = cursor.take_count(u32::MAX)?;
    take_names(alloc, cursor, count)
}

// So many names. Each takes memory once it was read.
fn take_names(alloc: Global, cursor: &mut Cursor<'_>, count: u32) -> Result<Path, ReadFault>
    ensures { Takes (rows_at (λ _. opaque_at 1048576) count []) cursor.old result cursor.new }
{
    let mut names = Path::new(alloc);
    for _ in 0..count {
        names.push(take_name(alloc, cursor)?)?;
    }
    Ok(names)
}

fn take_name(alloc: Global, cursor: &mut Cursor<'_>) -> Result<Bytes, ReadFault>
    ensures { Takes (opaque_at 1048576) cursor.old result cursor.new }
{
    Ok(Bytes::from_slice(alloc, cursor.take_opaque(1_048_576)?)?)
}
