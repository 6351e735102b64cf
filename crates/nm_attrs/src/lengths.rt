//! How long the values of attributes are.
ghost use Rattle.std.specs.Prelude.{◌≡◌, ◌≤◌, length};
ghost use Rattle.std.specs.List.{flat_map};
ghost use Rattle.nm_xdr.specs.Items.{opaque};
ghost use Rattle.nm_items.specs.Parts.{bitmap};
ghost use Rattle.nm_attrs.specs.Attributes.{path, location, fs_locations, value_bytes, values_of};

use crate::{Attr, AttrValue, FsLocations, Location};
use nm_types::Bytes;

/// How many bytes the values have, one after the other.
pub(crate) fn values_length(attrs: &[Attr]) -> usize
    requires { length (values_of attrs.now) ≤ 65536 }
    ensures { result ≡ length (values_of attrs.now) }
{
    let mut sum = 0;
    for attr in attrs {
        sum += value_length(&attr.value);
    }
    sum
}

#[tactic(auto, using(crate::proofs::LengthLaws::bitmap_long, crate::proofs::LengthLaws::four, crate::proofs::LengthLaws::eight, crate::proofs::LengthLaws::flag_long, crate::proofs::LengthLaws::two_long), unfolding(crate::specs::Attributes::value_bytes))]
fn value_length(value: &AttrValue) -> usize
    requires { length (value_bytes value.now) ≤ 65536 }
    ensures { result ≡ length (value_bytes value.now) }
{
    match value {
        AttrValue::Words(words) => words_length(words.items()),
        AttrValue::U32(_) => 4,
        AttrValue::U64(_) => 8,
        AttrValue::Bool(_) => 4,
        AttrValue::Fsid { .. } => 16,
        AttrValue::FileHandle(handle) => opaque_length(handle.items()),
        AttrValue::Locations(locations) => fs_locations_length(locations),
    }
}

// A count, and the words.
#[tactic(auto, using(crate::proofs::LengthLaws::bitmap_long))]
fn words_length(words: &[u32]) -> usize
    requires { length words.now ≤ 8 }
    ensures { result ≡ length (bitmap words.now) }
{
    4 + 4 * words.len()
}

// A length, the bytes and their padding.
#[tactic(auto, using(crate::proofs::LengthLaws::opaque_long))]
fn opaque_length(bytes: &[u8]) -> usize
    requires { length (opaque bytes.now) ≤ 65536 }
    ensures { result ≡ length (opaque bytes.now) }
{
    4 + (bytes.len() + 3) / 4 * 4
}

#[tactic(auto, using(crate::proofs::LengthLaws::locations_long))]
fn fs_locations_length(value: &FsLocations) -> usize
    requires { length (fs_locations value.now) ≤ 65536 }
    ensures { result ≡ length (fs_locations value.now) }
{
    path_length(value.root.items()) + 4 + places_length(value.locations.items())
}

fn places_length(places: &[Location]) -> usize
    requires { length (flat_map location places.now) ≤ 65536 }
    ensures { result ≡ length (flat_map location places.now) }
{
    let mut sum = 0;
    for place in places {
        sum += location_length(place);
    }
    sum
}

#[tactic(auto, using(crate::proofs::LengthLaws::location_long))]
fn location_length(place: &Location) -> usize
    requires { length (location place.now) ≤ 65536 }
    ensures { result ≡ length (location place.now) }
{
    path_length(place.servers.items()) + path_length(place.root.items())
}

#[tactic(auto, using(crate::proofs::LengthLaws::path_long))]
fn path_length(names: &[Bytes]) -> usize
    requires { length (path names.now) ≤ 65536 }
    ensures { result ≡ length (path names.now) }
{
    4 + names_length(names)
}

fn names_length(names: &[Bytes]) -> usize
    requires { length (flat_map opaque names.now) ≤ 65536 }
    ensures { result ≡ length (flat_map opaque names.now) }
{
    let mut sum = 0;
    for name in names {
        sum += opaque_length(name.items());
    }
    sum
}
