//! Attributes of files (RFC 7530, 5.6 to 5.8), and bitmaps of their numbers: their layouts, read and written.
//!
//! [`read_fattr`] answers the attributes that a bitmap has and whose values are these bytes, all of them, exactly where the
//! layout of RFC 7531 holds; else the least number that isn't supported, and else the first fault of the bytes, at its
//! place. What [`write_fattr`] writes is read again as what was written. A list takes memory only as its rows are read.
//!
//! `specs/Bitmaps` says which numbers a bitmap has, `specs/Attributes` which attributes are supported, and the reading
//! and the one spelling of their values.
#![tactic(auto)]

mod bitmap;
mod fault;
mod laws;
mod lengths;
mod reading;
mod values;
mod writing;

pub use bitmap::{Bitmap, read_bitmap};
pub use fault::AttrFault;
pub use laws::{
    attributes_are_read_as_spelled, attributes_are_read_as_written, bitmaps_are_read_as_spelled,
    the_least_unsupported_is_told, the_supported_have_two_words,
};
pub use reading::{is_supported, read_fattr};
pub use values::{
    Attr, AttrKind, AttrLayout, AttrValue, Attrs, FsLocations, Location, Locations, Path,
};
pub use writing::{fattr_of, write_fattr};
