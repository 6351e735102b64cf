//! The attributes that are known, and what their values are.
ghost use Rattle.std.specs.Prelude.{◌≡◌};
ghost use Rattle.nm_attrs.specs.Attributes.{of_kind, table};

use crate::Bitmap;
use nm_types::{Bytes, Items};

/// A path: its names, from the root on (RFC 7531, pathname4).
pub type Path = Items<Bytes>;

/// Where a file system is: servers that have it, and its root there (RFC 7531, fs_location4).
#[derive(Debug, Drop)]
pub struct Location {
    /// The names of the servers, each of at most 1,048,576 bytes.
    pub servers: Path,
    /// Its root there.
    pub root: Path,
}

/// The places of a file system.
pub type Locations = Items<Location>;

/// Where a file system is (RFC 7530, 5.8; RFC 7531, fs_locations4).
#[derive(Debug, Drop)]
pub struct FsLocations {
    /// Its root at the server that is asked.
    pub root: Path,
    pub locations: Locations,
}

/// The value of an attribute.
#[derive(Debug, Drop)]
pub enum AttrValue {
    /// Numbers of attributes.
    Words(Bitmap),
    U32(u32),
    U64(u64),
    Bool(bool),
    /// The two numbers of a file system (RFC 7531, fsid4).
    Fsid { major: u64, minor: u64 },
    /// A filehandle of at most 128 bytes.
    FileHandle(Bytes),
    Locations(FsLocations),
}

/// An attribute of a file, with its value.
#[derive(Debug, Drop)]
pub struct Attr {
    /// Its number.
    pub bit: u32,
    pub value: AttrValue,
}

/// Attributes of a file, by rising number.
pub type Attrs = Items<Attr>;

/// What the value of an attribute is.
#[derive(Clone, Copy)]
pub enum AttrKind {
    Words,
    U32,
    U64,
    Bool,
    Fsid,
    FileHandle,
    Locations,
}

/// An attribute that is known: its number, and what its value is.
#[derive(Clone, Copy)]
pub struct AttrLayout {
    pub bit: u32,
    pub kind: AttrKind,
}

fn layout(bit: u32, kind: AttrKind) -> AttrLayout
    ensures { result ≡ of_kind kind bit }
{
    AttrLayout { bit, kind }
}

/// The attributes that are supported, by rising number (RFC 7530, 5.8).
#[tactic(auto, unfolding(crate::specs::Attributes::table))]
pub(crate) fn supported_attributes() -> [AttrLayout; 16]
    ensures { result ≡ table }
{
    [
        layout(0, AttrKind::Words),
        layout(1, AttrKind::U32),
        layout(2, AttrKind::U32),
        layout(3, AttrKind::U64),
        layout(4, AttrKind::U64),
        layout(5, AttrKind::Bool),
        layout(6, AttrKind::Bool),
        layout(7, AttrKind::Bool),
        layout(8, AttrKind::Fsid),
        layout(9, AttrKind::Bool),
        layout(10, AttrKind::U32),
        layout(11, AttrKind::U32),
        layout(19, AttrKind::FileHandle),
        layout(20, AttrKind::U64),
        layout(24, AttrKind::Locations),
        layout(33, AttrKind::U32),
    ]
}
