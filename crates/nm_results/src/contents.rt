//! The values of ACCESS, READ and WRITE.
ghost use Rattle.std.specs.Prelude.{◌≡◌, ◌++◌};
ghost use Rattle.nm_xdr.specs.Places.{Gives, Puts};
ghost use Rattle.nm_items.specs.Takes.{Takes};
ghost use Rattle.nm_results.specs.Contents.{access_at, access, read_at, read_bytes, IsRead, write_at, write_bytes};

use nm_items::{ReadFault, take_kept};
use nm_types::{AccessOk, ReadOk, WriteOk};
use nm_xdr::{Cursor, Memory, Writer, XdrFault};
use std::alloc::Global;

/// Takes the value of ACCESS.
#[tactic(auto, unfolding(crate::specs::Contents::access_at))]
pub(crate) fn take_access(cursor: &mut Cursor<'_>) -> Result<AccessOk, XdrFault>
    ensures { Gives (λ a. a) access_at cursor.old result cursor.new }
{
    let supported = cursor.take_u32()?;
    let access = cursor.take_u32()?;
    Ok(AccessOk { supported, access })
}

/// Puts the value of ACCESS.
#[tactic(auto, using(nm_xdr::proofs::PutLaws::front_there, nm_xdr::proofs::PutLaws::front_stands), unfolding(crate::specs::Contents::access))]
pub(crate) fn put_access(writer: &mut Writer, value: &AccessOk) -> Result<(), Memory>
    ensures { Puts writer.old (access value.now) result writer.new }
{
    writer.put_u32(value.supported)?;
    writer.put_u32(value.access)
}

/// Takes the value of READ.
#[tactic(auto, unfolding(crate::specs::Contents::read_at))]
pub(crate) fn take_read(alloc: Global, cursor: &mut Cursor<'_>) -> Result<ReadOk, ReadFault>
    ensures { Takes read_at cursor.old result cursor.new }
{
    let eof = cursor.take_bool()?;
    let data = take_kept(alloc, cursor, 65_536)?;
    Ok(ReadOk { eof, data })
}

/// Puts the value of READ.
#[tactic(auto, using(nm_xdr::proofs::PutLaws::front_there, nm_xdr::proofs::PutLaws::front_stands), unfolding(crate::specs::Contents::read_bytes))]
pub(crate) fn put_read(writer: &mut Writer, value: &ReadOk) -> Result<(), Memory>
    requires { IsRead value.now }
    ensures { Puts writer.old (read_bytes value.now) result writer.new }
{
    writer.put_bool(value.eof)?;
    writer.put_opaque(value.data.items())
}

/// Takes the value of WRITE.
#[tactic(auto, unfolding(crate::specs::Contents::write_at))]
pub(crate) fn take_write(cursor: &mut Cursor<'_>) -> Result<WriteOk, XdrFault>
    ensures { Gives (λ w. w) write_at cursor.old result cursor.new }
{
    let count = cursor.take_u32()?;
    let committed = cursor.take_u32()?;
    let writeverf = cursor.take_u64()?;
    Ok(WriteOk {
        count,
        committed,
        writeverf,
    })
}

/// Puts the value of WRITE.
#[tactic(auto, using(nm_xdr::proofs::PutLaws::front_there, nm_xdr::proofs::PutLaws::front_stands), unfolding(crate::specs::Contents::write_bytes))]
pub(crate) fn put_write(writer: &mut Writer, value: &WriteOk) -> Result<(), Memory>
    ensures { Puts writer.old (write_bytes value.now) result writer.new }
{
    writer.put_u32(value.count)?;
    writer.put_u32(value.committed)?;
    writer.put_u64(value.writeverf)
}
