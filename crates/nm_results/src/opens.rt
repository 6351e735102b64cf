//! The value of OPEN.
ghost use Rattle.std.specs.Prelude.{◌≡◌, ◌++◌, ◌==◌, nat_le};
ghost use Rattle.nm_xdr.specs.Places.{Gives, Puts};
ghost use Rattle.nm_types.specs.declared.results.OpenDelegation.TheVariants as delegation;
ghost use Rattle.nm_items.specs.Takes.{Takes};
ghost use Rattle.nm_results.specs.Opens.{ace_behind, delegation_bytes, reads_at, writes_at, kind_at, delegation_as, delegation_at, written_delegation, ace, no_ace, open_at, open_bytes, written_open, IsOpen};

use crate::parts::{put_change, take_change};
use nm_items::{ReadFault, put_stateid, take_stateid, take_words};
use nm_types::{OpenDelegation, OpenOk, StateId};
use nm_xdr::{Cursor, Memory, Writer, XdrFault};
use std::alloc::Global;

/// How far a file may grow that a delegation for writing is written for, in bytes.
pub(crate) const SIZE_LIMIT: u64 = 1_048_576;

/// Takes the value of OPEN.
#[tactic(auto, unfolding(crate::specs::Opens::open_at))]
pub(crate) fn take_open(alloc: Global, cursor: &mut Cursor<'_>) -> Result<OpenOk, ReadFault>
    ensures { Takes open_at cursor.old result cursor.new }
{
    let stateid = take_stateid(cursor)?;
    let cinfo = take_change(cursor)?;
    let rflags = cursor.take_u32()?;
    let attrset = take_words(alloc, cursor, 8)?;
    let delegation = take_delegation(cursor)?;
    Ok(OpenOk {
        stateid,
        cinfo,
        rflags,
        attrset,
        delegation,
    })
}

#[tactic(auto, unfolding(crate::specs::Opens::delegation_at))]
fn take_delegation(cursor: &mut Cursor<'_>) -> Result<OpenDelegation, XdrFault>
    ensures { Gives (λ d. d) delegation_at cursor.old result cursor.new }
{
    let kind = take_kind(cursor)?;
    take_delegation_of(cursor, kind)
}

/// Takes the number of a kind of delegation.
#[tactic(auto, unfolding(crate::specs::Opens::kind_at))]
pub(crate) fn take_kind(cursor: &mut Cursor<'_>) -> Result<u32, XdrFault>
    ensures { Gives (λ n. n) kind_at cursor.old result cursor.new }
{
    let at = cursor.place();
    let got = cursor.take_u32()?;
    if got > 2 {
        return Err(XdrFault::Enum { at, got });
    }
    Ok(got)
}

#[tactic(auto, unfolding(crate::specs::Opens::delegation_as))]
fn take_delegation_of(cursor: &mut Cursor<'_>, kind: u32) -> Result<OpenDelegation, XdrFault>
    ensures { Gives (λ d. d) (delegation_as kind) cursor.old result cursor.new }
{
    if kind == 0 {
        return Ok(OpenDelegation::None);
    }
    if kind == 1 {
        return take_reading(cursor);
    }
    take_writing(cursor)
}

#[tactic(auto, unfolding(crate::specs::Opens::reads_at))]
fn take_reading(cursor: &mut Cursor<'_>) -> Result<OpenDelegation, XdrFault>
    ensures { Gives (λ d. d) reads_at cursor.old result cursor.new }
{
    let stateid = take_stateid(cursor)?;
    cursor.take_bool()?;
    pass_ace(cursor, OpenDelegation::Read(stateid))
}

#[tactic(auto, unfolding(crate::specs::Opens::writes_at))]
fn take_writing(cursor: &mut Cursor<'_>) -> Result<OpenDelegation, XdrFault>
    ensures { Gives (λ d. d) writes_at cursor.old result cursor.new }
{
    let stateid = take_stateid(cursor)?;
    cursor.take_bool()?;
    cursor.take_only(1)?;
    cursor.take_u64()?;
    pass_ace(cursor, OpenDelegation::Write(stateid))
}

// Passes over an ace, and answers the delegation that it belongs to.
#[tactic(auto, unfolding(crate::specs::Opens::ace_behind))]
fn pass_ace(cursor: &mut Cursor<'_>, delegation: OpenDelegation) -> Result<OpenDelegation, XdrFault>
    ensures { Gives (λ d. d) (ace_behind delegation) cursor.old result cursor.new }
{
    cursor.take_u32()?;
    cursor.take_u32()?;
    cursor.take_u32()?;
    cursor.take_bytes(1024)?;
    Ok(delegation)
}

/// Puts the value of OPEN.
#[tactic(auto, using(nm_xdr::proofs::PutLaws::front_there, nm_xdr::proofs::PutLaws::front_stands), unfolding(crate::specs::Opens::open_bytes))]
pub(crate) fn put_open(writer: &mut Writer, value: &OpenOk) -> Result<(), Memory>
    requires { IsOpen value.now }
    ensures { Puts writer.old (open_bytes (written_open value.now)) result writer.new }
{
    put_stateid(writer, value.stateid)?;
    put_change(writer, &value.cinfo)?;
    writer.put_u32(value.rflags)?;
    writer.put_words(value.attrset.items())?;
    put_delegation(writer, &value.delegation)?;
    Ok(())
}

#[tactic(auto, using(nm_xdr::proofs::PutLaws::front_there, nm_xdr::proofs::PutLaws::front_stands), unfolding(crate::specs::Opens::delegation_bytes))]
fn put_delegation(writer: &mut Writer, value: &OpenDelegation) -> Result<(), Memory>
    ensures { Puts writer.old (delegation_bytes (written_delegation value.now)) result writer.new }
{
    match value {
        OpenDelegation::None => writer.put_u32(0),
        OpenDelegation::Read(stateid) => put_reading(writer, stateid),
        OpenDelegation::Write(stateid) => put_writing(writer, stateid),
    }
}

#[tactic(auto, using(nm_xdr::proofs::PutLaws::front_there, nm_xdr::proofs::PutLaws::front_stands), unfolding(crate::specs::Opens::delegation_bytes))]
fn put_reading(writer: &mut Writer, stateid: &StateId) -> Result<(), Memory>
    ensures { Puts writer.old (delegation_bytes (written_delegation (delegation.Read stateid.now))) result writer.new }
{
    writer.put_u32(1)?;
    put_stateid(writer, *stateid)?;
    writer.put_bool(false)?;
    put_no_ace(writer)?;
    Ok(())
}

#[tactic(auto, using(nm_xdr::proofs::PutLaws::front_there, nm_xdr::proofs::PutLaws::front_stands), unfolding(crate::specs::Opens::delegation_bytes))]
fn put_writing(writer: &mut Writer, stateid: &StateId) -> Result<(), Memory>
    ensures { Puts writer.old (delegation_bytes (written_delegation (delegation.Write stateid.now))) result writer.new }
{
    writer.put_u32(2)?;
    put_stateid(writer, *stateid)?;
    writer.put_bool(false)?;
    writer.put_u32(1)?;
    writer.put_u64(SIZE_LIMIT)?;
    put_no_ace(writer)?;
    Ok(())
}

#[tactic(auto, using(nm_xdr::proofs::PutLaws::front_there, nm_xdr::proofs::PutLaws::front_stands), unfolding(crate::specs::Opens::ace))]
fn put_no_ace(writer: &mut Writer) -> Result<(), Memory>
    ensures { Puts writer.old (ace no_ace) result writer.new }
{
    writer.put_u32(0)?;
    writer.put_u32(0)?;
    writer.put_u32(0)?;
    writer.put_opaque(&[])
}
