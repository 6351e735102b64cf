//! The arguments of operations on opens: OPEN, OPEN_CONFIRM, OPEN_DOWNGRADE and CLOSE.
ghost use Rattle.nm_xdr.specs.Fields.{field, made};
ghost use Rattle.nm_xdr.specs.Items.{enum_at};
ghost use Rattle.nm_xdr.specs.Places.{Puts};
ghost use Rattle.nm_items.specs.Takes.{Takes};
ghost use Rattle.nm_types.specs.declared.args.Claim.TheVariants.{DelegateCur};
ghost use Rattle.nm_args.specs.declared.op.Op.TheVariants as op;
ghost use Rattle.nm_args.specs.Opens.{close, close_at, mode_of, making_of, made_how_at, how_at, open_type, open_type_at, IsOpenType, claiming_of, claimed_at, delegated_at, claim, claim_at, IsClaim, how_and_what_at, opening, opening_at, IsOpenArgs, confirm, confirm_at, downgrade, downgrade_at};

use crate::parts::{Clientids, put_owner, take_name, take_owner};
use crate::{Op, OwnedOpen};
use nm_items::{ReadFault, put_fattr, put_ref, take_fattr, take_ref};
use nm_types::{Claim, CloseArgs, OpenArgs, OpenConfirmArgs, OpenDowngradeArgs, OpenType};
use nm_xdr::{Cursor, Memory, Writer, XdrFault};
use std::alloc::Global;

#[tactic(auto, unfolding(crate::specs::Opens::close_at))]
pub(crate) fn take_close(cursor: &mut Cursor<'_>) -> Result<Op, ReadFault>
    ensures { Takes (field close_at (λ a. made (op.Close a))) cursor.old result cursor.new }
{
    let seqid = cursor.take_u32()?;
    let stateid = take_ref(cursor)?;
    Ok(Op::Close(CloseArgs { seqid, stateid }))
}

#[tactic(auto, using(nm_xdr::proofs::PutLaws::front_there, nm_xdr::proofs::PutLaws::front_stands), unfolding(crate::specs::Opens::close))]
pub(crate) fn put_close(writer: &mut Writer, args: &CloseArgs) -> Result<(), Memory>
    ensures { Puts writer.old (close args.now) result writer.new }
{
    writer.put_u32(args.seqid)?;
    put_ref(writer, &args.stateid)
}

#[tactic(auto, unfolding(crate::specs::Opens::opening_at))]
pub(crate) fn take_open(
    alloc: Global,
    cursor: &mut Cursor<'_>,
    which: Clientids,
) -> Result<Op, ReadFault>
    ensures { Takes (field (opening_at which) (λ a. made (op.Open a))) cursor.old result cursor.new }
{
    let seqid = cursor.take_u32()?;
    let access = cursor.take_u32()?;
    let deny = cursor.take_u32()?;
    let (clientid, owner) = take_owner(alloc, cursor, which)?;
    let (opentype, claim) = take_how_and_what(alloc, cursor)?;
    Ok(Op::Open(OwnedOpen {
        clientid,
        args: OpenArgs {
            seqid,
            access,
            deny,
            owner,
            opentype,
            claim,
        },
    }))
}

#[tactic(auto, using(nm_xdr::proofs::PutLaws::front_there, nm_xdr::proofs::PutLaws::front_stands), unfolding(crate::specs::Opens::opening, crate::specs::Opens::how_and_what))]
pub(crate) fn put_open(writer: &mut Writer, clientid: u64, args: &OpenArgs) -> Result<(), Memory>
    requires { IsOpenArgs args.now }
    ensures { Puts writer.old (opening (record { clientid = clientid; args = args.now })) result writer.new }
{
    writer.put_u32(args.seqid)?;
    writer.put_u32(args.access)?;
    writer.put_u32(args.deny)?;
    put_owner(writer, clientid, args.owner.items())?;
    put_open_type(writer, &args.opentype)?;
    put_claim(writer, &args.claim)?;
    Ok(())
}

// How the file is opened (openflag4), and by what it is named (open_claim4).
#[tactic(auto, unfolding(crate::specs::Opens::how_and_what_at))]
fn take_how_and_what(alloc: Global, cursor: &mut Cursor<'_>) -> Result<(OpenType, Claim), ReadFault>
    ensures { Takes how_and_what_at cursor.old result cursor.new }
{
    let opentype = take_open_type(alloc, cursor)?;
    let claim = take_claim(alloc, cursor)?;
    Ok((opentype, claim))
}

// Whether the file is made, and how (openflag4).
#[tactic(auto, unfolding(crate::specs::Opens::open_type_at, crate::specs::Opens::making_of, crate::specs::Opens::making_number, crate::specs::Opens::made_how_at, nm_xdr::specs::Items::enum_at))]
fn take_open_type(alloc: Global, cursor: &mut Cursor<'_>) -> Result<OpenType, ReadFault>
    ensures { Takes open_type_at cursor.old result cursor.new }
{
    let at = cursor.place();
    let got = cursor.take_u32()?;
    match got {
        0 => Ok(OpenType::NoCreate),
        1 => take_how(alloc, cursor),
        _ => Err(ReadFault::Xdr(XdrFault::Enum { at, got })),
    }
}

// How the file is made (createhow4).
#[tactic(auto, unfolding(crate::specs::Opens::mode_of, crate::specs::Opens::mode_number, crate::specs::Opens::how_at, nm_xdr::specs::Items::enum_at))]
fn take_how(alloc: Global, cursor: &mut Cursor<'_>) -> Result<OpenType, ReadFault>
    ensures { Takes (field (enum_at mode_of) how_at) cursor.old result cursor.new }
{
    let at = cursor.place();
    let got = cursor.take_u32()?;
    match got {
        0 => Ok(OpenType::Unchecked(take_fattr(alloc, cursor)?)),
        1 => Ok(OpenType::Guarded(take_fattr(alloc, cursor)?)),
        2 => Ok(OpenType::Exclusive(cursor.take_u64()?)),
        _ => Err(ReadFault::Xdr(XdrFault::Enum { at, got })),
    }
}

#[tactic(auto, using(nm_xdr::proofs::PutLaws::front_there, nm_xdr::proofs::PutLaws::front_stands), unfolding(crate::specs::Opens::open_type, crate::specs::Opens::making_number))]
fn put_open_type(writer: &mut Writer, opentype: &OpenType) -> Result<(), Memory>
    requires { IsOpenType opentype.now }
    ensures { Puts writer.old (open_type opentype.now) result writer.new }
{
    match opentype {
        OpenType::NoCreate => writer.put_u32(0),
        OpenType::Unchecked(attributes) => {
            writer.put_u32(1)?;
            writer.put_u32(0)?;
            put_fattr(writer, attributes)
        }
        OpenType::Guarded(attributes) => {
            writer.put_u32(1)?;
            writer.put_u32(1)?;
            put_fattr(writer, attributes)
        }
        OpenType::Exclusive(verifier) => {
            writer.put_u32(1)?;
            writer.put_u32(2)?;
            writer.put_u64(*verifier)
        }
    }
}

// By what the file is named (open_claim4).
#[tactic(auto, unfolding(crate::specs::Opens::claim_at, crate::specs::Opens::claiming_of, crate::specs::Opens::claiming_number, crate::specs::Opens::claimed_at, nm_xdr::specs::Items::enum_at))]
fn take_claim(alloc: Global, cursor: &mut Cursor<'_>) -> Result<Claim, ReadFault>
    ensures { Takes claim_at cursor.old result cursor.new }
{
    let at = cursor.place();
    let got = cursor.take_u32()?;
    match got {
        0 => Ok(Claim::Null(take_name(alloc, cursor)?)),
        1 => Ok(Claim::Previous(cursor.take_u32()?)),
        2 => take_delegated(alloc, cursor),
        3 => Ok(Claim::DelegatePrev(take_name(alloc, cursor)?)),
        _ => Err(ReadFault::Xdr(XdrFault::Enum { at, got })),
    }
}

// By a delegation and a name.
#[tactic(auto, unfolding(crate::specs::Opens::delegated_at))]
fn take_delegated(alloc: Global, cursor: &mut Cursor<'_>) -> Result<Claim, ReadFault>
    ensures { Takes (field delegated_at (λ d. made (DelegateCur d.0 d.1))) cursor.old result cursor.new }
{
    let stateid = take_ref(cursor)?;
    let name = take_name(alloc, cursor)?;
    Ok(Claim::DelegateCur { stateid, name })
}

#[tactic(auto, using(nm_xdr::proofs::PutLaws::front_there, nm_xdr::proofs::PutLaws::front_stands), unfolding(crate::specs::Opens::claim, crate::specs::Opens::claiming_number))]
fn put_claim(writer: &mut Writer, given: &Claim) -> Result<(), Memory>
    requires { IsClaim given.now }
    ensures { Puts writer.old (claim given.now) result writer.new }
{
    match given {
        Claim::Null(name) => {
            writer.put_u32(0)?;
            writer.put_opaque(name.items())
        }
        Claim::Previous(kind) => {
            writer.put_u32(1)?;
            writer.put_u32(*kind)
        }
        Claim::DelegateCur { stateid, name } => {
            writer.put_u32(2)?;
            put_ref(writer, stateid)?;
            writer.put_opaque(name.items())
        }
        Claim::DelegatePrev(name) => {
            writer.put_u32(3)?;
            writer.put_opaque(name.items())
        }
    }
}

#[tactic(auto, unfolding(crate::specs::Opens::confirm_at))]
pub(crate) fn take_confirm(cursor: &mut Cursor<'_>) -> Result<Op, ReadFault>
    ensures { Takes (field confirm_at (λ a. made (op.OpenConfirm a))) cursor.old result cursor.new }
{
    let stateid = take_ref(cursor)?;
    let seqid = cursor.take_u32()?;
    Ok(Op::OpenConfirm(OpenConfirmArgs { stateid, seqid }))
}

#[tactic(auto, using(nm_xdr::proofs::PutLaws::front_there, nm_xdr::proofs::PutLaws::front_stands), unfolding(crate::specs::Opens::confirm))]
pub(crate) fn put_confirm(writer: &mut Writer, args: &OpenConfirmArgs) -> Result<(), Memory>
    ensures { Puts writer.old (confirm args.now) result writer.new }
{
    put_ref(writer, &args.stateid)?;
    writer.put_u32(args.seqid)
}

#[tactic(auto, unfolding(crate::specs::Opens::downgrade_at))]
pub(crate) fn take_downgrade(cursor: &mut Cursor<'_>) -> Result<Op, ReadFault>
    ensures { Takes (field downgrade_at (λ a. made (op.OpenDowngrade a))) cursor.old result cursor.new }
{
    let stateid = take_ref(cursor)?;
    let seqid = cursor.take_u32()?;
    let access = cursor.take_u32()?;
    let deny = cursor.take_u32()?;
    Ok(Op::OpenDowngrade(OpenDowngradeArgs {
        stateid,
        seqid,
        access,
        deny,
    }))
}

#[tactic(auto, using(nm_xdr::proofs::PutLaws::front_there, nm_xdr::proofs::PutLaws::front_stands), unfolding(crate::specs::Opens::downgrade))]
pub(crate) fn put_downgrade(writer: &mut Writer, args: &OpenDowngradeArgs) -> Result<(), Memory>
    ensures { Puts writer.old (downgrade args.now) result writer.new }
{
    put_ref(writer, &args.stateid)?;
    writer.put_u32(args.seqid)?;
    writer.put_u32(args.access)?;
    writer.put_u32(args.deny)
}
