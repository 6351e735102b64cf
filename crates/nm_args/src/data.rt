//! The arguments of operations on files' contents and attributes: ACCESS, COMMIT, DELEGRETURN, GETATTR, READ, SETATTR and
//! WRITE.
ghost use Rattle.nm_xdr.specs.Fields.{field, made};
ghost use Rattle.nm_items.specs.Parts.{IsBitmap};
ghost use Rattle.nm_xdr.specs.Places.{Puts};
ghost use Rattle.nm_items.specs.Takes.{Takes};
ghost use Rattle.nm_args.specs.declared.op.Op.TheVariants as op;
ghost use Rattle.nm_args.specs.Data.{access, access_at, commit, commit_at, deleg_return, deleg_return_at, get_attr, get_attr_at, reading, reading_at, set_attr, set_attr_at, IsSetAttr, writing, writing_at, IsWriting};

use crate::Op;
use crate::parts::{put_stable, take_stable};
use nm_items::{ReadFault, put_fattr, put_ref, take_fattr, take_kept, take_ref, take_words};
use nm_types::{
    AccessArgs, CommitArgs, DelegReturnArgs, GetAttrArgs, ReadArgs, SetAttrArgs, WriteArgs,
};
use nm_xdr::{Cursor, Memory, Writer};
use std::alloc::Global;

#[tactic(auto, unfolding(crate::specs::Data::access_at))]
pub(crate) fn take_access(cursor: &mut Cursor<'_>) -> Result<Op, ReadFault>
    ensures { Takes (field access_at (λ a. made (op.Access a))) cursor.old result cursor.new }
{
    let access = cursor.take_u32()?;
    Ok(Op::Access(AccessArgs { access }))
}

#[tactic(auto, using(nm_xdr::proofs::PutLaws::front_there, nm_xdr::proofs::PutLaws::front_stands), unfolding(crate::specs::Data::access))]
pub(crate) fn put_access(writer: &mut Writer, args: &AccessArgs) -> Result<(), Memory>
    ensures { Puts writer.old (access args.now) result writer.new }
{
    writer.put_u32(args.access)
}

#[tactic(auto, unfolding(crate::specs::Data::commit_at))]
pub(crate) fn take_commit(cursor: &mut Cursor<'_>) -> Result<Op, ReadFault>
    ensures { Takes (field commit_at (λ a. made (op.Commit a))) cursor.old result cursor.new }
{
    let offset = cursor.take_u64()?;
    let count = cursor.take_u32()?;
    Ok(Op::Commit(CommitArgs { offset, count }))
}

#[tactic(auto, using(nm_xdr::proofs::PutLaws::front_there, nm_xdr::proofs::PutLaws::front_stands), unfolding(crate::specs::Data::commit))]
pub(crate) fn put_commit(writer: &mut Writer, args: &CommitArgs) -> Result<(), Memory>
    ensures { Puts writer.old (commit args.now) result writer.new }
{
    writer.put_u64(args.offset)?;
    writer.put_u32(args.count)
}

#[tactic(auto, unfolding(crate::specs::Data::deleg_return_at))]
pub(crate) fn take_deleg_return(cursor: &mut Cursor<'_>) -> Result<Op, ReadFault>
    ensures { Takes (field deleg_return_at (λ a. made (op.DelegReturn a))) cursor.old result cursor.new }
{
    let stateid = take_ref(cursor)?;
    Ok(Op::DelegReturn(DelegReturnArgs { stateid }))
}

#[tactic(auto, using(nm_xdr::proofs::PutLaws::front_there, nm_xdr::proofs::PutLaws::front_stands), unfolding(crate::specs::Data::deleg_return))]
pub(crate) fn put_deleg_return(writer: &mut Writer, args: &DelegReturnArgs) -> Result<(), Memory>
    ensures { Puts writer.old (deleg_return args.now) result writer.new }
{
    put_ref(writer, &args.stateid)
}

#[tactic(auto, unfolding(crate::specs::Data::get_attr_at))]
pub(crate) fn take_get_attr(alloc: Global, cursor: &mut Cursor<'_>) -> Result<Op, ReadFault>
    ensures { Takes (field get_attr_at (λ a. made (op.GetAttr a))) cursor.old result cursor.new }
{
    let words = take_words(alloc, cursor, 8)?;
    Ok(Op::GetAttr(GetAttrArgs { words }))
}

#[tactic(auto, using(nm_xdr::proofs::PutLaws::front_there, nm_xdr::proofs::PutLaws::front_stands), unfolding(crate::specs::Data::get_attr))]
pub(crate) fn put_get_attr(writer: &mut Writer, args: &GetAttrArgs) -> Result<(), Memory>
    requires { IsBitmap args.now.words }
    ensures { Puts writer.old (get_attr args.now) result writer.new }
{
    writer.put_words(args.words.items())
}

#[tactic(auto, unfolding(crate::specs::Data::reading_at))]
pub(crate) fn take_read(cursor: &mut Cursor<'_>) -> Result<Op, ReadFault>
    ensures { Takes (field reading_at (λ a. made (op.Read a))) cursor.old result cursor.new }
{
    let stateid = take_ref(cursor)?;
    let offset = cursor.take_u64()?;
    let count = cursor.take_u32()?;
    Ok(Op::Read(ReadArgs {
        stateid,
        offset,
        count,
    }))
}

#[tactic(auto, using(nm_xdr::proofs::PutLaws::front_there, nm_xdr::proofs::PutLaws::front_stands), unfolding(crate::specs::Data::reading))]
pub(crate) fn put_read(writer: &mut Writer, args: &ReadArgs) -> Result<(), Memory>
    ensures { Puts writer.old (reading args.now) result writer.new }
{
    put_ref(writer, &args.stateid)?;
    writer.put_u64(args.offset)?;
    writer.put_u32(args.count)
}

#[tactic(auto, unfolding(crate::specs::Data::set_attr_at))]
pub(crate) fn take_set_attr(alloc: Global, cursor: &mut Cursor<'_>) -> Result<Op, ReadFault>
    ensures { Takes (field set_attr_at (λ a. made (op.SetAttr a))) cursor.old result cursor.new }
{
    let stateid = take_ref(cursor)?;
    let attributes = take_fattr(alloc, cursor)?;
    Ok(Op::SetAttr(SetAttrArgs {
        stateid,
        attributes,
    }))
}

#[tactic(auto, using(nm_xdr::proofs::PutLaws::front_there, nm_xdr::proofs::PutLaws::front_stands), unfolding(crate::specs::Data::set_attr))]
pub(crate) fn put_set_attr(writer: &mut Writer, args: &SetAttrArgs) -> Result<(), Memory>
    requires { IsSetAttr args.now }
    ensures { Puts writer.old (set_attr args.now) result writer.new }
{
    put_ref(writer, &args.stateid)?;
    put_fattr(writer, &args.attributes)
}

#[tactic(auto, unfolding(crate::specs::Data::writing_at))]
pub(crate) fn take_write(alloc: Global, cursor: &mut Cursor<'_>) -> Result<Op, ReadFault>
    ensures { Takes (field writing_at (λ a. made (op.Write a))) cursor.old result cursor.new }
{
    let stateid = take_ref(cursor)?;
    let offset = cursor.take_u64()?;
    let stable = take_stable(cursor)?;
    let data = take_kept(alloc, cursor, 1_048_576)?;
    Ok(Op::Write(WriteArgs {
        stateid,
        offset,
        stable,
        data,
    }))
}

#[tactic(auto, using(nm_xdr::proofs::PutLaws::front_there, nm_xdr::proofs::PutLaws::front_stands), unfolding(crate::specs::Data::writing))]
pub(crate) fn put_write(writer: &mut Writer, args: &WriteArgs) -> Result<(), Memory>
    requires { IsWriting args.now }
    ensures { Puts writer.old (writing args.now) result writer.new }
{
    put_ref(writer, &args.stateid)?;
    writer.put_u64(args.offset)?;
    put_stable(writer, args.stable)?;
    writer.put_opaque(args.data.items())
}
