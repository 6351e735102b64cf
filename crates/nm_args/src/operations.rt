//! The arguments of each operation, by its number (RFC 7531, nfs_argop4).
ghost use Rattle.nm_xdr.specs.Fields.{field, made};
ghost use Rattle.nm_xdr.specs.Places.{Puts};
ghost use Rattle.nm_items.specs.Takes.{Takes};
ghost use Rattle.nm_args.specs.declared.op.Op.TheVariants as op;
ghost use Rattle.nm_args.specs.Operations.{handle_at, args_by, args, IsOp, operation};

use crate::clients::{put_confirm_client, put_set_client, take_confirm_client, take_set_client};
use crate::data::{
    put_access, put_commit, put_deleg_return, put_get_attr, put_read, put_set_attr, put_write,
    take_access, take_commit, take_deleg_return, take_get_attr, take_read, take_set_attr,
    take_write,
};
use crate::locks::{
    put_lock, put_lock_test, put_release, put_unlock, take_lock, take_lock_test, take_release,
    take_unlock,
};
use crate::names::{
    put_create, put_lookup, put_read_dir, put_remove, put_rename, take_create, take_lookup,
    take_read_dir, take_remove, take_rename,
};
use crate::opens::{
    put_close, put_confirm, put_downgrade, put_open, take_close, take_confirm, take_downgrade,
    take_open,
};
use crate::parts::{Clientids, take_name};
use crate::{Op, OpCode};
use nm_items::{ReadFault, put_fattr, take_fattr, take_kept};
use nm_xdr::{Cursor, Memory, Writer};
use std::alloc::Global;

/// Takes the arguments of an operation, with these clientids of owners.
#[tactic(auto, unfolding(crate::specs::Operations::args_by))]
pub(crate) fn take_args(
    alloc: Global,
    cursor: &mut Cursor<'_>,
    code: OpCode,
    which: Clientids,
) -> Result<Op, ReadFault>
    ensures { Takes (args_by which code) cursor.old result cursor.new }
{
    match code {
        OpCode::Access => take_access(cursor),
        OpCode::Close => take_close(cursor),
        OpCode::Commit => take_commit(cursor),
        OpCode::Create => take_create(alloc, cursor),
        OpCode::DelegPurge => Ok(Op::DelegPurge(cursor.take_u64()?)),
        OpCode::DelegReturn => take_deleg_return(cursor),
        OpCode::GetAttr => take_get_attr(alloc, cursor),
        OpCode::GetFh => Ok(Op::GetFh),
        OpCode::Link => Ok(Op::Link(take_name(alloc, cursor)?)),
        OpCode::Lock => take_lock(alloc, cursor, which),
        OpCode::LockT => take_lock_test(alloc, cursor, which),
        OpCode::LockU => take_unlock(cursor),
        OpCode::Lookup => take_lookup(alloc, cursor),
        OpCode::LookupP => Ok(Op::LookupP),
        OpCode::NVerify => Ok(Op::NVerify(take_fattr(alloc, cursor)?)),
        OpCode::Open => take_open(alloc, cursor, which),
        OpCode::OpenAttr => Ok(Op::OpenAttr(cursor.take_bool()?)),
        OpCode::OpenConfirm => take_confirm(cursor),
        OpCode::OpenDowngrade => take_downgrade(cursor),
        OpCode::PutFh => take_put_handle(alloc, cursor),
        OpCode::PutPubFh => Ok(Op::PutPubFh),
        OpCode::PutRootFh => Ok(Op::PutRootFh),
        OpCode::Read => take_read(cursor),
        OpCode::ReadDir => take_read_dir(alloc, cursor),
        OpCode::ReadLink => Ok(Op::ReadLink),
        OpCode::Remove => take_remove(alloc, cursor),
        OpCode::Rename => take_rename(alloc, cursor),
        OpCode::Renew => Ok(Op::Renew(cursor.take_u64()?)),
        OpCode::RestoreFh => Ok(Op::RestoreFh),
        OpCode::SaveFh => Ok(Op::SaveFh),
        OpCode::SecInfo => Ok(Op::SecInfo(take_name(alloc, cursor)?)),
        OpCode::SetAttr => take_set_attr(alloc, cursor),
        OpCode::SetClientId => take_set_client(alloc, cursor),
        OpCode::SetClientIdConfirm => take_confirm_client(cursor),
        OpCode::Verify => Ok(Op::Verify(take_fattr(alloc, cursor)?)),
        OpCode::Write => take_write(alloc, cursor),
        OpCode::ReleaseLockOwner => take_release(alloc, cursor, which),
    }
}

// Takes a filehandle of at most 128 bytes.
#[tactic(auto, unfolding(crate::specs::Operations::handle_at))]
fn take_put_handle(alloc: Global, cursor: &mut Cursor<'_>) -> Result<Op, ReadFault>
    ensures { Takes (field handle_at (λ a. made (op.PutFh a))) cursor.old result cursor.new }
{
    Ok(Op::PutFh(take_kept(alloc, cursor, 128)?))
}

/// Puts an operation: its number and its arguments.
#[tactic(auto, using(nm_xdr::proofs::PutLaws::front_there, nm_xdr::proofs::PutLaws::front_stands), unfolding(crate::specs::Operations::operation))]
pub(crate) fn put_operation(writer: &mut Writer, op: &Op) -> Result<(), Memory>
    requires { IsOp op.now }
    ensures { Puts writer.old (operation op.now) result writer.new }
{
    writer.put_u32(op.code().number())?;
    put_args(writer, op)
}

#[tactic(auto, using(nm_xdr::proofs::PutLaws::front_there, nm_xdr::proofs::PutLaws::front_stands), unfolding(crate::specs::Operations::args))]
fn put_args(writer: &mut Writer, op: &Op) -> Result<(), Memory>
    requires { IsOp op.now }
    ensures { Puts writer.old (args op.now) result writer.new }
{
    match op {
        Op::Access(args) => put_access(writer, args),
        Op::Close(args) => put_close(writer, args),
        Op::Commit(args) => put_commit(writer, args),
        Op::Create(args) => put_create(writer, args),
        Op::DelegReturn(args) => put_deleg_return(writer, args),
        Op::GetAttr(args) => put_get_attr(writer, args),
        Op::Lock(owned) => put_lock(writer, owned.clientid, &owned.args),
        Op::LockT(owned) => put_lock_test(writer, owned.clientid, &owned.args),
        Op::LockU(args) => put_unlock(writer, args),
        Op::Lookup(args) => put_lookup(writer, args),
        Op::Open(owned) => put_open(writer, owned.clientid, &owned.args),
        Op::OpenConfirm(args) => put_confirm(writer, args),
        Op::OpenDowngrade(args) => put_downgrade(writer, args),
        Op::Read(args) => put_read(writer, args),
        Op::ReadDir(args) => put_read_dir(writer, args),
        Op::Remove(args) => put_remove(writer, args),
        Op::Rename(args) => put_rename(writer, args),
        Op::SetAttr(args) => put_set_attr(writer, args),
        Op::SetClientId(args) => put_set_client(writer, args),
        Op::SetClientIdConfirm(args) => put_confirm_client(writer, args),
        Op::Write(args) => put_write(writer, args),
        Op::ReleaseLockOwner(owned) => put_release(writer, owned.clientid, &owned.args),
        Op::Link(bytes) | Op::PutFh(bytes) | Op::SecInfo(bytes) => {
            writer.put_opaque(bytes.items())
        }
        Op::NVerify(attributes) | Op::Verify(attributes) => put_fattr(writer, attributes),
        Op::DelegPurge(clientid) | Op::Renew(clientid) => writer.put_u64(*clientid),
        Op::OpenAttr(is_made) => writer.put_bool(*is_made),
        Op::GetFh
        | Op::LookupP
        | Op::PutPubFh
        | Op::PutRootFh
        | Op::ReadLink
        | Op::RestoreFh
        | Op::SaveFh => Ok(()),
    }
}
