//! Kept calls, as an image of a file system has them.
ghost use Rattle.std.specs.Prelude.{◌≡◌, ◌++◌, OnOk, OnErr};
ghost use Rattle.nm_xdr.specs.Places.{Gives, Puts};
ghost use Rattle.nm_items.specs.Takes.{Takes};
ghost use Rattle.nm_args.specs.Operations.{code_of, args};
ghost use Rattle.nm_args.specs.Deeds.{op_of, deed_bytes, deed_code_at, deed_args_at, deed_at, IsDeed, ReadsFrom};

use crate::data::{put_access, put_commit, put_get_attr, put_read, put_set_attr, put_write};
use crate::locks::{put_lock, put_lock_test, put_release, put_unlock};
use crate::names::{put_create, put_lookup, put_read_dir, put_remove};
use crate::opens::{put_close, put_confirm, put_downgrade, put_open};
use crate::operations::take_args;
use crate::parts::Clientids;
use crate::{ArgsFault, OpCode};
use nm_items::ReadFault;
use nm_types::Deed;
use nm_xdr::{Cursor, Memory, Writer, XdrFault};
use std::alloc::Global;

/// Writes a call that an owner keeps: the number of its operation and its arguments (RFC 7531, nfs_argop4), in which every
/// clientid is 0. Its lengths are within their limits.
///
/// Memory where there is none for all of it: then what was written before is what there is.
pub fn write_deed(deed: &Deed, out: &mut Writer) -> Result<(), Memory>
    requires { IsDeed deed.now }
    ensures ok { OnOk result (out.new ≡ out.old ++ deed_bytes deed.now) }
    ensures err { OnErr result (out.new ≡ out.old) }
{
    let before = out.len();
    match put_deed(out, deed) {
        Ok(()) => Ok(()),
        Err(memory) => {
            out.cut_back(before);
            Err(memory)
        }
    }
}

/// Reads a call that an owner keeps: the number of an operation that reaches a file system and its arguments, in which every
/// clientid is 0. The cursor is left behind it, and after a refusal where it was.
///
/// GarbageAt, with the place of the first item that can't be read, where the number is none of such an operation, where an
/// item isn't of its layout, or where a clientid is another one. Memory where there is none for what is kept.
#[tactic(auto, using(crate::proofs::DeedLaws::refused))]
pub fn read_deed(alloc: Global, cursor: &mut Cursor<'_>) -> Result<Deed, ArgsFault>
    ensures value { ReadsFrom deed_at cursor.old result cursor.new }
    ensures unmoved { OnErr result (cursor.new ≡ cursor.old) }
{
    let start = cursor.fork();
    match take_deed(alloc, cursor) {
        Ok(deed) => Ok(deed),
        Err(fault) => {
            *cursor = start;
            Err(ArgsFault::from(fault))
        }
    }
}

#[tactic(auto, unfolding(crate::specs::Deeds::deed_at))]
fn take_deed(alloc: Global, cursor: &mut Cursor<'_>) -> Result<Deed, ReadFault>
    ensures { Takes deed_at cursor.old result cursor.new }
{
    let code = take_code(cursor)?;
    take_deed_args(alloc, cursor, code)
}

// Takes the number of an operation that reaches a file system.
#[tactic(auto, unfolding(crate::specs::Deeds::deed_code_at, nm_xdr::specs::Items::enum_at))]
fn take_code(cursor: &mut Cursor<'_>) -> Result<OpCode, XdrFault>
    ensures { Gives (λ code. code) deed_code_at cursor.old result cursor.new }
{
    let at = cursor.place();
    let got = cursor.take_u32()?;
    let Some(code) = OpCode::read(got) else {
        return Err(XdrFault::Enum { at, got });
    };
    if code.has_deed() {
        Ok(code)
    } else {
        Err(XdrFault::Short { at })
    }
}

// Takes its arguments. That they are no call's doesn't happen, since its number was looked at.
#[tactic(auto, unfolding(crate::specs::Deeds::deed_args_at))]
fn take_deed_args(alloc: Global, cursor: &mut Cursor<'_>, code: OpCode) -> Result<Deed, ReadFault>
    ensures { Takes (deed_args_at code) cursor.old result cursor.new }
{
    match take_args(alloc, cursor, code, Clientids::Zero)?.into_deed() {
        Some(deed) => Ok(deed),
        None => Err(ReadFault::Xdr(XdrFault::Short { at: cursor.place() })),
    }
}

#[tactic(auto, using(nm_xdr::proofs::PutLaws::front_there, nm_xdr::proofs::PutLaws::front_stands), unfolding(crate::specs::Deeds::deed_bytes, crate::specs::Operations::operation))]
fn put_deed(writer: &mut Writer, deed: &Deed) -> Result<(), Memory>
    requires { IsDeed deed.now }
    ensures { Puts writer.old (deed_bytes deed.now) result writer.new }
{
    writer.put_u32(code_of_deed(deed).number())?;
    put_deed_args(writer, deed)
}

// Which operation it is.
#[tactic(auto, unfolding(crate::specs::Deeds::op_of))]
fn code_of_deed(deed: &Deed) -> OpCode
    ensures { result ≡ code_of (op_of deed.now) }
{
    match deed {
        Deed::Access(_) => OpCode::Access,
        Deed::Close(_) => OpCode::Close,
        Deed::Commit(_) => OpCode::Commit,
        Deed::Create(_) => OpCode::Create,
        Deed::GetAttr(_) => OpCode::GetAttr,
        Deed::Lock(_) => OpCode::Lock,
        Deed::LockTest(_) => OpCode::LockT,
        Deed::Lookup(_) => OpCode::Lookup,
        Deed::LookupP => OpCode::LookupP,
        Deed::Open(_) => OpCode::Open,
        Deed::OpenConfirm(_) => OpCode::OpenConfirm,
        Deed::OpenDowngrade(_) => OpCode::OpenDowngrade,
        Deed::Read(_) => OpCode::Read,
        Deed::ReadDir(_) => OpCode::ReadDir,
        Deed::ReleaseLockOwner(_) => OpCode::ReleaseLockOwner,
        Deed::Remove(_) => OpCode::Remove,
        Deed::SetAttr(_) => OpCode::SetAttr,
        Deed::Unlock(_) => OpCode::LockU,
        Deed::Write(_) => OpCode::Write,
    }
}

// Its arguments.
#[tactic(auto, using(nm_xdr::proofs::PutLaws::front_there, nm_xdr::proofs::PutLaws::front_stands), unfolding(crate::specs::Operations::args, crate::specs::Deeds::op_of))]
fn put_deed_args(writer: &mut Writer, deed: &Deed) -> Result<(), Memory>
    requires { IsDeed deed.now }
    ensures { Puts writer.old (args (op_of deed.now)) result writer.new }
{
    match deed {
        Deed::Access(args) => put_access(writer, args),
        Deed::Close(args) => put_close(writer, args),
        Deed::Commit(args) => put_commit(writer, args),
        Deed::Create(args) => put_create(writer, args),
        Deed::GetAttr(args) => put_get_attr(writer, args),
        Deed::Lock(args) => put_lock(writer, 0, args),
        Deed::LockTest(args) => put_lock_test(writer, 0, args),
        Deed::Lookup(args) => put_lookup(writer, args),
        Deed::LookupP => Ok(()),
        Deed::Open(args) => put_open(writer, 0, args),
        Deed::OpenConfirm(args) => put_confirm(writer, args),
        Deed::OpenDowngrade(args) => put_downgrade(writer, args),
        Deed::Read(args) => put_read(writer, args),
        Deed::ReadDir(args) => put_read_dir(writer, args),
        Deed::ReleaseLockOwner(args) => put_release(writer, 0, args),
        Deed::Remove(args) => put_remove(writer, args),
        Deed::SetAttr(args) => put_set_attr(writer, args),
        Deed::Unlock(args) => put_unlock(writer, args),
        Deed::Write(args) => put_write(writer, args),
    }
}
