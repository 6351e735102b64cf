//! The arguments of operations on names in directories: CREATE, LOOKUP, READDIR, REMOVE and RENAME.
ghost use Rattle.nm_xdr.specs.Fields.{field, made};
ghost use Rattle.nm_xdr.specs.Places.{Puts};
ghost use Rattle.nm_items.specs.Takes.{Takes};
ghost use Rattle.nm_args.specs.declared.op.Op.TheVariants as op;
ghost use Rattle.nm_args.specs.Parts.{IsName};
ghost use Rattle.nm_args.specs.Names.{device, device_at, create_type, create_type_at, IsCreateType, create, create_at, IsCreate, lookup, lookup_at, remove, remove_at, read_dir, read_dir_at, IsReadDir, rename, rename_at, IsRename};

use crate::parts::take_name;
use crate::{Op, RenameArgs};
use nm_items::{ReadFault, put_fattr, take_fattr, take_words};
use nm_types::{CreateArgs, CreateType, Device, LookupArgs, ReadDirArgs, RemoveArgs};
use nm_xdr::{Cursor, Memory, Writer, XdrFault};
use std::alloc::Global;

#[tactic(auto, unfolding(crate::specs::Names::create_at))]
pub(crate) fn take_create(alloc: Global, cursor: &mut Cursor<'_>) -> Result<Op, ReadFault>
    ensures { Takes (field create_at (λ a. made (op.Create a))) cursor.old result cursor.new }
{
    let kind = take_create_type(alloc, cursor)?;
    let name = take_name(alloc, cursor)?;
    let attributes = take_fattr(alloc, cursor)?;
    Ok(Op::Create(CreateArgs {
        kind,
        name,
        attributes,
    }))
}

#[tactic(auto, using(nm_xdr::proofs::PutLaws::front_there, nm_xdr::proofs::PutLaws::front_stands), unfolding(crate::specs::Names::create))]
pub(crate) fn put_create(writer: &mut Writer, args: &CreateArgs) -> Result<(), Memory>
    requires { IsCreate args.now }
    ensures { Puts writer.old (create args.now) result writer.new }
{
    put_create_type(writer, &args.kind)?;
    writer.put_opaque(args.name.items())?;
    put_fattr(writer, &args.attributes)
}

// What is made, from 1 to 9 (createtype4).
#[tactic(auto, unfolding(crate::specs::Names::create_type_at, crate::specs::Names::kind_of, crate::specs::Names::kind_number, crate::specs::Names::kind_arm_at, nm_xdr::specs::Items::enum_at))]
fn take_create_type(alloc: Global, cursor: &mut Cursor<'_>) -> Result<CreateType, ReadFault>
    ensures { Takes create_type_at cursor.old result cursor.new }
{
    let at = cursor.place();
    let got = cursor.take_u32()?;
    match got {
        1 => Ok(CreateType::File),
        2 => Ok(CreateType::Directory),
        3 => Ok(CreateType::Block(take_device(cursor)?)),
        4 => Ok(CreateType::Character(take_device(cursor)?)),
        5 => Ok(CreateType::Link(take_name(alloc, cursor)?)),
        6 => Ok(CreateType::Socket),
        7 => Ok(CreateType::Fifo),
        8 => Ok(CreateType::AttributeDirectory),
        9 => Ok(CreateType::NamedAttribute),
        _ => Err(ReadFault::Xdr(XdrFault::Enum { at, got })),
    }
}

#[tactic(auto, using(nm_xdr::proofs::PutLaws::front_there, nm_xdr::proofs::PutLaws::front_stands), unfolding(crate::specs::Names::create_type, crate::specs::Names::kind_number))]
fn put_create_type(writer: &mut Writer, kind: &CreateType) -> Result<(), Memory>
    requires { IsCreateType kind.now }
    ensures { Puts writer.old (create_type kind.now) result writer.new }
{
    match kind {
        CreateType::File => writer.put_u32(1),
        CreateType::Directory => writer.put_u32(2),
        CreateType::Block(device) => {
            writer.put_u32(3)?;
            put_device(writer, device)
        }
        CreateType::Character(device) => {
            writer.put_u32(4)?;
            put_device(writer, device)
        }
        CreateType::Link(text) => {
            writer.put_u32(5)?;
            writer.put_opaque(text.items())
        }
        CreateType::Socket => writer.put_u32(6),
        CreateType::Fifo => writer.put_u32(7),
        CreateType::AttributeDirectory => writer.put_u32(8),
        CreateType::NamedAttribute => writer.put_u32(9),
    }
}

#[tactic(auto, unfolding(crate::specs::Names::device_at))]
fn take_device(cursor: &mut Cursor<'_>) -> Result<Device, ReadFault>
    ensures { Takes device_at cursor.old result cursor.new }
{
    let major = cursor.take_u32()?;
    let minor = cursor.take_u32()?;
    Ok(Device { major, minor })
}

#[tactic(auto, using(nm_xdr::proofs::PutLaws::front_there, nm_xdr::proofs::PutLaws::front_stands), unfolding(crate::specs::Names::device))]
fn put_device(writer: &mut Writer, numbers: &Device) -> Result<(), Memory>
    ensures { Puts writer.old (device numbers.now) result writer.new }
{
    writer.put_u32(numbers.major)?;
    writer.put_u32(numbers.minor)
}

#[tactic(auto, unfolding(crate::specs::Names::lookup_at))]
pub(crate) fn take_lookup(alloc: Global, cursor: &mut Cursor<'_>) -> Result<Op, ReadFault>
    ensures { Takes (field lookup_at (λ a. made (op.Lookup a))) cursor.old result cursor.new }
{
    let name = take_name(alloc, cursor)?;
    Ok(Op::Lookup(LookupArgs { name }))
}

#[tactic(auto, using(nm_xdr::proofs::PutLaws::front_there, nm_xdr::proofs::PutLaws::front_stands), unfolding(crate::specs::Names::lookup))]
pub(crate) fn put_lookup(writer: &mut Writer, args: &LookupArgs) -> Result<(), Memory>
    requires { IsName args.now.name }
    ensures { Puts writer.old (lookup args.now) result writer.new }
{
    writer.put_opaque(args.name.items())
}

#[tactic(auto, unfolding(crate::specs::Names::remove_at))]
pub(crate) fn take_remove(alloc: Global, cursor: &mut Cursor<'_>) -> Result<Op, ReadFault>
    ensures { Takes (field remove_at (λ a. made (op.Remove a))) cursor.old result cursor.new }
{
    let name = take_name(alloc, cursor)?;
    Ok(Op::Remove(RemoveArgs { name }))
}

#[tactic(auto, using(nm_xdr::proofs::PutLaws::front_there, nm_xdr::proofs::PutLaws::front_stands), unfolding(crate::specs::Names::remove))]
pub(crate) fn put_remove(writer: &mut Writer, args: &RemoveArgs) -> Result<(), Memory>
    requires { IsName args.now.name }
    ensures { Puts writer.old (remove args.now) result writer.new }
{
    writer.put_opaque(args.name.items())
}

#[tactic(auto, unfolding(crate::specs::Names::read_dir_at))]
pub(crate) fn take_read_dir(alloc: Global, cursor: &mut Cursor<'_>) -> Result<Op, ReadFault>
    ensures { Takes (field read_dir_at (λ a. made (op.ReadDir a))) cursor.old result cursor.new }
{
    let cookie = cursor.take_u64()?;
    let verifier = cursor.take_u64()?;
    let dircount = cursor.take_u32()?;
    let maxcount = cursor.take_u32()?;
    let words = take_words(alloc, cursor, 8)?;
    Ok(Op::ReadDir(ReadDirArgs {
        cookie,
        verifier,
        dircount,
        maxcount,
        words,
    }))
}

#[tactic(auto, using(nm_xdr::proofs::PutLaws::front_there, nm_xdr::proofs::PutLaws::front_stands), unfolding(crate::specs::Names::read_dir))]
pub(crate) fn put_read_dir(writer: &mut Writer, args: &ReadDirArgs) -> Result<(), Memory>
    requires { IsReadDir args.now }
    ensures { Puts writer.old (read_dir args.now) result writer.new }
{
    writer.put_u64(args.cookie)?;
    writer.put_u64(args.verifier)?;
    writer.put_u32(args.dircount)?;
    writer.put_u32(args.maxcount)?;
    writer.put_words(args.words.items())
}

#[tactic(auto, unfolding(crate::specs::Names::rename_at))]
pub(crate) fn take_rename(alloc: Global, cursor: &mut Cursor<'_>) -> Result<Op, ReadFault>
    ensures { Takes (field rename_at (λ a. made (op.Rename a))) cursor.old result cursor.new }
{
    let from = take_name(alloc, cursor)?;
    let to = take_name(alloc, cursor)?;
    Ok(Op::Rename(RenameArgs { from, to }))
}

#[tactic(auto, using(nm_xdr::proofs::PutLaws::front_there, nm_xdr::proofs::PutLaws::front_stands), unfolding(crate::specs::Names::rename))]
pub(crate) fn put_rename(writer: &mut Writer, args: &RenameArgs) -> Result<(), Memory>
    requires { IsRename args.now }
    ensures { Puts writer.old (rename args.now) result writer.new }
{
    writer.put_opaque(args.from.items())?;
    writer.put_opaque(args.to.items())
}
