//! The arguments of operations on clients: SETCLIENTID and SETCLIENTID_CONFIRM.
ghost use Rattle.nm_xdr.specs.Fields.{field, made};
ghost use Rattle.nm_xdr.specs.Places.{Puts};
ghost use Rattle.nm_items.specs.Takes.{Takes};
ghost use Rattle.nm_args.specs.declared.op.Op.TheVariants as op;
ghost use Rattle.nm_args.specs.Clients.{address_at, set_client, set_client_at, IsSetClient, confirm_client, confirm_client_at};

use crate::parts::take_text;
use crate::{Op, SetClientIdArgs, SetClientIdConfirmArgs};
use nm_items::ReadFault;
use nm_types::Bytes;
use nm_xdr::{Cursor, Memory, Writer};
use std::alloc::Global;

#[tactic(auto, unfolding(crate::specs::Clients::set_client_at))]
pub(crate) fn take_set_client(alloc: Global, cursor: &mut Cursor<'_>) -> Result<Op, ReadFault>
    ensures { Takes (field set_client_at (λ a. made (op.SetClientId a))) cursor.old result cursor.new }
{
    let verifier = cursor.take_u64()?;
    let id = take_text(alloc, cursor)?;
    let program = cursor.take_u32()?;
    let (netid, addr) = take_address(alloc, cursor)?;
    let ident = cursor.take_u32()?;
    Ok(Op::SetClientId(SetClientIdArgs {
        verifier,
        id,
        program,
        netid,
        addr,
        ident,
    }))
}

// Where the callbacks of a client go (clientaddr4).
#[tactic(auto, unfolding(crate::specs::Clients::address_at))]
fn take_address(alloc: Global, cursor: &mut Cursor<'_>) -> Result<(Bytes, Bytes), ReadFault>
    ensures { Takes address_at cursor.old result cursor.new }
{
    let netid = take_text(alloc, cursor)?;
    let addr = take_text(alloc, cursor)?;
    Ok((netid, addr))
}

#[tactic(auto, using(nm_xdr::proofs::PutLaws::front_there, nm_xdr::proofs::PutLaws::front_stands), unfolding(crate::specs::Clients::set_client, crate::specs::Clients::address))]
pub(crate) fn put_set_client(writer: &mut Writer, args: &SetClientIdArgs) -> Result<(), Memory>
    requires { IsSetClient args.now }
    ensures { Puts writer.old (set_client args.now) result writer.new }
{
    writer.put_u64(args.verifier)?;
    writer.put_opaque(args.id.items())?;
    writer.put_u32(args.program)?;
    writer.put_opaque(args.netid.items())?;
    writer.put_opaque(args.addr.items())?;
    writer.put_u32(args.ident)
}

#[tactic(auto, unfolding(crate::specs::Clients::confirm_client_at))]
pub(crate) fn take_confirm_client(cursor: &mut Cursor<'_>) -> Result<Op, ReadFault>
    ensures { Takes (field confirm_client_at (λ a. made (op.SetClientIdConfirm a))) cursor.old result cursor.new }
{
    let clientid = cursor.take_u64()?;
    let verifier = cursor.take_u64()?;
    Ok(Op::SetClientIdConfirm(SetClientIdConfirmArgs { clientid, verifier }))
}

#[tactic(auto, using(nm_xdr::proofs::PutLaws::front_there, nm_xdr::proofs::PutLaws::front_stands), unfolding(crate::specs::Clients::confirm_client))]
pub(crate) fn put_confirm_client(
    writer: &mut Writer,
    args: &SetClientIdConfirmArgs,
) -> Result<(), Memory>
    ensures { Puts writer.old (confirm_client args.now) result writer.new }
{
    writer.put_u64(args.clientid)?;
    writer.put_u64(args.verifier)
}
