//! The values of SETCLIENTID.
ghost use Rattle.std.specs.Prelude.{◌≡◌, ◌++◌};
ghost use Rattle.nm_xdr.specs.Places.{Gives, Puts};
ghost use Rattle.nm_items.specs.Takes.{Takes};
ghost use Rattle.nm_results.specs.Clients.{client_at, client, address_at, address, IsAddress};

use crate::{ClientAddress, SetClientIdOk};
use nm_items::{ReadFault, take_kept};
use nm_xdr::{Cursor, Memory, Writer, XdrFault};
use std::alloc::Global;

/// Takes the value of SETCLIENTID.
#[tactic(auto, unfolding(crate::specs::Clients::client_at))]
pub(crate) fn take_client(cursor: &mut Cursor<'_>) -> Result<SetClientIdOk, XdrFault>
    ensures { Gives (λ c. c) client_at cursor.old result cursor.new }
{
    let clientid = cursor.take_u64()?;
    let confirm = cursor.take_u64()?;
    Ok(SetClientIdOk { clientid, confirm })
}

/// Puts the value of SETCLIENTID.
#[tactic(auto, using(nm_xdr::proofs::PutLaws::front_there, nm_xdr::proofs::PutLaws::front_stands), unfolding(crate::specs::Clients::client))]
pub(crate) fn put_client(writer: &mut Writer, value: &SetClientIdOk) -> Result<(), Memory>
    ensures { Puts writer.old (client value.now) result writer.new }
{
    writer.put_u64(value.clientid)?;
    writer.put_u64(value.confirm)
}

/// Takes the address of the client that uses a name.
#[tactic(auto, unfolding(crate::specs::Clients::address_at))]
pub(crate) fn take_address(
    alloc: Global,
    cursor: &mut Cursor<'_>,
) -> Result<ClientAddress, ReadFault>
    ensures { Takes address_at cursor.old result cursor.new }
{
    let netid = take_kept(alloc, cursor, 1024)?;
    let addr = take_kept(alloc, cursor, 1024)?;
    Ok(ClientAddress { netid, addr })
}

/// Puts that address.
#[tactic(auto, using(nm_xdr::proofs::PutLaws::front_there, nm_xdr::proofs::PutLaws::front_stands), unfolding(crate::specs::Clients::address))]
pub(crate) fn put_address(writer: &mut Writer, value: &ClientAddress) -> Result<(), Memory>
    requires { IsAddress value.now }
    ensures { Puts writer.old (address value.now) result writer.new }
{
    writer.put_opaque(value.netid.items())?;
    writer.put_opaque(value.addr.items())
}
