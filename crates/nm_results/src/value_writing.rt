//! Writing of the value of a result.
ghost use Rattle.std.specs.Prelude.{◌≡◌, ◌++◌};
ghost use Rattle.nm_xdr.specs.Places.{Puts};
ghost use Rattle.nm_results.specs.Values.{value_bytes, IsValue};

use crate::ResultValue;
use crate::clients::{put_address, put_client};
use crate::contents::{put_access, put_read, put_write};
use crate::directories::{put_create, put_dir};
use crate::locks::put_denied;
use crate::opens::put_open;
use crate::parts::put_change;
use nm_items::{put_fattr, put_stateid};
use nm_xdr::{Memory, Writer};

/// Puts a value.
#[tactic(auto, using(nm_xdr::proofs::PutLaws::front_there, nm_xdr::proofs::PutLaws::front_stands), unfolding(crate::specs::Values::value_bytes))]
pub(crate) fn put_result_value(writer: &mut Writer, value: &ResultValue) -> Result<(), Memory>
    requires { IsValue value.now }
    ensures { Puts writer.old (value_bytes value.now) result writer.new }
{
    match value {
        ResultValue::Nothing => Ok(()),
        ResultValue::Access(access) => put_access(writer, access),
        ResultValue::Close(stateid) => put_stateid(writer, *stateid),
        ResultValue::Commit(verifier) => writer.put_u64(*verifier),
        ResultValue::Create(create) => put_create(writer, create),
        ResultValue::GetAttr(attributes) => put_fattr(writer, attributes),
        ResultValue::GetFh(handle) => writer.put_opaque(handle.items()),
        ResultValue::Lock(stateid) => put_stateid(writer, *stateid),
        ResultValue::Denied(denied) => put_denied(writer, denied),
        ResultValue::LockU(stateid) => put_stateid(writer, *stateid),
        ResultValue::Open(open) => put_open(writer, open),
        ResultValue::OpenConfirm(stateid) => put_stateid(writer, *stateid),
        ResultValue::OpenDowngrade(stateid) => put_stateid(writer, *stateid),
        ResultValue::Read(read) => put_read(writer, read),
        ResultValue::ReadDir(dir) => put_dir(writer, dir),
        ResultValue::Remove(change) => put_change(writer, change),
        ResultValue::SetAttr(words) => writer.put_words(words.items()),
        ResultValue::SetClientId(client) => put_client(writer, client),
        ResultValue::ClientInUse(address) => put_address(writer, address),
        ResultValue::Write(write) => put_write(writer, write),
    }
}
