//! Reading of the value of a result.
ghost use Rattle.std.specs.Prelude.{◌≡◌};
ghost use Rattle.nm_items.specs.Takes.{Takes};
ghost use Rattle.nm_results.specs.Values.{value_at};

use crate::ResultValue;
use crate::arms::Arm;
use crate::clients::{take_address, take_client};
use crate::contents::{take_access, take_read, take_write};
use crate::directories::{take_create, take_dir};
use crate::locks::take_denied;
use crate::opens::take_open;
use crate::parts::take_change;
use nm_items::{ReadFault, take_fattr, take_kept, take_stateid, take_words};
use nm_xdr::Cursor;
use std::alloc::Global;

/// Takes a value of this kind.
#[tactic(auto, unfolding(crate::specs::Values::value_at))]
pub(crate) fn take_value(
    alloc: Global,
    cursor: &mut Cursor<'_>,
    arm: Arm,
) -> Result<ResultValue, ReadFault>
    ensures { Takes (value_at arm) cursor.old result cursor.new }
{
    Ok(match arm {
        Arm::Nothing => ResultValue::Nothing,
        Arm::Access => ResultValue::Access(take_access(cursor)?),
        Arm::Close => ResultValue::Close(take_stateid(cursor)?),
        Arm::Commit => ResultValue::Commit(cursor.take_u64()?),
        Arm::Create => ResultValue::Create(take_create(alloc, cursor)?),
        Arm::GetAttr => ResultValue::GetAttr(take_fattr(alloc, cursor)?),
        Arm::GetFh => ResultValue::GetFh(take_kept(alloc, cursor, 128)?),
        Arm::Lock => ResultValue::Lock(take_stateid(cursor)?),
        Arm::Denied => ResultValue::Denied(take_denied(alloc, cursor)?),
        Arm::LockU => ResultValue::LockU(take_stateid(cursor)?),
        Arm::Open => ResultValue::Open(take_open(alloc, cursor)?),
        Arm::OpenConfirm => ResultValue::OpenConfirm(take_stateid(cursor)?),
        Arm::OpenDowngrade => ResultValue::OpenDowngrade(take_stateid(cursor)?),
        Arm::Read => ResultValue::Read(take_read(alloc, cursor)?),
        Arm::ReadDir => ResultValue::ReadDir(take_dir(alloc, cursor)?),
        Arm::Remove => ResultValue::Remove(take_change(cursor)?),
        Arm::SetAttr => ResultValue::SetAttr(take_words(alloc, cursor, 8)?),
        Arm::SetClientId => ResultValue::SetClientId(take_client(cursor)?),
        Arm::ClientInUse => ResultValue::ClientInUse(take_address(alloc, cursor)?),
        Arm::Write => ResultValue::Write(take_write(cursor)?),
    })
}
