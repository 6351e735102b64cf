//! How long results are, and whether they can be written.
ghost use Rattle.std.specs.Prelude.{◌≡◌, ◌↔◌, ◌<◌, ◌≤◌, ◌^◌, ◌++◌, All, Some, true, length, IsTrue};
ghost use Rattle.std.specs.List.{flat_map};
ghost use Rattle.nm_xdr.specs.Items.{hyper, flag, opaque};
ghost use Rattle.nm_items.specs.Parts.{stateid, IsStateId, bitmap, IsBitmap, fattr, AreAttributes};
ghost use Rattle.nm_results.specs.Arms.{is_op, arm_of};
ghost use Rattle.nm_results.specs.Clients.{client, IsClient, address, IsAddress};
ghost use Rattle.nm_results.specs.Contents.{access, IsAccess, read_bytes, IsRead, write_bytes, IsWrite};
ghost use Rattle.nm_results.specs.Directories.{create, written_create, IsCreate, entry, IsEntry, dir_bytes, IsDir};
ghost use Rattle.nm_results.specs.Lengths.{Measures, both};
ghost use Rattle.nm_results.specs.Locks.{denied, written_denied, IsDenied};
ghost use Rattle.nm_results.specs.Opens.{delegation_bytes, written_delegation, IsDelegation, open_bytes, written_open, IsOpen};
ghost use Rattle.nm_results.specs.Parts.{change, written_change, IsChange};
ghost use Rattle.nm_results.specs.Results.{result_bytes, IsOpResult, results_bytes, AreResults};
ghost use Rattle.nm_results.specs.Values.{arm_with, value_bytes, IsValue};

use crate::arms::{Arm, arm_of, is_op};
use crate::{
    ClientAddress, DirEntry, LockDenied, OpResult, ReadDirOk, ResultValue, Results, SetClientIdOk,
};
use nm_types::{
    AccessOk, ChangeInfo, CreateOk, Fattr, OpenDelegation, OpenOk, ReadOk, StateId, WriteOk,
};

/// How many bytes `write_results` writes for results. `None` exactly where they can't be written: where a value isn't the one that its
/// operation has with its status, a length is past its limit, there are 2^32 results, or 2^64 bytes.
#[tactic(auto, unfolding(crate::specs::Results::results_bytes))]
pub fn results_length(value: &Results) -> Option<usize>
    ensures { Measures (AreResults value.now) (results_bytes value.now) result }
{
    if value.items.items().len() > u32::MAX as usize {
        return None;
    }
    let tag = opaque_length(value.tag.items(), 1024);
    let rows = rows_length(value.items.items());
    both(both(tag, rows), Some(8))
}

// The results, one after the other.
fn rows_length(results: &[OpResult]) -> Option<usize>
    ensures { Measures (All IsOpResult results.now) (flat_map result_bytes results.now) result }
{
    let mut sum: usize = 0;
    for item in results {
        sum = sum.checked_add(result_length(item)?)?;
    }
    Some(sum)
}

/// How many bytes a result has: 8 for its operation and its status, and those of its value. `None` exactly where it can't be written, as
/// of all results, or has 2^64 bytes.
#[tactic(auto, unfolding(crate::specs::Results::result_bytes))]
pub fn result_length(value: &OpResult) -> Option<usize>
    ensures { Measures (IsOpResult value.now) (result_bytes value.now) result }
{
    if !has_its_arm(value) {
        return None;
    }
    both(value_length(&value.value), Some(8))
}

// Whether the value is the one that the operation has with this status.
fn has_its_arm(value: &OpResult) -> bool
    ensures { IsTrue result ↔ ((is_op value.now.op ≡ true) × (arm_of value.now.op value.now.status ≡ Some (arm_with value.now.value))) }
{
    is_op(value.op) && arm_of(value.op, value.status) == Some(arm_with(&value.value))
}

// Which value this is.
fn arm_with(value: &ResultValue) -> Arm
    ensures { result ≡ arm_with value.now }
{
    match value {
        ResultValue::Nothing => Arm::Nothing,
        ResultValue::Access(_) => Arm::Access,
        ResultValue::Close(_) => Arm::Close,
        ResultValue::Commit(_) => Arm::Commit,
        ResultValue::Create(_) => Arm::Create,
        ResultValue::GetAttr(_) => Arm::GetAttr,
        ResultValue::GetFh(_) => Arm::GetFh,
        ResultValue::Lock(_) => Arm::Lock,
        ResultValue::Denied(_) => Arm::Denied,
        ResultValue::LockU(_) => Arm::LockU,
        ResultValue::Open(_) => Arm::Open,
        ResultValue::OpenConfirm(_) => Arm::OpenConfirm,
        ResultValue::OpenDowngrade(_) => Arm::OpenDowngrade,
        ResultValue::Read(_) => Arm::Read,
        ResultValue::ReadDir(_) => Arm::ReadDir,
        ResultValue::Remove(_) => Arm::Remove,
        ResultValue::SetAttr(_) => Arm::SetAttr,
        ResultValue::SetClientId(_) => Arm::SetClientId,
        ResultValue::ClientInUse(_) => Arm::ClientInUse,
        ResultValue::Write(_) => Arm::Write,
    }
}

#[tactic(auto, unfolding(crate::specs::Values::value_bytes))]
fn value_length(value: &ResultValue) -> Option<usize>
    ensures { Measures (IsValue value.now) (value_bytes value.now) result }
{
    match value {
        ResultValue::Nothing => Some(0),
        ResultValue::Access(access) => access_length(*access),
        ResultValue::Close(stateid) => stateid_length(*stateid),
        ResultValue::Commit(verifier) => hyper_length(*verifier),
        ResultValue::Create(create) => create_length(create),
        ResultValue::GetAttr(attributes) => fattr_length(attributes),
        ResultValue::GetFh(handle) => opaque_length(handle.items(), 128),
        ResultValue::Lock(stateid) => stateid_length(*stateid),
        ResultValue::Denied(denied) => denied_length(denied),
        ResultValue::LockU(stateid) => stateid_length(*stateid),
        ResultValue::Open(open) => open_length(open),
        ResultValue::OpenConfirm(stateid) => stateid_length(*stateid),
        ResultValue::OpenDowngrade(stateid) => stateid_length(*stateid),
        ResultValue::Read(read) => read_length(read),
        ResultValue::ReadDir(dir) => dir_length(dir),
        ResultValue::Remove(change) => change_length(*change),
        ResultValue::SetAttr(words) => bitmap_length(words.items()),
        ResultValue::SetClientId(client) => client_length(*client),
        ResultValue::ClientInUse(address) => address_length(address),
        ResultValue::Write(write) => write_length(*write),
    }
}

// The length of two parts.
fn both(a: Option<usize>, b: Option<usize>) -> Option<usize>
    ensures { result ≡ both a b }
{
    match (a, b) {
        (Some(a), Some(b)) => a.checked_add(b),
        _ => None,
    }
}

// ---- Values of a fixed length

#[tactic(auto, unfolding(nm_xdr::specs::Items::hyper))]
fn hyper_length(_value: u64) -> Option<usize>
    ensures { Measures (_value < 2 ^ 64) (hyper _value) result }
{
    Some(8)
}

#[tactic(auto, unfolding(crate::specs::Contents::access, nm_xdr::specs::Items::word))]
fn access_length(_value: AccessOk) -> Option<usize>
    ensures { Measures (IsAccess _value) (access _value) result }
{
    Some(8)
}

#[tactic(auto, unfolding(crate::specs::Contents::write_bytes, nm_xdr::specs::Items::word, nm_xdr::specs::Items::hyper))]
fn write_length(_value: WriteOk) -> Option<usize>
    ensures { Measures (IsWrite _value) (write_bytes _value) result }
{
    Some(16)
}

#[tactic(auto, unfolding(crate::specs::Clients::client, nm_xdr::specs::Items::hyper))]
fn client_length(_value: SetClientIdOk) -> Option<usize>
    ensures { Measures (IsClient _value) (client _value) result }
{
    Some(16)
}

#[tactic(auto, using(crate::proofs::LengthLaws::stateid_long))]
fn stateid_length(_value: StateId) -> Option<usize>
    ensures { Measures (IsStateId _value) (stateid _value) result }
{
    Some(16)
}

#[tactic(auto, unfolding(crate::specs::Parts::change, nm_xdr::specs::Items::word, nm_xdr::specs::Items::hyper, nm_xdr::specs::Items::flag))]
fn change_length(_value: ChangeInfo) -> Option<usize>
    ensures { Measures (IsChange _value) (change (written_change _value)) result }
{
    Some(20)
}

// ---- Values with lists in them

// A length, the bytes and their padding, of at most so many bytes.
#[tactic(auto, using(crate::proofs::LengthLaws::opaque_long))]
fn opaque_length(bytes: &[u8], most: usize) -> Option<usize>
    requires { most < 2 ^ 32 }
    ensures { Measures (length bytes.now ≤ most) (opaque bytes.now) result }
{
    let length = bytes.len();
    if length > most {
        return None;
    }
    Some(4 + (length + 3) / 4 * 4)
}

// A count, and the words.
#[tactic(auto, using(crate::proofs::LengthLaws::bitmap_long))]
fn bitmap_length(words: &[u32]) -> Option<usize>
    ensures { Measures (IsBitmap words.now) (bitmap words.now) result }
{
    let count = words.len();
    if count > 8 {
        return None;
    }
    Some(4 + 4 * count)
}

#[tactic(auto, unfolding(nm_items::specs::Parts::fattr))]
fn fattr_length(value: &Fattr) -> Option<usize>
    ensures { Measures (AreAttributes value.now) (fattr value.now) result }
{
    let words = bitmap_length(value.words.items());
    let values = opaque_length(value.values.items(), 65_536);
    both(words, values)
}

fn create_length(value: &CreateOk) -> Option<usize>
    ensures { Measures (IsCreate value.now) (create (written_create value.now)) result }
{
    both(
        change_length(value.cinfo),
        bitmap_length(value.attrset.items()),
    )
}

fn read_length(value: &ReadOk) -> Option<usize>
    ensures { Measures (IsRead value.now) (read_bytes value.now) result }
{
    both(Some(4), opaque_length(value.data.items(), 65_536))
}

fn address_length(value: &ClientAddress) -> Option<usize>
    ensures { Measures (IsAddress value.now) (address value.now) result }
{
    let netid = opaque_length(value.netid.items(), 1024);
    let addr = opaque_length(value.addr.items(), 1024);
    both(netid, addr)
}

// The numbers in front of the owner's text have 28 bytes.
fn denied_length(value: &LockDenied) -> Option<usize>
    ensures { Measures (IsDenied value.now) (denied (written_denied value.now)) result }
{
    let _offset = value.offset;
    let _length = value.length;
    let _clientid = value.clientid;
    both(Some(28), opaque_length(value.owner.items(), 1024))
}

fn open_length(value: &OpenOk) -> Option<usize>
    ensures { Measures (IsOpen value.now) (open_bytes (written_open value.now)) result }
{
    let _flags = value.rflags;
    let front = both(stateid_length(value.stateid), change_length(value.cinfo));
    let set = both(Some(4), bitmap_length(value.attrset.items()));
    both(both(front, set), delegation_length(&value.delegation))
}

// A delegation has a stateid, a flag and an ace that names nobody, and one for writing a limit.
fn delegation_length(value: &OpenDelegation) -> Option<usize>
    ensures { Measures (IsDelegation value.now) (delegation_bytes (written_delegation value.now)) result }
{
    match value {
        OpenDelegation::None => Some(4),
        OpenDelegation::Read(stateid) => both(Some(24), stateid_length(*stateid)),
        OpenDelegation::Write(stateid) => both(Some(36), stateid_length(*stateid)),
    }
}

// ---- READDIR

fn dir_length(value: &ReadDirOk) -> Option<usize>
    ensures { Measures (IsDir value.now) (dir_bytes value.now) result }
{
    let _cookieverf = value.cookieverf;
    both(Some(16), entries_length(value.entries.items()))
}

// Entries, each behind a flag.
fn entries_length(entries: &[DirEntry]) -> Option<usize>
    ensures { Measures (All IsEntry entries.now) (flat_map (λ e. flag true ++ entry e) entries.now) result }
{
    let mut sum: usize = 0;
    for entry in entries {
        sum = sum.checked_add(entry_length(entry)?)?;
    }
    Some(sum)
}

fn entry_length(value: &DirEntry) -> Option<usize>
    ensures { Measures (IsEntry value.now) (flag true ++ entry value.now) result }
{
    let _cookie = value.cookie;
    let name = opaque_length(value.name.items(), 1_048_576);
    both(Some(12), both(name, fattr_length(&value.attrs)))
}
