//! Stateids and filehandles.
ghost use Rattle.std.specs.Prelude.{◌≡◌, ◌++◌, OnOk, OnErr};
ghost use Rattle.nm_xdr.specs.Places.{Gives};
ghost use Rattle.nm_types.specs.Wire.{is_zeros, is_ones, stateid_bytes, stateid_from};
ghost use Rattle.nm_items.specs.Parts.{stateid, other_at, stateid_at, ref_at, numbers_of, handle_at};

use nm_types::{Handle, StateId, StateRef};
use nm_xdr::{Cursor, Memory, Writer, XdrFault};

/// Takes a stateid of any 16 bytes (RFC 7531, stateid4).
///
/// Short at the seqid, or at the 12 bytes behind it, where either isn't all there.
pub fn take_stateid(cursor: &mut Cursor<'_>) -> Result<StateId, XdrFault>
    ensures item { Gives (λ s. s) stateid_at cursor.old result cursor.new }
    ensures unmoved { OnErr result (cursor.new ≡ cursor.old) }
{
    let start = cursor.fork();
    let stateid = take_numbers(cursor);
    if stateid.is_err() {
        *cursor = start;
    }
    stateid
}

#[tactic(auto, unfolding(crate::specs::Parts::stateid_at))]
fn take_numbers(cursor: &mut Cursor<'_>) -> Result<StateId, XdrFault>
    ensures { Gives (λ s. s) stateid_at cursor.old result cursor.new }
{
    let seqid = cursor.take_u32()?;
    let (fs, counter) = take_other(cursor)?;
    Ok(StateId { seqid, fs, counter })
}

// The 12 bytes behind a stateid's seqid, which are one item.
#[tactic(auto, unfolding(crate::specs::Parts::other_at))]
fn take_other(cursor: &mut Cursor<'_>) -> Result<(u32, u64), XdrFault>
    ensures { Gives (λ o. o) other_at cursor.old result cursor.new }
{
    let at = cursor.place();
    let Ok(fs) = cursor.take_u32() else {
        return Err(XdrFault::Short { at });
    };
    let Ok(counter) = cursor.take_u64() else {
        return Err(XdrFault::Short { at });
    };
    Ok((fs, counter))
}

/// Takes a stateid, and tells it apart from the special ones (RFC 7530, 9.1.4.3).
///
/// Short at the seqid, or at the 12 bytes behind it, where either isn't all there.
#[tactic(auto, unfolding(crate::specs::Parts::ref_at))]
pub fn take_ref(cursor: &mut Cursor<'_>) -> Result<StateRef, XdrFault>
    ensures item { Gives (λ s. s) ref_at cursor.old result cursor.new }
    ensures unmoved { OnErr result (cursor.new ≡ cursor.old) }
{
    Ok(ref_of_numbers(take_stateid(cursor)?))
}

/// The stateid of these three numbers: a special one where all of its bytes are 0 or all are 255.
#[tactic(auto, unfolding(nm_types::specs::Wire::is_zeros, nm_types::specs::Wire::is_ones))]
pub fn ref_of_numbers(s: StateId) -> StateRef
    ensures { result ≡ stateid_from s }
{
    if s.seqid == 0 && s.fs == 0 && s.counter == 0 {
        StateRef::Zeros
    } else if s.seqid == u32::MAX && s.fs == u32::MAX && s.counter == u64::MAX {
        StateRef::Ones
    } else {
        StateRef::Named(s)
    }
}

/// The three numbers of a stateid, also of a special one.
#[tactic(auto, unfolding(crate::specs::Parts::numbers_of))]
pub fn numbers_of(stateid: &StateRef) -> StateId
    ensures { result ≡ numbers_of stateid.now }
{
    match stateid {
        StateRef::Zeros => StateId {
            seqid: 0,
            fs: 0,
            counter: 0,
        },
        StateRef::Ones => StateId {
            seqid: u32::MAX,
            fs: u32::MAX,
            counter: u64::MAX,
        },
        StateRef::Named(numbers) => *numbers,
    }
}

/// Puts a stateid of any three numbers.
///
/// Memory where there is none for its 16 bytes.
pub fn put_stateid(writer: &mut Writer, value: StateId) -> Result<(), Memory>
    ensures ok { OnOk result (writer.new ≡ writer.old ++ stateid value) }
    ensures err { OnErr result (writer.new ≡ writer.old) }
{
    writer.put_bytes(&StateRef::Named(value).wire())
}

/// Puts a stateid, also a special one.
///
/// Memory where there is none for its 16 bytes.
pub fn put_ref(writer: &mut Writer, value: &StateRef) -> Result<(), Memory>
    ensures ok { OnOk result (writer.new ≡ writer.old ++ stateid_bytes value.now) }
    ensures err { OnErr result (writer.new ≡ writer.old) }
{
    writer.put_bytes(&value.wire())
}

/// Takes the filehandle of a file of this profile (RFC 7531, nfs_fh4).
///
/// Short at its length, whatever is wrong with it, also where [`Handle::read`] doesn't give it.
#[tactic(auto, unfolding(crate::specs::Parts::handle_at))]
pub fn take_handle(cursor: &mut Cursor<'_>) -> Result<Handle, XdrFault>
    ensures item { Gives (λ h. h) handle_at cursor.old result cursor.new }
    ensures unmoved { OnErr result (cursor.new ≡ cursor.old) }
{
    let start = cursor.fork();
    let bytes = cursor.take_bytes(128)?;
    match Handle::read(bytes) {
        Some(handle) => Ok(handle),
        None => {
            let at = start.place();
            *cursor = start;
            Err(XdrFault::Short { at })
        }
    }
}
