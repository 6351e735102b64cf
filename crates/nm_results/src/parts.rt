//! The change of a directory, which values of several results have.
ghost use Rattle.std.specs.Prelude.{◌≡◌};
ghost use Rattle.nm_xdr.specs.Places.{Gives, Puts};
ghost use Rattle.nm_results.specs.Parts.{change_at, change, written_change};

use nm_types::ChangeInfo;
use nm_xdr::{Cursor, Memory, Writer, XdrFault};

/// Takes the change of a directory, whether it is atomic or not.
#[tactic(auto, unfolding(crate::specs::Parts::change_at))]
pub(crate) fn take_change(cursor: &mut Cursor<'_>) -> Result<ChangeInfo, XdrFault>
    ensures { Gives (λ c. c) change_at cursor.old result cursor.new }
{
    cursor.take_bool()?;
    let before = cursor.take_u64()?;
    let after = cursor.take_u64()?;
    Ok(ChangeInfo { before, after })
}

/// Puts the change of a directory, which is atomic.
#[tactic(auto, using(nm_xdr::proofs::PutLaws::front_there, nm_xdr::proofs::PutLaws::front_stands), unfolding(crate::specs::Parts::change))]
pub(crate) fn put_change(writer: &mut Writer, value: &ChangeInfo) -> Result<(), Memory>
    ensures { Puts writer.old (change (written_change value.now)) result writer.new }
{
    writer.put_bool(true)?;
    writer.put_u64(value.before)?;
    writer.put_u64(value.after)
}
