//! The value of OPEN in a kept reply. Nothing of it is passed over.
ghost use Rattle.std.specs.Prelude.{◌≡◌, ◌==◌};
ghost use Rattle.nm_xdr.specs.Places.{Gives, Puts};
ghost use Rattle.nm_items.specs.Takes.{Takes};
ghost use Rattle.nm_results.specs.KeptOpens.{atomic_at, ends_in_zero, kept_delegation_as, kept_delegation_at, kept_open_at, kept_reads_at, kept_writes_at, limit_at, no_ace_at, opened, opened_at, trimmed_at, IsOpened};

use crate::opens::{SIZE_LIMIT, put_open, take_kind};
use nm_items::{ReadFault, take_stateid, take_words};
use nm_types::{ChangeInfo, OpenDelegation, OpenOk, Opened, StateId, Words};
use nm_xdr::{Cursor, Memory, Writer, XdrFault};
use std::alloc::Global;

/// Takes what OPEN left: its value, and the file that became the current one.
#[tactic(auto, unfolding(crate::specs::KeptOpens::opened_at))]
pub(crate) fn take_opened(alloc: Global, cursor: &mut Cursor<'_>) -> Result<Opened, ReadFault>
    ensures { Takes opened_at cursor.old result cursor.new }
{
    let ok = take_kept_open(alloc, cursor)?;
    let file = cursor.take_u64()?;
    Ok(Opened { ok, file })
}

/// Puts what OPEN left.
#[tactic(auto, using(nm_xdr::proofs::PutLaws::front_there, nm_xdr::proofs::PutLaws::front_stands), unfolding(crate::specs::KeptOpens::opened))]
pub(crate) fn put_opened(writer: &mut Writer, value: &Opened) -> Result<(), Memory>
    requires { IsOpened value.now }
    ensures { Puts writer.old (opened value.now) result writer.new }
{
    put_open(writer, &value.ok)?;
    writer.put_u64(value.file)
}

#[tactic(auto, unfolding(crate::specs::KeptOpens::kept_open_at))]
fn take_kept_open(alloc: Global, cursor: &mut Cursor<'_>) -> Result<OpenOk, ReadFault>
    ensures { Takes kept_open_at cursor.old result cursor.new }
{
    let stateid = take_stateid(cursor)?;
    let cinfo = take_atomic(cursor)?;
    let rflags = cursor.take_u32()?;
    let attrset = take_trimmed(alloc, cursor)?;
    let delegation = take_kept_delegation(cursor)?;
    Ok(OpenOk {
        stateid,
        cinfo,
        rflags,
        attrset,
        delegation,
    })
}

// The change of a directory, which is atomic.
#[tactic(auto, unfolding(crate::specs::KeptOpens::atomic_at))]
fn take_atomic(cursor: &mut Cursor<'_>) -> Result<ChangeInfo, XdrFault>
    ensures { Gives (λ c. c) atomic_at cursor.old result cursor.new }
{
    cursor.take_only(1)?;
    let before = cursor.take_u64()?;
    let after = cursor.take_u64()?;
    Ok(ChangeInfo { before, after })
}

// A bitmap without a last word of 0.
#[tactic(auto, using(crate::proofs::KeptOpenLaws::words_gone), unfolding(crate::specs::KeptOpens::trimmed_at))]
fn take_trimmed(alloc: Global, cursor: &mut Cursor<'_>) -> Result<Words, ReadFault>
    ensures { Takes trimmed_at cursor.old result cursor.new }
{
    let words = take_words(alloc, cursor, 8)?;
    if ends_in_zero(words.items()) {
        let at = cursor.place() - 4;
        return Err(ReadFault::Xdr(XdrFault::Short { at }));
    }
    Ok(words)
}

fn ends_in_zero(words: &[u32]) -> bool
    ensures { result ≡ ends_in_zero words.now }
{
    match words.last() {
        Some(word) => *word == 0,
        None => false,
    }
}

#[tactic(auto, unfolding(crate::specs::KeptOpens::kept_delegation_at))]
fn take_kept_delegation(cursor: &mut Cursor<'_>) -> Result<OpenDelegation, XdrFault>
    ensures { Gives (λ d. d) kept_delegation_at cursor.old result cursor.new }
{
    let kind = take_kind(cursor)?;
    take_kept_delegation_of(cursor, kind)
}

#[tactic(auto, unfolding(crate::specs::KeptOpens::kept_delegation_as))]
fn take_kept_delegation_of(cursor: &mut Cursor<'_>, kind: u32) -> Result<OpenDelegation, XdrFault>
    ensures { Gives (λ d. d) (kept_delegation_as kind) cursor.old result cursor.new }
{
    if kind == 0 {
        return Ok(OpenDelegation::None);
    }
    if kind == 1 {
        return Ok(OpenDelegation::Read(take_kept_reading(cursor)?));
    }
    Ok(OpenDelegation::Write(take_kept_writing(cursor)?))
}

#[tactic(auto, unfolding(crate::specs::KeptOpens::kept_reads_at))]
fn take_kept_reading(cursor: &mut Cursor<'_>) -> Result<StateId, XdrFault>
    ensures { Gives (λ s. s) kept_reads_at cursor.old result cursor.new }
{
    let stateid = take_stateid(cursor)?;
    cursor.take_only(0)?;
    take_no_ace(cursor)?;
    Ok(stateid)
}

#[tactic(auto, unfolding(crate::specs::KeptOpens::kept_writes_at))]
fn take_kept_writing(cursor: &mut Cursor<'_>) -> Result<StateId, XdrFault>
    ensures { Gives (λ s. s) kept_writes_at cursor.old result cursor.new }
{
    let stateid = take_stateid(cursor)?;
    cursor.take_only(0)?;
    cursor.take_only(1)?;
    take_limit(cursor)?;
    take_no_ace(cursor)?;
    Ok(stateid)
}

// How far the file may grow.
#[tactic(auto, unfolding(crate::specs::KeptOpens::limit_at))]
fn take_limit(cursor: &mut Cursor<'_>) -> Result<u64, XdrFault>
    ensures { Gives (λ n. n) limit_at cursor.old result cursor.new }
{
    let at = cursor.place();
    let got = cursor.take_u64()?;
    if got != SIZE_LIMIT {
        return Err(XdrFault::Short { at });
    }
    Ok(got)
}

// An ace that names nobody.
#[tactic(auto, unfolding(crate::specs::KeptOpens::no_ace_at))]
fn take_no_ace(cursor: &mut Cursor<'_>) -> Result<(), XdrFault>
    ensures { Gives (λ u. u) no_ace_at cursor.old result cursor.new }
{
    cursor.take_only(0)?;
    cursor.take_only(0)?;
    cursor.take_only(0)?;
    cursor.take_only(0)?;
    Ok(())
}
