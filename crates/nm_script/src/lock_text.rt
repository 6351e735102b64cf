//! The printed text of byte-range locks.
ghost use Rattle.std.specs.Prelude.{◌≡◌, ◌++◌, OnOk, OnErr};
ghost use Rattle.nm_script.specs.Grammar.{kind_word as word_of};
ghost use Rattle.nm_script.specs.LockText.{length_of, range_text, denied_text};
ghost use Rattle.nm_script.specs.Writing.{Stands};

use crate::writing::{append, append_number};
use nm_types::{Denied, LockKind, LockRange, Memory};

// The word of a kind.
fn kind_word(kind: LockKind) -> &'static [u8]
    ensures { result.now ≡ word_of kind }
{
    match kind {
        LockKind::Read => b"r",
        LockKind::Write => b"w",
    }
}

// How many bytes a range has. One that reaches to the end of every file has 2^64 - 1.
#[tactic(auto, unfolding(crate::specs::LockText::length_of))]
fn length(range: &LockRange) -> u64
    ensures { result ≡ length_of range.now }
{
    if range.last == u64::MAX {
        return u64::MAX;
    }
    range.last.saturating_sub(range.first) + 1
}

/// `KIND OFFSET LENGTH`.
#[tactic(auto, using(crate::proofs::TextLemmas::stands_more), unfolding(crate::specs::LockText::range_text))]
pub(crate) fn append_range(out: &mut Vec<u8>, range: &LockRange) -> Result<(), Memory>
    ensures ok { OnOk result (out.new.items ≡ out.old.items ++ range_text range.now) }
    ensures err { OnErr result (Stands out.old.items out.new.items) }
{
    append(out, kind_word(range.kind))?;
    append(out, b" ")?;
    append_number(out, range.first)?;
    append(out, b" ")?;
    append_number(out, length(range))
}

/// `DENIED OWNER KIND OFFSET LENGTH`.
#[tactic(auto, using(crate::proofs::TextLemmas::stands_more), unfolding(crate::specs::LockText::denied_text))]
pub(crate) fn append_denied(out: &mut Vec<u8>, denied: &Denied) -> Result<(), Memory>
    ensures ok { OnOk result (out.new.items ≡ out.old.items ++ denied_text denied.now) }
    ensures err { OnErr result (Stands out.old.items out.new.items) }
{
    append(out, b"DENIED ")?;
    append(out, denied.owner.items())?;
    append(out, b" ")?;
    append_range(out, &denied.range)
}
