//! The printed text of what clients were told.
ghost use Rattle.std.specs.Prelude.{◌≡◌, ◌++◌, flat_map, OnOk, OnErr};
ghost use Rattle.nm_script.specs.OutcomeText.{status_text, verb_text, data_text, end_text, read_text, name_text, told_text, outcome_text, idle_text};
ghost use Rattle.nm_script.specs.Writing.{Stands};

use crate::lock_text::append_denied;
use crate::writing::{append, append_number};
use crate::{IdleRow, OutcomeRow, Told};
use nm_types::{Bytes, Memory, OpStatus, ReadOk, Verb};

// The printed word of a status.
#[tactic(auto, unfolding(crate::specs::OutcomeText::status_text))]
fn status_word(status: OpStatus) -> &'static [u8]
    ensures { result.now ≡ status_text status }
{
    match status {
        OpStatus::Nfs4Ok => b"OK",
        OpStatus::NoEnt => b"NOENT",
        OpStatus::Exist => b"EXIST",
        OpStatus::NotDir => b"NOTDIR",
        OpStatus::IsDir => b"ISDIR",
        OpStatus::Inval => b"INVAL",
        OpStatus::FBig => b"FBIG",
        OpStatus::NoSpc => b"NOSPC",
        OpStatus::NameTooLong => b"NAMETOOLONG",
        OpStatus::NotEmpty => b"NOTEMPTY",
        OpStatus::Stale => b"STALE",
        OpStatus::BadHandle => b"BADHANDLE",
        OpStatus::NotSupp => b"NOTSUPP",
        OpStatus::TooSmall => b"TOOSMALL",
        OpStatus::ServerFault => b"SERVERFAULT",
        OpStatus::BadType => b"BADTYPE",
        OpStatus::Delay => b"DELAY",
        OpStatus::Denied => b"DENIED",
        OpStatus::Expired => b"EXPIRED",
        OpStatus::Locked => b"LOCKED",
        OpStatus::Grace => b"GRACE",
        OpStatus::ShareDenied => b"SHARE_DENIED",
        OpStatus::ClidInUse => b"CLID_INUSE",
        OpStatus::Resource => b"RESOURCE",
        OpStatus::Moved => b"MOVED",
        OpStatus::NoFileHandle => b"NOFILEHANDLE",
        OpStatus::MinorVersMismatch => b"MINOR_VERS_MISMATCH",
        OpStatus::StaleClientId => b"STALE_CLIENTID",
        OpStatus::StaleStateId => b"STALE_STATEID",
        OpStatus::OldStateId => b"OLD_STATEID",
        OpStatus::BadStateId => b"BAD_STATEID",
        OpStatus::BadSeqid => b"BAD_SEQID",
        OpStatus::NotSame => b"NOT_SAME",
        OpStatus::RestoreFh => b"RESTOREFH",
        OpStatus::LeaseMoved => b"LEASE_MOVED",
        OpStatus::AttrNotSupp => b"ATTRNOTSUPP",
        OpStatus::NoGrace => b"NO_GRACE",
        OpStatus::BadXdr => b"BADXDR",
        OpStatus::LocksHeld => b"LOCKS_HELD",
        OpStatus::OpenMode => b"OPENMODE",
        OpStatus::BadName => b"BADNAME",
        OpStatus::OpIllegal => b"OP_ILLEGAL",
        OpStatus::FileOpen => b"FILE_OPEN",
    }
}

// The printed word of an action.
#[tactic(auto, unfolding(crate::specs::OutcomeText::verb_text))]
fn verb_word(verb: Verb) -> &'static [u8]
    ensures { result.now ≡ verb_text verb }
{
    match verb {
        Verb::Open => b"open",
        Verb::Create => b"create",
        Verb::Close => b"close",
        Verb::Downgrade => b"downgrade",
        Verb::Lock => b"lock",
        Verb::Unlock => b"unlock",
        Verb::Test => b"test",
        Verb::Release => b"release",
        Verb::Read => b"read",
        Verb::Write => b"write",
        Verb::Size => b"size",
        Verb::Remove => b"remove",
        Verb::MkDir => b"mkdir",
        Verb::List => b"list",
    }
}

// The bytes in hexadecimal digits, or `-` where there are none.
#[tactic(auto, using(crate::proofs::TextLemmas::stands_still), unfolding(crate::specs::OutcomeText::data_text))]
fn append_data(out: &mut Vec<u8>, bytes: &[u8]) -> Result<(), Memory>
    ensures ok { OnOk result (out.new.items ≡ out.old.items ++ data_text bytes.now) }
    ensures err { OnErr result (Stands out.old.items out.new.items) }
{
    if bytes.is_empty() {
        return append(out, b"-");
    }
    let digits = hex::encode(*out.allocator(), bytes)?;
    append(out, digits.as_bytes())
}

// Whether a file ends with the bytes that were read.
#[tactic(auto, unfolding(crate::specs::OutcomeText::end_text))]
fn end_word(eof: bool) -> &'static [u8]
    ensures { result.now ≡ end_text eof }
{
    if eof { b"eof" } else { b"more" }
}

#[tactic(auto, using(crate::proofs::TextLemmas::stands_more), unfolding(crate::specs::OutcomeText::read_text))]
fn append_read(out: &mut Vec<u8>, ok: &ReadOk) -> Result<(), Memory>
    ensures ok { OnOk result (out.new.items ≡ out.old.items ++ read_text ok.now) }
    ensures err { OnErr result (Stands out.old.items out.new.items) }
{
    append_data(out, ok.data.items())?;
    append(out, b" ")?;
    append(out, end_word(ok.eof))
}

#[tactic(auto, using(crate::proofs::TextLemmas::stands_more), unfolding(crate::specs::OutcomeText::name_text))]
fn append_name(out: &mut Vec<u8>, name: &[u8]) -> Result<(), Memory>
    ensures ok { OnOk result (out.new.items ≡ out.old.items ++ name_text name.now) }
    ensures err { OnErr result (Stands out.old.items out.new.items) }
{
    append(out, b" ")?;
    append(out, name)
}

#[tactic(auto, using(crate::proofs::TextLemmas::stands_more))]
fn append_listed(out: &mut Vec<u8>, names: &[Bytes]) -> Result<(), Memory>
    ensures ok { OnOk result (out.new.items ≡ out.old.items ++ flat_map name_text names.now) }
    ensures err { OnErr result (Stands out.old.items out.new.items) }
{
    for name in names {
        append_name(out, name.items())?;
    }
    Ok(())
}

#[tactic(auto, using(crate::proofs::TextLemmas::stands_more), unfolding(crate::specs::OutcomeText::told_text))]
fn append_told(out: &mut Vec<u8>, told: &Told) -> Result<(), Memory>
    ensures ok { OnOk result (out.new.items ≡ out.old.items ++ told_text told.now) }
    ensures err { OnErr result (Stands out.old.items out.new.items) }
{
    match told {
        Told::Answered(status) => append(out, status_word(*status)),
        Told::Wrote(count) => {
            append(out, b"OK ")?;
            append_number(out, *count as u64)
        }
        Told::Read(ok) => {
            append(out, b"OK ")?;
            append_read(out, ok)
        }
        Told::Listed(names) => {
            append(out, b"OK")?;
            append_listed(out, names.items())
        }
        Told::Denied(denied) => append_denied(out, denied),
        Told::Refused(status) => {
            append(out, b"REFUSED ")?;
            append(out, status_word(*status))
        }
        Told::NoState => append(out, b"NOSTATE"),
        Told::Busy => append(out, b"BUSY"),
        Told::Delayed => append(out, b"DELAY"),
        Told::Stopped => append(out, b"STOPPED"),
    }
}

/// `C VERB TOLD`.
#[tactic(auto, using(crate::proofs::TextLemmas::stands_more), unfolding(crate::specs::OutcomeText::outcome_text))]
pub(crate) fn append_outcome(out: &mut Vec<u8>, row: &OutcomeRow) -> Result<(), Memory>
    ensures ok { OnOk result (out.new.items ≡ out.old.items ++ outcome_text row.now) }
    ensures err { OnErr result (Stands out.old.items out.new.items) }
{
    append(out, row.client.items())?;
    append(out, b" ")?;
    append(out, verb_word(row.verb))?;
    append(out, b" ")?;
    append_told(out, &row.told)?;
    append(out, b"\n")
}

/// `C idle`.
#[tactic(auto, using(crate::proofs::TextLemmas::stands_more), unfolding(crate::specs::OutcomeText::idle_text))]
pub(crate) fn append_idle(out: &mut Vec<u8>, row: &IdleRow) -> Result<(), Memory>
    ensures ok { OnOk result (out.new.items ≡ out.old.items ++ idle_text row.now) }
    ensures err { OnErr result (Stands out.old.items out.new.items) }
{
    append(out, row.client.items())?;
    append(out, b" idle")?;
    append(out, b"\n")
}
