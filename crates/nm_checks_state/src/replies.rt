//! The text of replies.
use crate::text::{
    append, append_bytes, append_debug, append_instance, append_mode, append_number,
};
use nm_types::{
    ChangeInfo, CreateOk, Created, Denied, DirEntry, FileAttrs, GetAttrOk, LockKind, LockOutcome,
    LockRange, Memory, OpenDelegation, OpenOk, Opened, ReadDirOk, ReadOk, Recall, Reply,
    ReplyValue, StateId, WriteOk,
};

/// Writes a reply: its status, what it tells, and each delegation that is to be recalled.
pub(crate) fn append_reply(out: &mut Vec<u8>, reply: &Reply) -> Result<(), Memory> {
    append_debug(out, &reply.status)?;
    append_value(out, &reply.value)?;
    for recall in reply.recalls.items() {
        append_recall(out, recall)?;
    }
    Ok(())
}

fn append_recall(out: &mut Vec<u8>, recall: &Recall) -> Result<(), Memory> {
    append(out, b" recall ")?;
    append_instance(out, &recall.instance)?;
    append(out, b" ")?;
    append_id(out, recall.stateid)?;
    append_part(out, b" file ", recall.file)
}

// Writes a name and a number.
fn append_part(out: &mut Vec<u8>, name: &[u8], number: u64) -> Result<(), Memory> {
    append(out, name)?;
    append_number(out, number)
}

/// Writes a stateid as `SEQID:COUNTER`, with `:FS` behind it in another file system than 0.
pub(crate) fn append_id(out: &mut Vec<u8>, stateid: StateId) -> Result<(), Memory> {
    append_number(out, u64::from(stateid.seqid))?;
    append_part(out, b":", stateid.counter)?;
    if stateid.fs != 0 {
        append_part(out, b":", u64::from(stateid.fs))?;
    }
    Ok(())
}

// Writes what a reply tells. A failure mostly tells nothing.
fn append_value(out: &mut Vec<u8>, value: &ReplyValue) -> Result<(), Memory> {
    match value {
        ReplyValue::Close(Some(id)) => append_stateid(out, *id),
        ReplyValue::OpenConfirm(Some(id)) => append_stateid(out, *id),
        ReplyValue::OpenDowngrade(Some(id)) => append_stateid(out, *id),
        ReplyValue::Unlock(Some(id)) => append_stateid(out, *id),
        ReplyValue::Lock(Some(LockOutcome::Locked(id))) => append_stateid(out, *id),
        ReplyValue::Lock(Some(LockOutcome::Denied(denied))) => append_denied(out, denied),
        ReplyValue::LockTest(Some(denied)) => append_denied(out, denied),
        ReplyValue::Lookup(Some(file)) => append_part(out, b" file ", *file),
        ReplyValue::LookupP(Some(file)) => append_part(out, b" file ", *file),
        ReplyValue::Open(Some(opened)) => append_opened(out, opened),
        ReplyValue::Create(Some(created)) => append_created(out, created),
        ReplyValue::Remove(Some(change)) => append_change(out, *change),
        ReplyValue::SetAttr(words) => append_words(out, b" attrset ", words.items()),
        _ => append_data(out, value),
    }
}

// Writes what a reply tells of a file's bytes, entries and attributes.
fn append_data(out: &mut Vec<u8>, value: &ReplyValue) -> Result<(), Memory> {
    match value {
        ReplyValue::Access(Some(ok)) => {
            append_part(out, b" supported ", u64::from(ok.supported))?;
            append_part(out, b" access ", u64::from(ok.access))
        }
        ReplyValue::Commit(Some(verifier)) => append_part(out, b" verifier ", *verifier),
        ReplyValue::GetAttr(Some(ok)) => {
            append_attributes(out, &ok.attributes)?;
            append_words(out, b" words ", ok.words.items())
        }
        ReplyValue::Read(Some(ok)) => {
            append(out, b" ")?;
            append_bytes(out, ok.data.items())?;
            append(out, if ok.eof { b" end" } else { b" more" })
        }
        ReplyValue::ReadDir(Some(ok)) => append_listing(out, ok),
        ReplyValue::ReleaseLockOwner(true) => append(out, b" released"),
        ReplyValue::Write(Some(ok)) => append_written(out, *ok),
        _ => Ok(()),
    }
}

fn append_stateid(out: &mut Vec<u8>, stateid: StateId) -> Result<(), Memory> {
    append(out, b" stateid ")?;
    append_id(out, stateid)
}

fn append_change(out: &mut Vec<u8>, change: ChangeInfo) -> Result<(), Memory> {
    append_part(out, b" change ", change.before)?;
    append_part(out, b" ", change.after)
}

// Writes the words of a bitmap behind a name, with commas between.
fn append_words(out: &mut Vec<u8>, name: &[u8], words: &[u32]) -> Result<(), Memory> {
    append(out, name)?;
    if words.is_empty() {
        return append(out, b"-");
    }
    let mut between = b"".as_slice();
    for word in words {
        append_part(out, between, u64::from(*word))?;
        between = b",".as_slice();
    }
    Ok(())
}

fn append_created(out: &mut Vec<u8>, created: &Created) -> Result<(), Memory> {
    append_change(out, created.ok.cinfo)?;
    append_words(out, b" attrset ", created.ok.attrset.items())?;
    append_part(out, b" file ", created.file)
}

fn append_opened(out: &mut Vec<u8>, opened: &Opened) -> Result<(), Memory> {
    append_stateid(out, opened.ok.stateid)?;
    append_change(out, opened.ok.cinfo)?;
    append_part(out, b" rflags ", u64::from(opened.ok.rflags))?;
    append_words(out, b" attrset ", opened.ok.attrset.items())?;
    append_delegation(out, opened.ok.delegation)?;
    append_part(out, b" file ", opened.file)
}

fn append_delegation(out: &mut Vec<u8>, delegation: OpenDelegation) -> Result<(), Memory> {
    match delegation {
        OpenDelegation::None => Ok(()),
        OpenDelegation::Read(id) => {
            append(out, b" reads by ")?;
            append_id(out, id)
        }
        OpenDelegation::Write(id) => {
            append(out, b" writes by ")?;
            append_id(out, id)
        }
    }
}

/// Writes attributes: kind, mode, size, change and number.
pub(crate) fn append_attributes(out: &mut Vec<u8>, of: &FileAttrs) -> Result<(), Memory> {
    append_part(out, b" kind ", u64::from(of.kind))?;
    append(out, b" mode ")?;
    append_mode(out, of.mode)?;
    append_part(out, b" size ", of.size)?;
    append_part(out, b" change ", of.change)?;
    append_part(out, b" file ", of.file)
}

fn append_listing(out: &mut Vec<u8>, ok: &ReadDirOk) -> Result<(), Memory> {
    append_words(out, b" words ", ok.words.items())?;
    for entry in ok.entries.items() {
        append_entry(out, entry)?;
    }
    append(out, if ok.eof { b" end" } else { b" more" })
}

fn append_entry(out: &mut Vec<u8>, entry: &DirEntry) -> Result<(), Memory> {
    append_part(out, b" entry ", entry.cookie)?;
    append(out, b" ")?;
    append_bytes(out, entry.name.items())?;
    match &entry.attributes {
        Some(attributes) => append_attributes(out, attributes),
        None => Ok(()),
    }
}

fn append_written(out: &mut Vec<u8>, ok: WriteOk) -> Result<(), Memory> {
    append_part(out, b" count ", u64::from(ok.count))?;
    append_part(out, b" committed ", u64::from(ok.committed))?;
    append_part(out, b" verifier ", ok.writeverf)
}

fn append_denied(out: &mut Vec<u8>, denied: &Denied) -> Result<(), Memory> {
    append(out, b" by ")?;
    match &denied.instance {
        Some(instance) => append_instance(out, instance)?,
        None => append(out, b"-")?,
    }
    append(out, b" ")?;
    append_bytes(out, denied.owner.items())?;
    append_range(out, denied.range)
}

/// Writes a range that is locked: ` KIND FIRST LAST`.
pub(crate) fn append_range(out: &mut Vec<u8>, range: LockRange) -> Result<(), Memory> {
    append(out, kind_word(range.kind))?;
    append_number(out, range.first)?;
    append_part(out, b" ", range.last)
}

fn kind_word(kind: LockKind) -> &'static [u8] {
    match kind {
        LockKind::Read => b" r ",
        LockKind::Write => b" w ",
    }
}
