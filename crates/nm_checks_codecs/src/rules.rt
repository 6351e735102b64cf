//! Statuses, numbers, instances, and the copies of rows, actions and replies.
use crate::{Fault, text};
use nm_types::{
    Action, Bytes, CloseAction, Epoch, Era, FsNum, Instance, Items, MoveNum, NameFault, OpStatus,
    OpenAction, OpenRow, Owner, OwnerKind, Principal, Reply, ReplyValue, ServerNum, Verb,
};
use std::alloc::Global;

/// The answer to a case of names and numbers.
pub(crate) fn line(alloc: Global, words: &[&str], out: &mut String) -> Result<(), Fault> {
    match words {
        ["status", number] => status(text::short(number)?, out),
        ["number", kind, number] => numbered(kind, text::number(number)?, out),
        ["instance", start, id] => instance(alloc, start, id, out),
        ["owners", owners @ ..] => owners_of(alloc, owners, out),
        ["list", items, more] => list(alloc, items, text::short(more)?, out),
        ["row", numbers, start, id, text] => row(alloc, numbers, [start, id, text], out),
        ["verb", kind] => verb(alloc, kind, out),
        ["setattr-reply", words] => reply(alloc, words, out),
        _ => Err(Fault::NoCase),
    }
}

// `status NUMBER`: the status of that number, its number, and whether an owner's seqid goes on with it (RFC 7530, 9.1.7).
fn status(number: u32, out: &mut String) -> Result<(), Fault> {
    match OpStatus::read(number) {
        Some(status) => {
            let again = status.number();
            let goes = if status.advances() {
                "goes on"
            } else {
                "stays"
            };
            Ok(write!(out, "{status:?} {again} {goes}")?)
        }
        None => Ok(out.push_str("none")?),
    }
}

// `number KIND NUMBER`: the number again, where there is one of that kind.
fn numbered(kind: &str, number: u64, out: &mut String) -> Result<(), Fault> {
    match kind {
        "fs" => put_fs(FsNum::new(short_of(number)), out),
        "server" => put_server(ServerNum::new(short_of(number)), out),
        "epoch" => text::put_number(Epoch::new(number).number(), out),
        "move" => text::put_number(MoveNum::new(number).number(), out),
        "era" => text::put_number(Era::new(number).number(), out),
        _ => Err(Fault::NoCase),
    }
}

// The number, or the greatest of 32 bits where it is above that.
fn short_of(number: u64) -> u32 {
    match u32::try_from(number) {
        Ok(number) => number,
        Err(_) => u32::MAX,
    }
}

fn put_fs(fs: Option<FsNum>, out: &mut String) -> Result<(), Fault> {
    match fs {
        Some(fs) => text::put_number(u64::from(fs.number()), out),
        None => Ok(out.push_str("none")?),
    }
}

fn put_server(server: Option<ServerNum>, out: &mut String) -> Result<(), Fault> {
    match server {
        Some(server) => text::put_number(u64::from(server.number()), out),
        None => Ok(out.push_str("none")?),
    }
}

// A start `VERIFIER,FLAVOR,UID` of the client with this string.
fn instance_of(alloc: Global, start: &str, id: &str) -> Result<Result<Instance, NameFault>, Fault> {
    let numbers = text::numbers_of(alloc, start)?;
    let [verifier, flavor, uid] = *numbers.as_slice() else {
        return Err(Fault::NoCase);
    };
    let id = text::bytes_of(alloc, id)?;
    let principal = Principal { flavor, uid };
    Ok(Instance::make(&id, u64::from(verifier), principal))
}

// `instance START ID`: the parts of a copy of the instance.
fn instance(alloc: Global, start: &str, id: &str, out: &mut String) -> Result<(), Fault> {
    match instance_of(alloc, start, id)? {
        Ok(instance) => put_instance(&instance.share(), out),
        Err(fault) => Ok(write!(out, "fault {fault:?}")?),
    }
}

fn put_instance(instance: &Instance, out: &mut String) -> Result<(), Fault> {
    let verifier = instance.verifier();
    let Principal { flavor, uid } = instance.principal();
    write!(out, "verifier {verifier} flavor {flavor} uid {uid} id ")?;
    text::put_bytes(out, instance.id())
}

fn owner_of(alloc: Global, words: &[&str]) -> Result<Owner, Fault> {
    let [start, id, text] = words else {
        return Err(Fault::NoCase);
    };
    let Ok(instance) = instance_of(alloc, start, id)? else {
        return Err(Fault::NoCase);
    };
    Ok(Owner {
        instance,
        kind: OwnerKind::Opens,
        text: text::list_of(alloc, text)?,
    })
}

// `owners START ID TEXT START ID TEXT`: whether two clients are the same instance, and two owners the same.
fn owners_of(alloc: Global, words: &[&str], out: &mut String) -> Result<(), Fault> {
    let (Some(first), Some(other)) = (words.get(..3), words.get(3..)) else {
        return Err(Fault::NoCase);
    };
    let first = owner_of(alloc, first)?;
    let other = owner_of(alloc, other)?;
    put_same(&first, &other, out)
}

fn put_same(first: &Owner, other: &Owner, out: &mut String) -> Result<(), Fault> {
    let instance = first.instance.is_same(&other.instance);
    let owner = first.is_same(other);
    Ok(write!(out, "same instance {instance} same owner {owner}")?)
}

// `list NUMBERS MORE`: a list, and a copy of it with one more number.
fn list(alloc: Global, numbers: &str, more: u32, out: &mut String) -> Result<(), Fault> {
    let list = items_of(alloc, numbers)?;
    let mut copy = list.copy()?;
    copy.push(more)?;
    text::put_numbers(out, list.items())?;
    out.push_str(" copy ")?;
    text::put_numbers(out, copy.items())
}

fn items_of(alloc: Global, numbers: &str) -> Result<Items<u32>, Fault> {
    let numbers = text::numbers_of(alloc, numbers)?;
    Ok(Items::from_slice(alloc, &numbers)?)
}

// `row COUNTER,SEQID,FILE,ACCESS,DENY START ID TEXT`: the parts of a copy of that row of an open.
fn row(alloc: Global, numbers: &str, owner: [&str; 3], out: &mut String) -> Result<(), Fault> {
    let row = row_of(alloc, numbers, &owner)?;
    put_row(&row.copy()?, out)
}

fn row_of(alloc: Global, numbers: &str, owner: &[&str]) -> Result<OpenRow, Fault> {
    let numbers = text::numbers_of(alloc, numbers)?;
    let [counter, seqid, file, access, deny] = *numbers.as_slice() else {
        return Err(Fault::NoCase);
    };
    Ok(OpenRow {
        counter: u64::from(counter),
        seqid,
        owner: owner_of(alloc, owner)?,
        file: u64::from(file),
        access,
        deny,
    })
}

fn put_row(row: &OpenRow, out: &mut String) -> Result<(), Fault> {
    let (counter, seqid, file) = (row.counter, row.seqid, row.file);
    let (access, deny) = (row.access, row.deny);
    write!(
        out,
        "counter {counter} seqid {seqid} file {file} access {access} deny {deny} owner "
    )?;
    text::put_bytes(out, row.owner.text.items())?;
    out.push(' ')?;
    put_instance(&row.owner.instance, out)
}

// `verb KIND`: the word of an action.
fn verb(alloc: Global, kind: &str, out: &mut String) -> Result<(), Fault> {
    let action = action_of(alloc, kind)?;
    put_verb(action.verb(), out)
}

fn action_of(alloc: Global, kind: &str) -> Result<Action, Fault> {
    match kind {
        "close" => Ok(Action::Close(close_action(alloc)?)),
        "create" => Ok(Action::Create(open_action(alloc)?)),
        "open" => Ok(Action::Open(open_action(alloc)?)),
        _ => Err(Fault::NoCase),
    }
}

fn put_verb(verb: Verb, out: &mut String) -> Result<(), Fault> {
    let told = match verb {
        Verb::Close => "close",
        Verb::Create => "create",
        Verb::Open => "open",
        _ => "another",
    };
    Ok(out.push_str(told)?)
}

fn open_action(alloc: Global) -> Result<OpenAction, Fault> {
    Ok(OpenAction {
        fs: FsNum::new(0).ok_or(Fault::NoCase)?,
        file: Bytes::from_slice(alloc, b"f")?,
        access: 3,
        deny: 0,
        owner: Bytes::from_slice(alloc, b"o")?,
    })
}

fn close_action(alloc: Global) -> Result<CloseAction, Fault> {
    Ok(CloseAction {
        fs: FsNum::new(0).ok_or(Fault::NoCase)?,
        file: Bytes::from_slice(alloc, b"f")?,
        owner: Bytes::from_slice(alloc, b"o")?,
    })
}

// `setattr-reply WORDS`: a copy of the reply to a SETATTR that set these attributes.
fn reply(alloc: Global, words: &str, out: &mut String) -> Result<(), Fault> {
    let reply = Reply {
        status: OpStatus::Nfs4Ok,
        value: ReplyValue::SetAttr(items_of(alloc, words)?),
        recalls: Items::new(alloc),
    };
    put_reply(&reply.copy()?, out)
}

fn put_reply(reply: &Reply, out: &mut String) -> Result<(), Fault> {
    let status = reply.status;
    let recalls = reply.recalls.items().len();
    write!(out, "{status:?} recalls {recalls} set ")?;
    match &reply.value {
        ReplyValue::SetAttr(words) => text::put_numbers(out, words.items()),
        _ => Err(Fault::NoCase),
    }
}
