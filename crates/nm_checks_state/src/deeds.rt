//! Calls and their operations by words.
use crate::fault::Fault;
use crate::words::{bitmap, bytes, chosen, cut, instance, number, small, stateid};
use nm_types::{
    AccessArgs, Call, Claim, CloseArgs, CommitArgs, CreateArgs, CreateType, Deed, Fattr,
    GetAttrArgs, Instance, LockArgs, LockTestArgs, LockType, Locker, LookupArgs, OpenArgs,
    OpenConfirmArgs, OpenDowngradeArgs, OpenType, ReadArgs, ReadDirArgs, ReleaseLockOwnerArgs,
    RemoveArgs, SetAttrArgs, Stable, UnlockArgs, WriteArgs,
};
use std::alloc::Global;

#[derive(Clone, Copy)]
enum Operation {
    Access,
    Close,
    Commit,
    Confirm,
    Create,
    Downgrade,
    GetAttr,
    Lock,
    LockTest,
    Lookup,
    LookupP,
    Open,
    Read,
    ReadDir,
    Reclaim,
    Release,
    Remove,
    SetAttr,
    Unlock,
    Write,
}

const OPERATIONS: [(&str, Operation); 20] = [
    ("access", Operation::Access),
    ("close", Operation::Close),
    ("commit", Operation::Commit),
    ("confirm", Operation::Confirm),
    ("create", Operation::Create),
    ("downgrade", Operation::Downgrade),
    ("getattr", Operation::GetAttr),
    ("lock", Operation::Lock),
    ("lockt", Operation::LockTest),
    ("locku", Operation::Unlock),
    ("lookup", Operation::Lookup),
    ("lookupp", Operation::LookupP),
    ("open", Operation::Open),
    ("read", Operation::Read),
    ("readdir", Operation::ReadDir),
    ("reclaim", Operation::Reclaim),
    ("release", Operation::Release),
    ("remove", Operation::Remove),
    ("setattr", Operation::SetAttr),
    ("write", Operation::Write),
];

const TYPES: [(&str, LockType); 4] = [
    ("r", LockType::Read),
    ("w", LockType::Write),
    ("rwait", LockType::ReadWait),
    ("wwait", LockType::WriteWait),
];

// Whether a lock owner is new on the file.
const LOCKERS: [(&str, bool); 2] = [("new", true), ("known", false)];

#[derive(Clone, Copy)]
enum How {
    NoCreate,
    Unchecked,
    Guarded,
    Exclusive,
}

const HOWS: [(&str, How); 4] = [
    ("nocreate", How::NoCreate),
    ("unchecked", How::Unchecked),
    ("guarded", How::Guarded),
    ("exclusive", How::Exclusive),
];

#[derive(Clone, Copy)]
enum By {
    Null,
    Previous,
    DelegateCur,
    DelegatePrev,
}

const CLAIMS: [(&str, By); 4] = [
    ("null", By::Null),
    ("previous", By::Previous),
    ("delegatecur", By::DelegateCur),
    ("delegateprev", By::DelegatePrev),
];

#[derive(Clone, Copy)]
enum Made {
    File,
    Directory,
    Link,
    Socket,
    Fifo,
}

const KINDS: [(&str, Made); 5] = [
    ("file", Made::File),
    ("dir", Made::Directory),
    ("link", Made::Link),
    ("socket", Made::Socket),
    ("fifo", Made::Fifo),
];

/// Who calls: `-` where a request names no client.
fn caller(word: &[u8]) -> Result<Option<Instance>, Fault> {
    if word == b"-".as_slice() {
        return Ok(None);
    }
    Ok(Some(instance(word)?))
}

/// A call by the words `WHO FILE OPERATION ARGUMENTS`.
pub(crate) fn call(alloc: Global, words: &[&[u8]]) -> Result<Call, Fault> {
    let [who, file, operation, args @ ..] = words else {
        return Err(Fault::Word);
    };
    Ok(Call {
        caller: caller(who)?,
        file: number(file)?,
        deed: deed(alloc, operation, args)?,
    })
}

/// An operation by its word and its arguments.
pub(crate) fn deed(alloc: Global, operation: &[u8], args: &[&[u8]]) -> Result<Deed, Fault> {
    match chosen(&OPERATIONS, operation)? {
        Operation::Open => open(alloc, args),
        Operation::Create => create(alloc, args),
        Operation::Lock => lock(alloc, false, args),
        Operation::Reclaim => lock(alloc, true, args),
        Operation::LockTest => lock_test(alloc, args),
        Operation::ReadDir => read_dir(alloc, args),
        Operation::SetAttr => set_attr(alloc, args),
        Operation::Write => write(alloc, args),
        operation => plain(alloc, operation, args),
    }
}

// Attributes: `WORDS:VALUES`, or `-` for none.
fn fattr(alloc: Global, word: &[u8]) -> Result<Fattr, Fault> {
    let (words, values) = cut(word, b':');
    Ok(Fattr {
        words: bitmap(alloc, words)?,
        values: bytes(alloc, values)?,
    })
}

// Whether an OPEN makes its file: `nocreate`, `unchecked` or `guarded`, each with `:WORDS:VALUES` where attributes are set, or
// `exclusive:VERIFIER`.
fn open_type(alloc: Global, word: &[u8]) -> Result<OpenType, Fault> {
    let (how, rest) = cut(word, b':');
    match chosen(&HOWS, how)? {
        How::NoCreate => Ok(OpenType::NoCreate),
        How::Unchecked => Ok(OpenType::Unchecked(fattr(alloc, rest)?)),
        How::Guarded => Ok(OpenType::Guarded(fattr(alloc, rest)?)),
        How::Exclusive => Ok(OpenType::Exclusive(number(rest)?)),
    }
}

// By what an OPEN names its file: `null NAME`, `previous TYPE`, `delegatecur STATEID NAME` or `delegateprev NAME`.
fn claim(alloc: Global, words: &[&[u8]]) -> Result<Claim, Fault> {
    let [by, names @ ..] = words else {
        return Err(Fault::Word);
    };
    match (chosen(&CLAIMS, by)?, names) {
        (By::Null, [name]) => Ok(Claim::Null(bytes(alloc, name)?)),
        (By::Previous, [kind]) => Ok(Claim::Previous(small(kind)?)),
        (By::DelegateCur, [id, name]) => Ok(Claim::DelegateCur {
            stateid: stateid(id)?,
            name: bytes(alloc, name)?,
        }),
        (By::DelegatePrev, [name]) => Ok(Claim::DelegatePrev(bytes(alloc, name)?)),
        _ => Err(Fault::Word),
    }
}

fn open(alloc: Global, args: &[&[u8]]) -> Result<Deed, Fault> {
    let [seqid, owner, access, deny, how, names @ ..] = args else {
        return Err(Fault::Word);
    };
    Ok(Deed::Open(OpenArgs {
        seqid: small(seqid)?,
        access: small(access)?,
        deny: small(deny)?,
        owner: bytes(alloc, owner)?,
        opentype: open_type(alloc, how)?,
        claim: claim(alloc, names)?,
    }))
}

// What CREATE makes: `file`, `dir`, `socket`, `fifo`, or `link:TEXT`.
fn create_type(alloc: Global, word: &[u8]) -> Result<CreateType, Fault> {
    let (kind, rest) = cut(word, b':');
    match chosen(&KINDS, kind)? {
        Made::File => Ok(CreateType::File),
        Made::Directory => Ok(CreateType::Directory),
        Made::Link => Ok(CreateType::Link(bytes(alloc, rest)?)),
        Made::Socket => Ok(CreateType::Socket),
        Made::Fifo => Ok(CreateType::Fifo),
    }
}

fn create(alloc: Global, args: &[&[u8]]) -> Result<Deed, Fault> {
    let [kind, name, attributes] = args else {
        return Err(Fault::Word);
    };
    Ok(Deed::Create(CreateArgs {
        kind: create_type(alloc, kind)?,
        name: bytes(alloc, name)?,
        attributes: fattr(alloc, attributes)?,
    }))
}

// Who locks: `new OPEN_SEQID STATEID LOCK_SEQID OWNER`, or `known STATEID LOCK_SEQID`.
fn locker(alloc: Global, words: &[&[u8]]) -> Result<Locker, Fault> {
    let [is_new, rest @ ..] = words else {
        return Err(Fault::Word);
    };
    match (chosen(&LOCKERS, is_new)?, rest) {
        (true, [open_seqid, id, lock_seqid, owner]) => Ok(Locker::New {
            open_seqid: small(open_seqid)?,
            stateid: stateid(id)?,
            lock_seqid: small(lock_seqid)?,
            owner: bytes(alloc, owner)?,
        }),
        (false, [id, lock_seqid]) => Ok(Locker::Known {
            stateid: stateid(id)?,
            lock_seqid: small(lock_seqid)?,
        }),
        _ => Err(Fault::Word),
    }
}

fn lock(alloc: Global, reclaim: bool, args: &[&[u8]]) -> Result<Deed, Fault> {
    let [kind, offset, length, who @ ..] = args else {
        return Err(Fault::Word);
    };
    Ok(Deed::Lock(LockArgs {
        kind: chosen(&TYPES, kind)?,
        reclaim,
        offset: number(offset)?,
        length: number(length)?,
        locker: locker(alloc, who)?,
    }))
}

fn lock_test(alloc: Global, args: &[&[u8]]) -> Result<Deed, Fault> {
    let [kind, offset, length, owner] = args else {
        return Err(Fault::Word);
    };
    Ok(Deed::LockTest(LockTestArgs {
        kind: chosen(&TYPES, kind)?,
        offset: number(offset)?,
        length: number(length)?,
        owner: bytes(alloc, owner)?,
    }))
}

fn read_dir(alloc: Global, args: &[&[u8]]) -> Result<Deed, Fault> {
    let [cookie, verifier, maxcount, words] = args else {
        return Err(Fault::Word);
    };
    Ok(Deed::ReadDir(ReadDirArgs {
        cookie: number(cookie)?,
        verifier: number(verifier)?,
        dircount: 0,
        maxcount: small(maxcount)?,
        words: bitmap(alloc, words)?,
    }))
}

fn set_attr(alloc: Global, args: &[&[u8]]) -> Result<Deed, Fault> {
    let [id, attributes] = args else {
        return Err(Fault::Word);
    };
    Ok(Deed::SetAttr(SetAttrArgs {
        stateid: stateid(id)?,
        attributes: fattr(alloc, attributes)?,
    }))
}

fn write(alloc: Global, args: &[&[u8]]) -> Result<Deed, Fault> {
    let [id, offset, data] = args else {
        return Err(Fault::Word);
    };
    Ok(Deed::Write(WriteArgs {
        stateid: stateid(id)?,
        offset: number(offset)?,
        stable: Stable::Unstable,
        data: bytes(alloc, data)?,
    }))
}

// An operation whose arguments are numbers and stateids, or one name.
fn plain(alloc: Global, operation: Operation, args: &[&[u8]]) -> Result<Deed, Fault> {
    match (operation, args) {
        (Operation::Lookup, [name]) => Ok(Deed::Lookup(LookupArgs {
            name: bytes(alloc, name)?,
        })),
        (Operation::Remove, [name]) => Ok(Deed::Remove(RemoveArgs {
            name: bytes(alloc, name)?,
        })),
        (Operation::Release, [owner]) => Ok(Deed::ReleaseLockOwner(ReleaseLockOwnerArgs {
            owner: bytes(alloc, owner)?,
        })),
        (Operation::GetAttr, [words]) => Ok(Deed::GetAttr(GetAttrArgs {
            words: bitmap(alloc, words)?,
        })),
        (Operation::LookupP, []) => Ok(Deed::LookupP),
        (Operation::Access, [access]) => Ok(Deed::Access(AccessArgs {
            access: small(access)?,
        })),
        (Operation::Commit, [offset, count]) => Ok(Deed::Commit(CommitArgs {
            offset: number(offset)?,
            count: small(count)?,
        })),
        _ => by_stateid(operation, args),
    }
}

// An operation on a stateid.
fn by_stateid(operation: Operation, args: &[&[u8]]) -> Result<Deed, Fault> {
    match (operation, args) {
        (Operation::Close, [seqid, id]) => Ok(Deed::Close(CloseArgs {
            seqid: small(seqid)?,
            stateid: stateid(id)?,
        })),
        (Operation::Confirm, [id, seqid]) => Ok(Deed::OpenConfirm(OpenConfirmArgs {
            stateid: stateid(id)?,
            seqid: small(seqid)?,
        })),
        (Operation::Downgrade, [id, seqid, access, deny]) => {
            Ok(Deed::OpenDowngrade(OpenDowngradeArgs {
                stateid: stateid(id)?,
                seqid: small(seqid)?,
                access: small(access)?,
                deny: small(deny)?,
            }))
        }
        (Operation::Read, [id, offset, count]) => Ok(Deed::Read(ReadArgs {
            stateid: stateid(id)?,
            offset: number(offset)?,
            count: small(count)?,
        })),
        (Operation::Unlock, [kind, seqid, id, offset, length]) => Ok(Deed::Unlock(UnlockArgs {
            kind: chosen(&TYPES, kind)?,
            seqid: small(seqid)?,
            stateid: stateid(id)?,
            offset: number(offset)?,
            length: number(length)?,
        })),
        _ => Err(Fault::Word),
    }
}
