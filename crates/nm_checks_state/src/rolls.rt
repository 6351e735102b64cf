//! Lines of rolls: what a server knows of its clients and their leases, and what the moves of file systems reserve and renew.
ghost use Rattle.std.specs.Prelude.{◌≤◌, length};

use crate::fault::Fault;
use crate::leases::{append_client, append_counted, append_lease, instances, server};
use crate::named::Named;
use crate::text::{append, append_bytes};
use crate::words::{chosen, instance, number, small};
use nm_roll::{CallbackPath, ConfirmAnswer, Reserve, Roll, SetAnswer, Touch};
use nm_types::{Bytes, EndCause, Ended, FsNum, Instance, Memory, MoveNum, Principal};
use std::alloc::Global;

#[derive(Clone, Copy)]
enum Verb {
    New,
    Set,
    Confirm,
    Tick,
    Touch,
    TouchBy,
    Expire,
    Reserve,
    Settle,
    Release,
    Moved,
    Probed,
    Known,
}

const VERBS: [(&str, Verb); 13] = [
    ("new", Verb::New),
    ("set", Verb::Set),
    ("confirm", Verb::Confirm),
    ("tick", Verb::Tick),
    ("touch", Verb::Touch),
    ("touchby", Verb::TouchBy),
    ("expire", Verb::Expire),
    ("reserve", Verb::Reserve),
    ("settle", Verb::Settle),
    ("release", Verb::Release),
    ("moved", Verb::Moved),
    ("probed", Verb::Probed),
    ("known", Verb::Known),
];

fn fs(word: &[u8]) -> Result<FsNum, Fault> {
    FsNum::new(small(word)?).ok_or(Fault::Number)
}

// The user of that number, of AUTH_SYS.
fn principal(word: &[u8]) -> Result<Principal, Fault> {
    Ok(Principal {
        flavor: 1,
        uid: small(word)?,
    })
}

// The roll of a server with that tag and lease time.
fn new_roll(alloc: Global, words: &[&[u8]]) -> Result<Roll, Fault> {
    let [its, tag, lease] = words else {
        return Err(Fault::Word);
    };
    let tag = u16::try_from(small(tag)?).ok().ok_or(Fault::Number)?;
    Ok(Roll::new(alloc, server(its)?, tag, number(lease)?))
}

// Where every client is called back.
fn path(alloc: Global) -> Result<CallbackPath, Memory> {
    Ok(CallbackPath {
        program: 0x40000000,
        netid: Bytes::from_slice(alloc, b"tcp")?,
        addr: Bytes::from_slice(alloc, b"127.0.0.1.8.1")?,
        ident: 1,
    })
}

fn append_set(out: &mut Vec<u8>, answer: &SetAnswer) -> Result<(), Memory> {
    match answer {
        SetAnswer::Given { clientid, confirm } => {
            append_counted(out, b"given ", *clientid)?;
            append_counted(out, b" ", *confirm)
        }
        SetAnswer::InUse { netid, addr } => {
            append(out, b"inuse ")?;
            append_bytes(out, netid.items())?;
            append(out, b" ")?;
            append_bytes(out, addr.items())
        }
        SetAnswer::Full => append(out, b"full"),
    }
}

fn given(
    roll: &mut Roll,
    alloc: Global,
    id: &[u8],
    verifier: u64,
    principal: Principal,
) -> Result<SetAnswer, Memory>
    requires { length id.now ≤ 1024 }
{
    let path = path(alloc)?;
    roll.set(id, verifier, principal, &path)
}

// A client gives its string, its verifier and its user.
fn set(roll: &mut Roll, words: &[&[u8]], out: &mut Vec<u8>) -> Result<(), Fault> {
    let [id, verifier, user] = words else {
        return Err(Fault::Word);
    };
    let (verifier, principal) = (number(verifier)?, principal(user)?);
    if id.len() > 1024 {
        return Ok(append(out, b"not asked")?);
    }
    let answer = given(roll, *out.allocator(), id, verifier, principal)?;
    Ok(append_set(out, &answer)?)
}

fn append_cause(out: &mut Vec<u8>, why: EndCause) -> Result<(), Memory> {
    match why {
        EndCause::Lapse { deadline, now } => {
            append_counted(out, b" lapse ", deadline)?;
            append_counted(out, b" ", now)
        }
        EndCause::Restart { from, to } => {
            append_counted(out, b" restart ", from)?;
            append_counted(out, b" ", to)
        }
    }
}

// Writes whose state ended and why.
fn append_ended(out: &mut Vec<u8>, ended: &Ended) -> Result<(), Memory> {
    append(out, b"ended")?;
    append_lease(out, &ended.instance, ended.era)?;
    append_cause(out, ended.why)
}

// Writes that a pair is confirmed, and whose state ended by that.
fn append_done(out: &mut Vec<u8>, ended: &Option<Ended>) -> Result<(), Memory> {
    append(out, b"done")?;
    match ended {
        Some(ended) => {
            append(out, b" ")?;
            append_ended(out, ended)
        }
        None => Ok(()),
    }
}

fn append_confirm(out: &mut Vec<u8>, answer: &ConfirmAnswer) -> Result<(), Memory> {
    match answer {
        ConfirmAnswer::Done { ended } => append_done(out, ended),
        ConfirmAnswer::Stale => append(out, b"stale"),
        ConfirmAnswer::InUse => append(out, b"inuse"),
    }
}

// A user confirms a clientid and its verifier.
fn confirm(roll: &mut Roll, words: &[&[u8]], out: &mut Vec<u8>) -> Result<(), Fault> {
    let [clientid, verifier, user] = words else {
        return Err(Fault::Word);
    };
    let (clientid, verifier) = (number(clientid)?, number(verifier)?);
    let answer = roll.confirm(clientid, verifier, principal(user)?);
    Ok(append_confirm(out, &answer)?)
}

// The lease of that string's client lapses, if it is time.
fn expire(roll: &mut Roll, id: &[u8], out: &mut Vec<u8>) -> Result<(), Memory> {
    match roll.expire(id) {
        Some(ended) => append_ended(out, &ended),
        None => append(out, b"none"),
    }
}

fn append_touch(out: &mut Vec<u8>, touch: &Touch) -> Result<(), Memory> {
    match touch {
        Touch::Pass(pass) => {
            append(out, b"pass")?;
            append_lease(out, &pass.instance, pass.era)
        }
        Touch::Moved(pass) => {
            append(out, b"moved")?;
            append_lease(out, &pass.instance, pass.era)
        }
        Touch::Stale => append(out, b"stale"),
        Touch::Expired => append(out, b"expired"),
    }
}

fn append_reserve(out: &mut Vec<u8>, answer: &Reserve) -> Result<(), Memory> {
    match answer {
        Reserve::Passes(passes) => {
            append(out, b"passes")?;
            for pass in passes {
                append_lease(out, &pass.instance, pass.era)?;
            }
            Ok(())
        }
        Reserve::Old { known } => append_counted(out, b"old ", known.number()),
        Reserve::Differs { here, there } => {
            append(out, b"differs")?;
            append_client(out, here)?;
            append_client(out, there)
        }
        Reserve::Full => append(out, b"full"),
    }
}

// The move of that number reserves the leases of these for a file system.
fn reserve(
    roll: &mut Roll,
    its: FsNum,
    number: MoveNum,
    clients: &[Instance],
    out: &mut Vec<u8>,
) -> Result<(), Fault> {
    let answer = roll.reserve(its, number, clients)?;
    Ok(append_reserve(out, &answer)?)
}

fn reserve_by(roll: &mut Roll, words: &[&[u8]], out: &mut Vec<u8>) -> Result<(), Fault> {
    let [its, move_number, clients @ ..] = words else {
        return Err(Fault::Word);
    };
    let (its, move_number) = (fs(its)?, MoveNum::new(number(move_number)?));
    let clients = instances(*out.allocator(), clients)?;
    reserve(roll, its, move_number, &clients, out)
}

// The file system has moved away from these.
fn moved(roll: &mut Roll, words: &[&[u8]], out: &mut Vec<u8>) -> Result<(), Fault> {
    let [its, clients @ ..] = words else {
        return Err(Fault::Word);
    };
    let its = fs(its)?;
    let clients = instances(*out.allocator(), clients)?;
    roll.moved(its, &clients);
    Ok(append(out, b"done")?)
}

fn append_clientid(out: &mut Vec<u8>, clientid: Option<u64>) -> Result<(), Memory> {
    match clientid {
        Some(clientid) => append_counted(out, b"clientid ", clientid),
        None => append(out, b"no clientid"),
    }
}

fn has_path(roll: &Roll, client: &Instance) -> Result<bool, Memory> {
    Ok(roll.path_of(client)?.is_some())
}

// The clientid of a start of a client, and whether it can be called back.
fn known(roll: &Roll, client: &Instance, out: &mut Vec<u8>) -> Result<(), Fault> {
    append_clientid(out, roll.number_of(client))?;
    if has_path(roll, client)? {
        return Ok(append(out, b" path")?);
    }
    Ok(append(out, b" no path")?)
}

fn tick(roll: &mut Roll, now: u64, out: &mut Vec<u8>) -> Result<(), Fault> {
    roll.tick(now);
    Ok(append(out, b"done")?)
}

// The calls with a number.
fn by_number(roll: &mut Roll, verb: Verb, number: u64, out: &mut Vec<u8>) -> Result<(), Fault> {
    match verb {
        Verb::Tick => tick(roll, number, out),
        _ => Ok(append_touch(out, &roll.touch_id(number))?),
    }
}

// The calls with a client.
fn by_client(
    roll: &mut Roll,
    verb: Verb,
    client: &Instance,
    out: &mut Vec<u8>,
) -> Result<(), Fault> {
    match verb {
        Verb::Known => known(roll, client, out),
        _ => Ok(append_touch(out, &roll.touch_instance(client))?),
    }
}

// The calls with one word.
fn by_word(roll: &mut Roll, verb: Verb, word: &[u8], out: &mut Vec<u8>) -> Result<(), Fault> {
    match verb {
        Verb::Tick | Verb::Touch => by_number(roll, verb, number(word)?, out),
        Verb::TouchBy | Verb::Known => by_client(roll, verb, &instance(word)?, out),
        Verb::Expire => Ok(expire(roll, word, out)?),
        _ => Err(Fault::Word),
    }
}

// The calls with two numbers, which answer nothing.
fn by_numbers(roll: &mut Roll, verb: Verb, word: &[u8], more: &[u8]) -> Result<(), Fault> {
    match verb {
        Verb::Settle => roll.settle(fs(word)?, MoveNum::new(number(more)?)),
        Verb::Release => roll.release(fs(word)?, MoveNum::new(number(more)?)),
        Verb::Probed => roll.probed(number(word)?, fs(more)?),
        _ => return Err(Fault::Word),
    }
    Ok(())
}

fn by_words(roll: &mut Roll, verb: Verb, args: &[&[u8]], out: &mut Vec<u8>) -> Result<(), Fault> {
    match args {
        [word] => by_word(roll, verb, word, out),
        [word, more] => {
            by_numbers(roll, verb, word, more)?;
            Ok(append(out, b"done")?)
        }
        _ => Err(Fault::Word),
    }
}

// What a line does with a roll.
fn on_roll(roll: &mut Roll, verb: Verb, args: &[&[u8]], out: &mut Vec<u8>) -> Result<(), Fault> {
    match verb {
        Verb::Set => set(roll, args, out),
        Verb::Confirm => confirm(roll, args, out),
        Verb::Reserve => reserve_by(roll, args, out),
        Verb::Moved => moved(roll, args, out),
        _ => by_words(roll, verb, args, out),
    }
}

// Makes a roll of that name.
fn make(
    rolls: &mut Named<Roll>,
    name: &[u8],
    args: &[&[u8]],
    out: &mut Vec<u8>,
) -> Result<(), Fault> {
    rolls.put(name, new_roll(*out.allocator(), args)?)?;
    Ok(append(out, b"made")?)
}

/// The line `roll NAME VERB ..`, behind its first word.
pub(crate) fn roll_line(
    rolls: &mut Named<Roll>,
    words: &[&[u8]],
    out: &mut Vec<u8>,
) -> Result<(), Fault> {
    let [name, verb, args @ ..] = words else {
        return Err(Fault::Word);
    };
    match chosen(&VERBS, verb)? {
        Verb::New => make(rolls, name, args, out),
        verb => on_roll(rolls.get_mut(name).ok_or(Fault::Word)?, verb, args, out),
    }
}
