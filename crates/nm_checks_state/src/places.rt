//! Lines of slots: a file system at one server, each call on it, and the phase behind the call.
ghost use Rattle.std.specs.Prelude.{◌≡◌, ◌≤◌, ◌^◌, IfOk};

use crate::deeds;
use crate::fault::Fault;
use crate::leases::{append_client, append_counted, lease, leases, server};
use crate::named::Named;
use crate::said::{
    Said, abandon_said, accept_said, answer_said, append_said, begin_said, freeze_said,
    install_said, phase_said, swept_said,
};
use crate::text::append;
use crate::words::{self, chosen, named};
use nm_slot::{Commit, Enter, FsPass, Image, Slot};
use nm_state::FsState;
use nm_types::{
    Call, EndCause, Ended, Epoch, FsNum, Instance, LeasePass, Memory, MoveNum, Verdict,
};
use std::alloc::Global;

/// An image that may be offered to a slot of file system 0.
#[derive(Drop)]
pub(crate) struct Offer {
    image: Image,
    ghost fs: { image.fs ≡ 0 },
    ghost state: { image.state.seen.fs ≡ 0 },
    ghost count: { image.count ≤ 2 ^ 63 },
    ghost epoch: { image.epoch ≤ 2 ^ 63 },
    ghost number: { image.number ≤ 2 ^ 63 },
}

/// The slots, images and passes that lines name. All are of file system 0.
#[derive(Drop)]
pub(crate) struct Places {
    slots: Named<Slot>,
    offers: Named<Offer>,
    passes: Named<FsPass>,
}

#[derive(Clone, Copy)]
enum Verb {
    New,
    Serve,
    Begin,
    Freeze,
    Offer,
    Accept,
    Commit,
    Install,
    Abandon,
    Withdraw,
    Enter,
    Leave,
    Call,
    Resolve,
    Sweep,
    Show,
}

const VERBS: [(&str, Verb); 16] = [
    ("new", Verb::New),
    ("serve", Verb::Serve),
    ("begin", Verb::Begin),
    ("freeze", Verb::Freeze),
    ("offer", Verb::Offer),
    ("accept", Verb::Accept),
    ("commit", Verb::Commit),
    ("install", Verb::Install),
    ("abandon", Verb::Abandon),
    ("withdraw", Verb::Withdraw),
    ("enter", Verb::Enter),
    ("leave", Verb::Leave),
    ("call", Verb::Call),
    ("resolve", Verb::Resolve),
    ("sweep", Verb::Sweep),
    ("show", Verb::Show),
];

/// The end of move numbers, epochs and counts of entries.
const END: u64 = 1 << 63;

// The file system 0.
fn x() -> Result<FsNum, Fault>
    ensures { IfOk result (λ fs. fs ≡ 0) }
{
    FsNum::new(0).ok_or(Fault::Number)
}

// A file system without files.
fn no_files(alloc: Global) -> Result<FsState, Fault>
    ensures { IfOk result (λ state. state.seen.fs ≡ 0) }
{
    Ok(FsState::new(alloc, x()?, false)?)
}

// Makes the slot of a server that never had the file system.
fn new_slot(slots: &mut Named<Slot>, name: &[u8], alloc: Global) -> Result<Said, Fault> {
    slots.put(name, Slot::new(alloc, x()?, None)?)?;
    Ok(Said::Plain(b"made"))
}

fn serving_slot(alloc: Global) -> Result<Slot, Fault> {
    let fs = x()?;
    Ok(Slot::new(alloc, fs, Some(no_files(alloc)?))?)
}

// Makes the slot of a server that serves a file system without files.
fn serve(slots: &mut Named<Slot>, name: &[u8], alloc: Global) -> Result<Said, Fault> {
    slots.put(name, serving_slot(alloc)?)?;
    Ok(Said::Plain(b"made"))
}

// The numbers of an image.
#[derive(Clone, Copy)]
struct Numbers {
    number: u64,
    epoch: u64,
    count: u64,
}

impl Numbers {
    fn read(number: &[u8], epoch: &[u8], count: &[u8]) -> Result<Numbers, Fault> {
        Ok(Numbers {
            number: words::number(number)?,
            epoch: words::number(epoch)?,
            count: words::number(count)?,
        })
    }
}

// The image of a file system without files. A slot may be offered none with a number past the end.
fn empty_image(alloc: Global, numbers: Numbers) -> Result<Option<Offer>, Fault> {
    if numbers.number > END || numbers.epoch > END || numbers.count > END {
        return Ok(None);
    }
    let fs = x()?;
    let image = Image {
        state: no_files(alloc)?,
        fs,
        count: numbers.count,
        epoch: Epoch::new(numbers.epoch),
        number: MoveNum::new(numbers.number),
    };
    Ok(Some(Offer { image }))
}

// An image has that name from then on.
fn keep(offers: &mut Named<Offer>, name: &[u8], offer: Offer) -> Result<Said, Memory> {
    let said = image_said(&offer.image);
    offers.put(name, offer)?;
    Ok(said)
}

fn image_said(image: &Image) -> Said {
    Said::Two(
        b"move ",
        image.number.number(),
        b" epoch ",
        image.epoch.number(),
    )
}

fn make_image(
    alloc: Global,
    offers: &mut Named<Offer>,
    name: &[u8],
    numbers: Numbers,
) -> Result<Said, Fault> {
    match empty_image(alloc, numbers)? {
        Some(offer) => Ok(keep(offers, name, offer)?),
        None => Ok(Said::Plain(b"not asked")),
    }
}

// What is on offer has that name from then on.
fn take_offer(slot: &Slot, offers: &mut Named<Offer>, name: &[u8]) -> Result<Said, Fault> {
    if slot.fs().number() != 0 {
        return Ok(Said::Plain(b"not asked"));
    }
    match slot.image()? {
        Some(image) => Ok(keep(offers, name, Offer { image })?),
        None => Ok(Said::Plain(b"none")),
    }
}

fn accept(slot: &mut Slot, offer: &Offer, leases: &[LeasePass]) -> Result<Said, Fault> {
    if slot.fs().number() != 0 {
        return Ok(Said::Plain(b"not asked"));
    }
    Ok(accept_said(slot.accept(&offer.image, leases)?))
}

// Asks for a pass, which has that name from then on.
fn enter(slot: &mut Slot, passes: &mut Named<FsPass>, name: &[u8]) -> Result<Said, Fault> {
    match slot.enter() {
        Enter::Entered(pass) => {
            let epoch = pass.epoch().number();
            passes.put(name, pass)?;
            Ok(Said::One(b"entered epoch ", epoch))
        }
        Enter::Full { passes } => Ok(Said::One(b"full ", passes)),
        Enter::Delay => Ok(Said::Plain(b"delay")),
        Enter::Moved { dest } => Ok(Said::One(b"moved S", dest.number() as u64)),
        Enter::Unknown => Ok(Said::Plain(b"unknown")),
    }
}

// Gives the pass of that name back.
fn leave(slot: &mut Slot, passes: &mut Named<FsPass>, name: &[u8]) -> Result<Said, Fault> {
    let pass = passes.take(name).ok_or(Fault::Word)?;
    slot.leave(pass);
    Ok(Said::Plain(b"left"))
}

fn call(
    slot: &mut Slot,
    pass: &FsPass,
    lease: Option<&LeasePass>,
    call: &Call,
) -> Result<Said, Fault> {
    let answer = slot.apply(pass, lease, call, Verdict::Pass)?;
    Ok(answer_said(&answer))
}

// A lease, or none for `-`.
fn lease_if(word: &[u8]) -> Result<Option<LeasePass>, Fault> {
    if word == b"-".as_slice() {
        return Ok(None);
    }
    Ok(Some(lease(word)?))
}

// Makes the call of these words with that pass: a lease or `-`, and the call.
fn call_by(alloc: Global, slot: &mut Slot, pass: &FsPass, words: &[&[u8]]) -> Result<Said, Fault> {
    let [by, words @ ..] = words else {
        return Err(Fault::Word);
    };
    let lease = lease_if(by)?;
    let asked = deeds::call(alloc, words)?;
    call(slot, pass, lease.as_ref(), &asked)
}

fn append_holder(out: &mut Vec<u8>, holder: &Instance) -> Result<Said, Fault> {
    append(out, b"holder")?;
    append_client(out, holder)?;
    Ok(Said::Nothing)
}

// Whose stateid it is.
fn resolve(slot: &Slot, pass: &FsPass, words: &[&[u8]], out: &mut Vec<u8>) -> Result<Said, Fault> {
    let [stateid] = words else {
        return Err(Fault::Word);
    };
    match slot.resolve(pass, named(stateid)?) {
        Ok(holder) => append_holder(out, &holder),
        Err(status) => Ok(Said::Refused(status)),
    }
}

// The lease of that era has lapsed.
fn sweep(slot: &mut Slot, lease: &LeasePass) -> Result<Said, Fault> {
    let ended = Ended {
        instance: lease.instance,
        era: lease.era,
        why: EndCause::Lapse {
            deadline: 90,
            now: 91,
        },
    };
    Ok(swept_said(slot.sweep(&ended)?))
}

fn begin(slot: &mut Slot, here: &[u8], dest: &[u8]) -> Result<Said, Fault> {
    Ok(begin_said(slot.begin(server(here)?, server(dest)?)))
}

fn append_holders(out: &mut Vec<u8>, holders: &[Instance]) -> Result<Said, Fault> {
    append(out, b"committed")?;
    for holder in holders {
        append_client(out, holder)?;
    }
    Ok(Said::Nothing)
}

fn commit(slot: &mut Slot, number: MoveNum, out: &mut Vec<u8>) -> Result<Said, Fault> {
    match slot.commit(number) {
        Commit::Committed(holders) => append_holders(out, &holders),
        Commit::Again => Ok(Said::Plain(b"again")),
        Commit::Dead { current } => Ok(Said::One(b"dead ", current.number())),
    }
}

fn withdraw(slot: &mut Slot, number: MoveNum) -> Said {
    if slot.withdraw(number) {
        Said::Plain(b"dropped")
    } else {
        Said::Plain(b"noted")
    }
}

// How many rows are held in the state that is here, or in the one on offer.
fn rows(slot: &Slot) -> Result<Said, Memory> {
    match slot.table()? {
        Some(table) => Ok(Said::One(b" rows ", table.items().len() as u64)),
        None => Ok(Said::Plain(b" no rows")),
    }
}

// What a slot knows of its moves and entries, and how many rows are held.
fn show(slot: &Slot, out: &mut Vec<u8>) -> Result<Said, Fault> {
    append_counted(out, b"known ", slot.known().number())?;
    append_counted(out, b" epoch ", slot.epoch().number())?;
    append_counted(out, b" count ", slot.count())?;
    Ok(rows(slot)?)
}

// The calls without arguments.
fn by_itself(slot: &mut Slot, verb: Verb, out: &mut Vec<u8>) -> Result<Said, Fault> {
    match verb {
        Verb::Freeze => Ok(freeze_said(slot.freeze())),
        Verb::Abandon => Ok(abandon_said(slot.abandon())),
        Verb::Show => show(slot, out),
        _ => Err(Fault::Word),
    }
}

// The calls with a number of a move.
fn by_number(
    slot: &mut Slot,
    verb: Verb,
    number: MoveNum,
    out: &mut Vec<u8>,
) -> Result<Said, Fault> {
    match verb {
        Verb::Commit => commit(slot, number, out),
        Verb::Install => Ok(install_said(slot.install(number))),
        Verb::Withdraw => Ok(withdraw(slot, number)),
        _ => Err(Fault::Word),
    }
}

// The calls with one word.
fn by_word(slot: &mut Slot, verb: Verb, word: &[u8], out: &mut Vec<u8>) -> Result<Said, Fault> {
    match verb {
        Verb::Sweep => sweep(slot, &lease(word)?),
        _ => by_number(slot, verb, MoveNum::new(words::number(word)?), out),
    }
}

// The calls with arguments that no line names.
fn by_words(slot: &mut Slot, verb: Verb, args: &[&[u8]], out: &mut Vec<u8>) -> Result<Said, Fault> {
    match (verb, args) {
        (Verb::Begin, [here, dest]) => begin(slot, here, dest),
        (_, [word]) => by_word(slot, verb, word, out),
        (_, []) => by_itself(slot, verb, out),
        _ => Err(Fault::Word),
    }
}

fn accept_by(
    alloc: Global,
    slot: &mut Slot,
    offer: &Offer,
    words: &[&[u8]],
) -> Result<Said, Fault> {
    let leases = leases(alloc, words)?;
    accept(slot, offer, &leases)
}

// The calls that take or give an image, which has that name.
fn by_offer(
    alloc: Global,
    slot: &mut Slot,
    offers: &mut Named<Offer>,
    verb: Verb,
    args: &[&[u8]],
) -> Result<Said, Fault> {
    let [name, words @ ..] = args else {
        return Err(Fault::Word);
    };
    match verb {
        Verb::Offer => take_offer(slot, offers, name),
        _ => accept_by(alloc, slot, offers.get(name).ok_or(Fault::Word)?, words),
    }
}

// The calls that are made with a pass.
fn with_pass(
    slot: &mut Slot,
    pass: &FsPass,
    verb: Verb,
    words: &[&[u8]],
    out: &mut Vec<u8>,
) -> Result<Said, Fault> {
    match verb {
        Verb::Call => call_by(*out.allocator(), slot, pass, words),
        _ => resolve(slot, pass, words, out),
    }
}

// The calls that take or give a pass, which has that name.
fn by_pass(
    slot: &mut Slot,
    passes: &mut Named<FsPass>,
    verb: Verb,
    args: &[&[u8]],
    out: &mut Vec<u8>,
) -> Result<Said, Fault> {
    let [name, words @ ..] = args else {
        return Err(Fault::Word);
    };
    match verb {
        Verb::Enter => enter(slot, passes, name),
        Verb::Leave => leave(slot, passes, name),
        _ => with_pass(slot, passes.get(name).ok_or(Fault::Word)?, verb, words, out),
    }
}

// Writes an answer and the phase afterwards.
fn append_answer(out: &mut Vec<u8>, said: Said, slot: &Slot) -> Result<(), Memory> {
    append_said(out, said)?;
    append(out, b"; ")?;
    append_said(out, phase_said(slot.phase()))
}

impl Places {
    /// No values.
    pub(crate) fn new(alloc: Global) -> Places {
        Places {
            slots: Named::new(alloc),
            offers: Named::new(alloc),
            passes: Named::new(alloc),
        }
    }

    // Makes a call on the slot of that name.
    fn on_slot(
        &mut self,
        name: &[u8],
        verb: Verb,
        args: &[&[u8]],
        out: &mut Vec<u8>,
    ) -> Result<Said, Fault> {
        let slot = self.slots.get_mut(name).ok_or(Fault::Word)?;
        match verb {
            Verb::Offer | Verb::Accept => {
                by_offer(*out.allocator(), slot, &mut self.offers, verb, args)
            }
            Verb::Enter | Verb::Leave | Verb::Call | Verb::Resolve => {
                by_pass(slot, &mut self.passes, verb, args, out)
            }
            _ => by_words(slot, verb, args, out),
        }
    }

    // Makes a slot of that name, or a call on it.
    fn answer(
        &mut self,
        name: &[u8],
        verb: Verb,
        args: &[&[u8]],
        out: &mut Vec<u8>,
    ) -> Result<Said, Fault> {
        match (verb, args) {
            (Verb::New, []) => new_slot(&mut self.slots, name, *out.allocator()),
            (Verb::Serve, []) => serve(&mut self.slots, name, *out.allocator()),
            _ => self.on_slot(name, verb, args, out),
        }
    }

    /// The line `slot NAME VERB ..`, behind its first word: the answer and the phase afterwards.
    pub(crate) fn slot_line(&mut self, words: &[&[u8]], out: &mut Vec<u8>) -> Result<(), Fault> {
        let [name, verb, args @ ..] = words else {
            return Err(Fault::Word);
        };
        let verb = chosen(&VERBS, verb)?;
        let said = self.answer(name, verb, args, out)?;
        let slot = self.slots.get(name).ok_or(Fault::Word)?;
        Ok(append_answer(out, said, slot)?)
    }

    /// The line `image NAME NUMBER EPOCH COUNT`, behind its first word.
    pub(crate) fn image_line(&mut self, words: &[&[u8]], out: &mut Vec<u8>) -> Result<(), Fault> {
        let [name, number, epoch, count] = words else {
            return Err(Fault::Word);
        };
        let numbers = Numbers::read(number, epoch, count)?;
        let said = make_image(*out.allocator(), &mut self.offers, name, numbers)?;
        Ok(append_said(out, said)?)
    }
}
