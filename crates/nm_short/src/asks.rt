//! What a client does with a file system.
ghost use Rattle.std.specs.Prelude.{◌≡◌, ◌≤◌, ◌++◌, [], length, IfOk, OnOk, map, None};
ghost use Rattle.nm_rules.specs.Answer.{refused_value};
ghost use Rattle.nm_types.specs.declared.calls.Verdict.TheVariants.{Pass};
ghost use Rattle.nm_slot.specs.Answers.{apply_answer};
ghost use Rattle.nm_slot.specs.SlotNow.SlotStep.{Applying};
ghost use Rattle.nm_short.specs.Files.{asked_in, freed_in, knocked_to, sent_on};
ghost use Rattle.nm_short.specs.Known.{learned, place_of, sent_to, put_down, taken_up};
ghost use Rattle.nm_short.specs.Runs.{tried_to};
ghost use Rattle.nm_short.specs.Requests.{requests_limit, reply_of, last_cookie, more_of, confirms, opening_goes_on, listing_goes_on, tests, goes_on_with, names_of, told_ok, told_refused, told_by, freed_by, unknown_status};
ghost use Rattle.nm_short.specs.Tables.{knocks_to, asks_to, asked_to, calls_to, door_to, tries_to, frees_within_to, frees_after_to, frees_to, slot_in, stepped};

use crate::clients::{Clients, seqid_after};
use crate::files::FileSlots;
use crate::locking::{Freed, make_test};
use crate::sends::{make_confirm, make_list};
use nm_script::{ClientRow, Names, Told};
use nm_slot::{Answer, Enter, FsPass};
use nm_types::{
    Action, Call, Deed, DirEntry, Instance, Items, LockOutcome, Memory, OpStatus, OpenArgs, Opened,
    ReadDirArgs, ReadDirOk, Reply, ReplyValue, ServerNum,
};
use std::alloc::Global;

/// So many requests one line may make.
const REQUESTS_LIMIT: u64 = 1000;

/// What came of a request: the reply, and the request that goes on with it.
#[derive(Drop)]
pub struct Replied {
    pub reply: Reply,
    pub next: Option<Call>,
}

/// What came of a request and of those that go on with it.
#[derive(Drop)]
pub struct Asked {
    /// The last reply; `None` where there were more requests to make.
    pub reply: Option<Reply>,
    /// The names that all replies listed.
    pub names: Names,
}

/// Where a client knocked last, and the answer there; `None` where it was sent on each time.
#[derive(Drop)]
pub struct Knocked {
    pub server: ServerNum,
    pub door: Option<Enter>,
}

// Where a door sends on.
fn sent_on(answer: &Enter) -> Option<ServerNum>
    ensures { result ≡ sent_on answer.now }
{
    match answer {
        Enter::Moved { dest } => Some(*dest),
        Enter::Entered(_) | Enter::Full { .. } | Enter::Delay | Enter::Unknown => None,
    }
}

// The value of a reply that carries nothing out.
fn refused_value(alloc: Global, deed: &Deed) -> ReplyValue
    ensures { result ≡ refused_value deed.now }
{
    match deed {
        Deed::Access(_) => ReplyValue::Access(None),
        Deed::Close(_) => ReplyValue::Close(None),
        Deed::Commit(_) => ReplyValue::Commit(None),
        Deed::Create(_) => ReplyValue::Create(None),
        Deed::GetAttr(_) => ReplyValue::GetAttr(None),
        Deed::Lock(_) => ReplyValue::Lock(None),
        Deed::LockTest(_) => ReplyValue::LockTest(None),
        Deed::Lookup(_) => ReplyValue::Lookup(None),
        Deed::LookupP => ReplyValue::LookupP(None),
        Deed::Open(_) => ReplyValue::Open(None),
        Deed::OpenConfirm(_) => ReplyValue::OpenConfirm(None),
        Deed::OpenDowngrade(_) => ReplyValue::OpenDowngrade(None),
        Deed::Read(_) => ReplyValue::Read(None),
        Deed::ReadDir(_) => ReplyValue::ReadDir(None),
        Deed::ReleaseLockOwner(_) => ReplyValue::ReleaseLockOwner(false),
        Deed::Remove(_) => ReplyValue::Remove(None),
        Deed::SetAttr(_) => ReplyValue::SetAttr(Items::new(alloc)),
        Deed::Unlock(_) => ReplyValue::Unlock(None),
        Deed::Write(_) => ReplyValue::Write(None),
    }
}

// The reply to a call.
fn reply_of(alloc: Global, call: &Call, answer: Answer) -> Reply
    ensures { result ≡ reply_of call.now answer }
{
    let status = match answer {
        Answer::Done { reply, .. } => return reply,
        Answer::Ended { .. } => OpStatus::Expired,
        Answer::Strayed { .. } => OpStatus::ServerFault,
        Answer::Last { .. } => OpStatus::Resource,
    };
    Reply {
        status,
        value: refused_value(alloc, &call.deed),
        recalls: Items::new(alloc),
    }
}

// What is told of a file system that the server doesn't know.
#[tactic(auto, unfolding(crate::specs::Requests::unknown_status))]
fn unknown_status(action: &Action) -> OpStatus
    ensures { result ≡ unknown_status action.now }
{
    match action {
        Action::Open(_) | Action::Create(_) => OpStatus::NoEnt,
        Action::Remove(_) | Action::MkDir(_) | Action::List(_) => OpStatus::NoEnt,
        Action::Test(_) | Action::Release(_) => OpStatus::NoEnt,
        Action::Close(_) | Action::Downgrade(_) => OpStatus::Stale,
        Action::Lock(_) | Action::Unlock(_) => OpStatus::Stale,
        Action::Read(_) | Action::Write(_) | Action::Size(_) => OpStatus::Stale,
    }
}

// The cookie of the last entry, or that behind which there are none.
fn last_cookie(cookie: u64, entries: &[DirEntry]) -> u64
    ensures { result ≡ last_cookie cookie entries.now }
{
    let mut last = cookie;
    for entry in entries {
        last = entry.cookie;
    }
    last
}

// The request that goes on with a list.
fn more_of(alloc: Global, args: &ReadDirArgs, ok: &ReadDirOk) -> Option<Call>
    ensures { result ≡ more_of args.now ok.now }
{
    if ok.eof {
        return None;
    }
    let cookie = last_cookie(args.cookie, ok.entries.items());
    Some(make_list(alloc, cookie))
}

// The OPEN_CONFIRM that goes on with an OPEN, where its owner has to be confirmed.
fn confirms(caller: Option<Instance>, args: &OpenArgs, opened: &Opened) -> Option<Call>
    ensures { result ≡ confirms caller args.now opened.now }
{
    if opened.ok.rflags & 2 == 0 {
        return None;
    }
    let seqid = seqid_after(args.seqid);
    Some(make_confirm(caller, opened, seqid))
}

// The LOCKT that goes on with the LOOKUP of a test.
#[tactic(auto, unfolding(crate::specs::Requests::tests))]
fn tests(
    alloc: Global,
    client: u32,
    row: &ClientRow,
    action: &Action,
    value: &ReplyValue,
) -> Result<Option<Call>, Memory>
    requires { length row.now.name ≤ 16 }
    ensures { IfOk result (λ call. call ≡ tests client row.now action.now value.now) }
{
    let Action::Test(a) = action else {
        return Ok(None);
    };
    match value {
        ReplyValue::Lookup(Some(file)) => Ok(Some(make_test(alloc, client, row, a, *file)?)),
        _ => Ok(None),
    }
}

// The request that goes on with an OPEN.
#[tactic(auto, unfolding(crate::specs::Requests::opening_goes_on))]
fn goes_on_opening(caller: Option<Instance>, args: &OpenArgs, value: &ReplyValue) -> Option<Call>
    ensures { result ≡ opening_goes_on caller args.now value.now }
{
    match value {
        ReplyValue::Open(Some(opened)) => confirms(caller, args, opened),
        _ => None,
    }
}

// The request that goes on with a READDIR.
#[tactic(auto, unfolding(crate::specs::Requests::listing_goes_on))]
fn goes_on_listing(alloc: Global, args: &ReadDirArgs, value: &ReplyValue) -> Option<Call>
    ensures { result ≡ listing_goes_on args.now value.now }
{
    match value {
        ReplyValue::ReadDir(Some(ok)) => more_of(alloc, args, ok),
        _ => None,
    }
}

// The request that goes on with another.
#[tactic(auto, unfolding(crate::specs::Requests::goes_on_by))]
fn goes_on_with(
    alloc: Global,
    client: u32,
    row: &ClientRow,
    action: &Action,
    call: &Call,
    value: &ReplyValue,
) -> Result<Option<Call>, Memory>
    requires { length row.now.name ≤ 16 }
    ensures { IfOk result (λ next. next ≡ goes_on_with client row.now action.now call.now value.now) }
{
    match &call.deed {
        Deed::Open(args) => Ok(goes_on_opening(call.caller, args, value)),
        Deed::ReadDir(args) => Ok(goes_on_listing(alloc, args, value)),
        Deed::Lookup(_) => Ok(tests(alloc, client, row, action, value)?),
        _ => Ok(None),
    }
}

// The names of entries, behind others.
fn add_entries(names: &mut Names, entries: &[DirEntry]) -> Result<(), Memory>
    ensures { OnOk result (names.new ≡ names.old ++ map (λ entry. entry.name) entries.now) }
{
    for entry in entries {
        names.push(entry.name.copy()?)?;
    }
    Ok(())
}

// The names that a reply lists, behind others.
#[tactic(auto, unfolding(crate::specs::Requests::names_of))]
fn add_names(names: &mut Names, value: &ReplyValue) -> Result<(), Memory>
    ensures { OnOk result (names.new ≡ names.old ++ names_of value.now) }
{
    match value {
        ReplyValue::ReadDir(Some(ok)) => Ok(add_entries(names, ok.entries.items())?),
        _ => Ok(()),
    }
}

// What a client is told of an OK.
#[tactic(auto, unfolding(crate::specs::Requests::told_ok))]
fn told_ok(value: ReplyValue, names: Names) -> Told
    ensures { result ≡ told_ok value names }
{
    match value {
        ReplyValue::Write(Some(ok)) => Told::Wrote(ok.count),
        ReplyValue::Read(Some(ok)) => Told::Read(ok),
        ReplyValue::ReadDir(Some(_)) => Told::Listed(names),
        _ => Told::Answered(OpStatus::Nfs4Ok),
    }
}

// What a client is told of another status.
#[tactic(auto, unfolding(crate::specs::Requests::told_refused))]
fn told_refused(status: OpStatus, value: ReplyValue) -> Told
    ensures { result ≡ told_refused status value }
{
    match value {
        ReplyValue::Lock(Some(LockOutcome::Denied(denied))) => Told::Denied(denied),
        ReplyValue::LockTest(Some(denied)) => Told::Denied(denied),
        ReplyValue::Lookup(_) => Told::Refused(status),
        _ => Told::Answered(status),
    }
}

// What a client is told of the last reply, and of the names that all of them listed.
#[tactic(auto, unfolding(crate::specs::Requests::told_by))]
fn told_by(reply: Reply, names: Names) -> Told
    ensures { result ≡ told_by reply names }
{
    let status = reply.status;
    if status.is_done() {
        told_ok(reply.into_value(), names)
    } else {
        told_refused(status, reply.into_value())
    }
}

// What a call's status leaves of a release.
#[tactic(auto, unfolding(crate::specs::Requests::freed_by))]
fn freed_by(status: OpStatus) -> Freed
    ensures { result ≡ freed_by status }
{
    if status.is_done() {
        Freed::On
    } else {
        Freed::Ends(status)
    }
}

impl FileSlots {
    // Knocks at a server, and where it is sent elsewhere, there.
    fn knock(&mut self, from: ServerNum) -> Knocked
        ensures { knocked_to result self.new ≡ knocks_to requests_limit self.old from }
    {
        let mut server = from;
        for _count in 0..REQUESTS_LIMIT {
            let answer = self.enter(server);
            match sent_on(&answer) {
                Some(dest) => server = dest,
                None => {
                    return Knocked {
                        server,
                        door: Some(answer),
                    };
                }
            }
        }
        Knocked { server, door: None }
    }

    // A request's reply. What it lists comes behind other names.
    fn request(
        &mut self,
        server: ServerNum,
        pass: &FsPass,
        call: &Call,
        names: &mut Names,
    ) -> Result<Reply, Memory>
        ensures reply { IfOk result (λ reply. reply ≡ reply_of call.now (apply_answer (slot_in self.old server) pass.now.epoch None call.now Pass)) }
        ensures after { OnOk result (self.new ≡ stepped self.old server (Applying pass.now.epoch None call.now Pass [] (apply_answer (slot_in self.old server) pass.now.epoch None call.now Pass))) }
        ensures names { IfOk result (λ reply. names.new ≡ names.old ++ names_of reply.value) }
    {
        let answer = self.apply(server, pass, call)?;
        let reply = reply_of(self.alloc, call, answer);
        add_names(names, &reply.value)?;
        Ok(reply)
    }

    // A request of an action with a pass: the client learns from the reply, and what goes on with it is told.
    fn ask_one(
        &mut self,
        clients: &mut Clients,
        server: ServerNum,
        pass: &FsPass,
        client: u32,
        row: &ClientRow,
        action: &Action,
        call: &Call,
        names: &mut Names,
    ) -> Result<Replied, Memory>
        requires { length row.now.name ≤ 16 }
        ensures reply { IfOk result (λ replied. replied.reply ≡ reply_of call.now (apply_answer (slot_in self.old server) pass.now.epoch None call.now Pass)) }
        ensures after { OnOk result (self.new ≡ stepped self.old server (Applying pass.now.epoch None call.now Pass [] (apply_answer (slot_in self.old server) pass.now.epoch None call.now Pass))) }
        ensures known { IfOk result (λ replied. clients.new ≡ learned client action.now call.now replied.reply clients.old) }
        ensures names { IfOk result (λ replied. names.new ≡ names.old ++ names_of replied.reply.value) }
        ensures next { IfOk result (λ replied. replied.next ≡ goes_on_with client row.now action.now call.now replied.reply.value) }
    {
        let reply = self.request(server, pass, call, names)?;
        clients.learn(client, action, call, &reply)?;
        let next = goes_on_with(self.alloc, client, row, action, call, &reply.value)?;
        Ok(Replied { reply, next })
    }

    // Makes an action's first request with a pass, and those that go on with it.
    fn ask(
        &mut self,
        clients: &mut Clients,
        server: ServerNum,
        pass: &FsPass,
        client: u32,
        row: &ClientRow,
        action: &Action,
        first: &Call,
    ) -> Result<Asked, Memory>
        requires { length row.now.name ≤ 16 }
        ensures { IfOk result (λ asked. asked_in asked self.new clients.new ≡ asks_to requests_limit self.old server pass.now.epoch client row.now action.now first.now clients.old []) }
    {
        let mut names = Items::new(self.alloc);
        let mut call = first.copy()?;
        for _count in 0..REQUESTS_LIMIT {
            let Replied { reply, next } = self.ask_one(
                clients, server, pass, client, row, action, &call, &mut names,
            )?;
            match next {
                Some(next) => call = next,
                None => {
                    return Ok(Asked {
                        reply: Some(reply),
                        names,
                    });
                }
            }
        }
        Ok(Asked { reply: None, names })
    }

    // What a client is told then.
    #[tactic(auto, unfolding(crate::specs::Tables::asked_to))]
    fn tell(
        &self,
        clients: &mut Clients,
        asked: Asked,
        client: u32,
        action: &Action,
    ) -> Result<Told, Memory>
        ensures { IfOk result (λ told. tried_to told self.now clients.new ≡ asked_to self.now client action.now clients.old asked.names asked.reply) }
    {
        let Asked { reply, names } = asked;
        let Some(reply) = reply else {
            clients.take_up(client, action)?;
            return Ok(Told::Stopped);
        };
        clients.put_down(client);
        Ok(told_by(reply, names))
    }

    // Makes an action's requests with a pass, and gives it back.
    #[tactic(auto, unfolding(crate::specs::Tables::calls_to))]
    fn call(
        &mut self,
        clients: &mut Clients,
        server: ServerNum,
        pass: FsPass,
        client: u32,
        row: &ClientRow,
        action: &Action,
        call: &Call,
    ) -> Result<Told, Memory>
        requires { length row.now.name ≤ 16 }
        ensures { IfOk result (λ told. tried_to told self.new clients.new ≡ calls_to self.old server pass.epoch client row.now action.now call.now clients.old) }
    {
        let asked = self.ask(clients, server, &pass, client, row, action, call)?;
        self.leave(server, pass);
        Ok(self.tell(clients, asked, client, action)?)
    }

    /// What comes of the door's answer. After want of memory nothing is promised of the file system, nor of what clients know.
    #[tactic(auto, unfolding(crate::specs::Tables::door_to))]
    pub fn pass_door(
        &mut self,
        clients: &mut Clients,
        knocked: Knocked,
        client: u32,
        row: &ClientRow,
        action: &Action,
        call: &Call,
    ) -> Result<Told, Memory>
        requires { length row.now.name ≤ 16 }
        ensures { IfOk result (λ told. tried_to told self.new clients.new ≡ door_to self.old knocked.server knocked.door client row.now action.now call.now clients.old) }
    {
        let Knocked { server, door } = knocked;
        let Some(answer) = door else {
            clients.take_up(client, action)?;
            return Ok(Told::Stopped);
        };
        match answer {
            Enter::Entered(pass) => {
                Ok(self.call(clients, server, pass, client, row, action, call)?)
            }
            Enter::Delay => {
                clients.take_up(client, action)?;
                Ok(Told::Delayed)
            }
            Enter::Moved { .. } => {
                clients.take_up(client, action)?;
                Ok(Told::Stopped)
            }
            Enter::Full { .. } => {
                clients.put_down(client);
                Ok(Told::Refused(OpStatus::Resource))
            }
            Enter::Unknown => {
                clients.put_down(client);
                Ok(Told::Refused(unknown_status(action)))
            }
        }
    }

    /// Knocks where a client believes the file system to be, which is then where it knocked last. After want of memory nothing is
    /// promised of what clients know.
    pub fn knock_for(&mut self, clients: &mut Clients, client: u32) -> Result<Knocked, Memory>
        ensures knocked { IfOk result (λ knocked. knocked_to knocked self.new ≡ knocks_to requests_limit self.old (place_of client self.old.fs self.old.first clients.old.places)) }
        ensures known { IfOk result (λ knocked. clients.new ≡ record clients.old { places = sent_to client self.old.fs knocked.server clients.old.places }) }
    {
        let fs = self.fs();
        let from = clients.place_of(client, fs, self.first);
        let knocked = self.knock(from);
        clients.send_to(client, fs, knocked.server)?;
        Ok(knocked)
    }

    // Makes a release with a pass, and gives it back.
    #[tactic(auto, unfolding(crate::specs::Tables::frees_within_to))]
    fn free_within(&mut self, server: ServerNum, pass: FsPass, call: &Call) -> Result<Freed, Memory>
        ensures { IfOk result (λ freed. freed_in freed self.new ≡ frees_within_to self.old server pass.epoch call.now) }
    {
        let answer = self.apply(server, &pass, call)?;
        self.leave(server, pass);
        let reply = reply_of(self.alloc, call, answer);
        Ok(freed_by(reply.status))
    }

    // What comes of a release by the door's answer.
    #[tactic(auto, unfolding(crate::specs::Tables::frees_after_to))]
    fn free_after(&mut self, server: ServerNum, call: &Call, answer: Enter) -> Result<Freed, Memory>
        ensures { IfOk result (λ freed. freed_in freed self.new ≡ frees_after_to self.old server call.now answer) }
    {
        match answer {
            Enter::Entered(pass) => Ok(self.free_within(server, pass, call)?),
            Enter::Moved { .. } | Enter::Unknown => Ok(Freed::On),
            Enter::Full { .. } => Ok(Freed::Ends(OpStatus::Resource)),
            Enter::Delay => Ok(Freed::Waits),
        }
    }

    /// Makes a release at a server, where the file system is there. After want of memory nothing is promised of it.
    #[tactic(auto, unfolding(crate::specs::Tables::frees_to))]
    pub fn free(&mut self, server: ServerNum, call: &Call) -> Result<Freed, Memory>
        ensures { IfOk result (λ freed. freed_in freed self.new ≡ frees_to self.old server call.now) }
    {
        let answer = self.enter(server);
        Ok(self.free_after(server, call, answer)?)
    }

    /// A client's call, and those that go on with it, made where the file system is. After want of memory nothing is promised
    /// of the file system, nor of what clients know.
    #[tactic(auto, unfolding(crate::specs::Tables::tries_to))]
    pub fn tries(
        &mut self,
        clients: &mut Clients,
        client: u32,
        row: &ClientRow,
        action: &Action,
        call: &Call,
    ) -> Result<Told, Memory>
        requires { length row.now.name ≤ 16 }
        ensures { IfOk result (λ told. tried_to told self.new clients.new ≡ tries_to self.old client row.now action.now call.now clients.old) }
    {
        let knocked = self.knock_for(clients, client)?;
        Ok(self.pass_door(clients, knocked, client, row, action, call)?)
    }
}
