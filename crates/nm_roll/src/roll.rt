//! The roll of a server.
ghost use Rattle.std.specs.Prelude.{◌≡◌, ◌≤◌, max, length, IfOk, OnOk, OnErr};
ghost use Rattle.nm_roll.specs.Records.{new_roll};
ghost use Rattle.nm_roll.specs.Clients.{set_answer, set_after, confirm_answer, confirm_after};
ghost use Rattle.nm_roll.specs.Leases.{is_client, is_instance, touch_answer, touch_after, expire_answer, expire_after, number_answer, path_answer};
ghost use Rattle.nm_roll.specs.Moves.{reserved_as, reserve_answer, reserve_after, release_after, settle_after, moved_after, probed_after};

use crate::cases::{ReserveCase, SetCase};
use crate::rows::{
    add_moved_all, confirm_pair, drop_moved, find_instance, lapse, settle_all, touch_client,
    touch_instance,
};
use crate::told::{clientid_of, copy_path_in, drop_numbered, find_numbered};
use crate::{CallbackPath, ConfirmAnswer, Reservation, Reserve, SetAnswer, StringRow, Touch};
use nm_types::{Ended, FsNum, Instance, Memory, MoveNum, Principal, ServerNum};
use std::alloc::Global;
use std::marker::Model;

/// What a server knows of its clients, its clock, and the leases that wait for file systems on their way here.
pub struct Roll {
    pub(crate) server: ServerNum,
    pub(crate) tag: u16,
    pub(crate) lease: u64,
    pub(crate) clock: u64,
    pub(crate) clientids: u64,
    pub(crate) confirms: u64,
    pub(crate) rows: Vec<StringRow>,
    pub(crate) reservations: Vec<Reservation>,
}

impl Drop for Roll {
    fn drop(self) {
        let Roll {
            server: _,
            tag: _,
            lease: _,
            clock: _,
            clientids: _,
            confirms: _,
            rows: _,
            reservations: _,
        } = self;
    }
}

impl Model for Roll {
    ghost use Rattle.nm_roll.specs.Records.{RollNow};

    ghost Value = { RollNow };

    ghost view = { λ r. record {
      server = r.server;
      tag = r.tag;
      lease = r.lease;
      clock = r.clock;
      clientids = r.clientids;
      confirms = r.confirms;
      table = r.rows.items;
      reservations = r.reservations.items;
    } };
}

impl Roll {
    /// The roll of the server of that number and tag, which knows no client. Leases last `lease`, and the clock stands at 0. It
    /// takes no memory.
    pub fn new(alloc: Global, server: ServerNum, tag: u16, lease: u64) -> Roll
        ensures { result ≡ new_roll server tag lease }
    {
        Roll {
            server,
            tag,
            lease,
            clock: 0,
            clientids: 0,
            confirms: 0,
            rows: Vec::new(alloc),
            reservations: Vec::new(alloc),
        }
    }

    /// The clock goes on to that moment. A smaller number changes nothing.
    pub fn tick(&mut self, now: u64)
        ensures { self.new ≡ record self.old { clock = max self.old.clock now } }
    {
        self.clock = self.clock.max(now);
    }

    /// A client gives its string (SETCLIENTID, RFC 7530, 16.33), the verifier of its start, and where it is called back. It is given
    /// a pair to confirm: the clientid of this start if that is known, else a new one, and a new confirm verifier. After want of
    /// memory nothing has changed.
    #[tactic(auto, unfolding(crate::specs::Clients::set_answer, crate::specs::Clients::set_after, crate::specs::Clients::answer_of_set, crate::specs::Clients::after_set))]
    pub fn set(
        &mut self,
        id: &[u8],
        verifier: u64,
        principal: Principal,
        callback: &CallbackPath,
    ) -> Result<SetAnswer, Memory>
        requires { length id.now ≤ 1024 }

        ensures answer { IfOk result (λ a. a ≡ set_answer self.old id.now verifier principal) }
        ensures after { OnOk result (self.new ≡ set_after self.old id.now verifier principal callback.now) }
        ensures err { OnErr result (self.new ≡ self.old) }
    {
        match self.set_case(id, verifier, principal) {
            SetCase::OfOther => self.in_use_at(id),
            SetCase::Known(clientid) => self.give(id, verifier, principal, callback, clientid),
            SetCase::NoRoom => Ok(SetAnswer::Full),
            SetCase::New => self.give_new(id, verifier, principal, callback),
        }
    }

    /// A client confirms the pair that it was given (SETCLIENTID_CONFIRM, RFC 7530, 16.34). It takes no memory.
    #[tactic(auto, unfolding(crate::specs::Clients::confirm_answer, crate::specs::Clients::confirm_after))]
    pub fn confirm(&mut self, clientid: u64, confirm: u64, principal: Principal) -> ConfirmAnswer
        ensures answer { result ≡ confirm_answer self.old clientid confirm principal }
        ensures after { self.new ≡ confirm_after self.old clientid confirm principal }
    {
        confirm_pair(&mut self.rows, self.clock, clientid, confirm, principal)
    }

    /// A client comes with an operation that has its clientid, and its lease is renewed (RFC 7530, 9.5). It takes no memory.
    #[tactic(auto, unfolding(crate::specs::Leases::touch_answer, crate::specs::Leases::touch_after))]
    pub fn touch_id(&mut self, clientid: u64) -> Touch
        ensures answer { result ≡ touch_answer self.old (is_client clientid) }
        ensures after { self.new ≡ touch_after self.old (is_client clientid) }
    {
        touch_client(&mut self.rows, self.lease, self.clock, clientid)
    }

    /// A client comes with an operation whose stateid is of that instance, and its lease is renewed (RFC 7530, 9.5). It takes no
    /// memory.
    #[tactic(auto, unfolding(crate::specs::Leases::touch_answer, crate::specs::Leases::touch_after))]
    pub fn touch_instance(&mut self, instance: &Instance) -> Touch
        ensures answer { result ≡ touch_answer self.old (is_instance instance.now) }
        ensures after { self.new ≡ touch_after self.old (is_instance instance.now) }
    {
        touch_instance(&mut self.rows, self.lease, self.clock, instance)
    }

    /// The lease of a string's client lapses if its time is over and no file system is on its way here where the client has state
    /// (RFC 7530, 9.6.3). `None` exactly where it doesn't lapse. It takes no memory.
    #[tactic(auto, unfolding(crate::specs::Leases::expire_after))]
    pub fn expire(&mut self, id: &[u8]) -> Option<Ended>
        ensures answer { result ≡ expire_answer self.old id.now }
        ensures after { self.new ≡ expire_after self.old id.now }
    {
        let ended = self.lapse_at(id);
        if ended.is_some() {
            lapse(&mut self.rows, id);
        }
        ended
    }

    /// A file system is on its way here by the move of that number, and these instances have state in it. Each gets a record here,
    /// if it has none whose lease stands, and its lease doesn't lapse until the move is settled or released. A refusal and want of
    /// memory change nothing.
    #[tactic(auto, unfolding(crate::specs::Moves::reserve_answer, crate::specs::Moves::reserve_after, crate::specs::Moves::answer_of_reserve, crate::specs::Moves::after_reserve))]
    pub fn reserve(
        &mut self,
        fs: FsNum,
        number: MoveNum,
        instances: &[Instance],
    ) -> Result<Reserve, Memory>
        ensures answer { IfOk result (λ a. reserved_as a ≡ reserve_answer self.old fs number instances.now) }
        ensures after { OnOk result (self.new ≡ reserve_after self.old fs number instances.now) }
        ensures err { OnErr result (self.new ≡ self.old) }
    {
        match self.reserve_case(fs, number) {
            ReserveCase::Outdated(known) => Ok(Reserve::Old { known }),
            ReserveCase::Again => self.reserve_again(fs),
            ReserveCase::Begun => self.reserve_new(fs, number, instances),
        }
    }

    /// The move of that number has come to its end, and the file system is here: its reservation ends, the leases of its instances
    /// are renewed, and it goes from their moved sets. Nothing changes where no reservation has that number. It takes no memory.
    #[tactic(auto, unfolding(crate::specs::Moves::settle_after, crate::specs::Moves::settle_by))]
    pub fn settle(&mut self, fs: FsNum, number: MoveNum)
        ensures { self.new ≡ settle_after self.old fs number }
    {
        if let Some(found) = find_numbered(&self.reservations, fs, number) {
            settle_all(&mut self.rows, self.clock, fs, found.passes.items());
            drop_numbered(&mut self.reservations, fs, number);
        }
    }

    /// The move of that number was given up: its reservation ends. Nothing changes where none has that number. It takes no memory.
    #[tactic(auto, unfolding(crate::specs::Moves::release_after))]
    pub fn release(&mut self, fs: FsNum, number: MoveNum)
        ensures { self.new ≡ release_after self.old fs number }
    {
        drop_numbered(&mut self.reservations, fs, number);
    }

    /// A file system has moved away in which these instances have state: those whose leases stand are told so from now on, for two
    /// lease times at most. It takes no memory.
    #[tactic(auto, unfolding(crate::specs::Moves::moved_after))]
    pub fn moved(&mut self, fs: FsNum, instances: &[Instance])
        ensures { self.new ≡ moved_after self.old fs instances.now }
    {
        add_moved_all(&mut self.rows, self.lease, self.clock, fs, instances);
    }

    /// A client has asked where the file system is: it isn't told any more that it has moved. It takes no memory.
    #[tactic(auto, unfolding(crate::specs::Moves::probed_after))]
    pub fn probed(&mut self, clientid: u64, fs: FsNum)
        ensures { self.new ≡ probed_after self.old clientid fs }
    {
        drop_moved(&mut self.rows, clientid, fs);
    }

    /// The clientid of an instance's confirmed record, lapsed or not. `None` exactly where it has none.
    #[tactic(auto, unfolding(crate::specs::Leases::number_answer))]
    pub fn number_of(&self, instance: &Instance) -> Option<u64>
        ensures { result ≡ number_answer self.now instance.now }
    {
        clientid_of(find_instance(&self.rows, instance))
    }

    /// Where an instance is called back. `None` exactly where it has no confirmed record whose lease stands, or that record has no
    /// path.
    #[tactic(auto, unfolding(crate::specs::Leases::path_answer))]
    pub fn path_of(&self, instance: &Instance) -> Result<Option<CallbackPath>, Memory>
        ensures { IfOk result (λ path. path ≡ path_answer self.now instance.now) }
    {
        copy_path_in(find_instance(&self.rows, instance))
    }
}
