//! The door of a file system at a server: passes, and the calls that are made with them.
ghost use Rattle.std.specs.Prelude.{◌≡◌, ◌==◌, ◌≤◌, ◌<◌, ◌^◌, ◌+◌, ◌-◌, not, ℕ, true, false, IfOk, OnOk, OnErr, length, option_map, option_copied};
ghost use Rattle.std.specs.Vec.{vec_capacity};
ghost use Rattle.nm_types.specs.declared.calls.Event.TheVariants.{Asked};
ghost use Rattle.nm_slot.specs.Answers.{enter_answer, apply_answer, apply_ends, resolve_answer, turned_away, let_in, is_full, ends_before};
ghost use Rattle.nm_slot.specs.Changes.{slot_after, stage_ended};
ghost use Rattle.nm_slot.specs.Eras.{is_late, era_seen, noted_lease};
ghost use Rattle.nm_slot.specs.Images.{offer_of};
ghost use Rattle.nm_slot.specs.Kept.{doing_of, stage_of, held_of, spent_of, rows_of, is_here, count_moving, called_view, IsStaged, IsKeptOrSpent, IsReplyAt, IsStop, Goes, Stops, is_staged};
ghost use Rattle.nm_slot.specs.SlotNow.{Own, phase_at};
ghost use Rattle.nm_slot.specs.SlotNow.SlotStep.{Entering, Leaving, Applying};
ghost use Rattle.nm_slot.specs.declared.answers.Answer.TheVariants.{Strayed};

use crate::eras::{EraRow, era_seen, is_late, note_lease, reserve, row_of};
use crate::stage::{Doing, Left, Stage};
use crate::{Answer, Enter, FsPass, Image, Slot};
use nm_types::{Call, Era, Event, Instance, LeasePass, Memory, OpStatus, Reply, StateId, Verdict};

/// As many passes may be out.
const MOST_PASSES: u64 = 1 << 63;

/// From so many entries on no call makes a further one, so that the ends of instances at an install have room.
const LAST_PLACE: u64 = (1 << 63) - (1 << 17);

// Where the state isn't here nobody is let in.
fn turn_away(held: &Option<Image>, left: Option<Left>) -> Enter
    ensures { result ≡ turned_away (option_map offer_of held.now) left }
{
    match held {
        Some(_) => Enter::Delay,
        None => match left {
            Some(left) => Enter::Moved { dest: left.dest },
            None => Enter::Unknown,
        },
    }
}

// Makes room for two more than there are rows: an event adds at most an open and an owner.
fn reserve_two_more(room: &mut Vec<Instance>, rows: usize) -> Result<(), Memory>
    ensures ok { OnOk result (rows + 2 ≤ vec_capacity room.new) }
    ensures items { room.new.items ≡ room.old.items }
    ensures err { OnErr result (vec_capacity room.new ≡ vec_capacity room.old) }
{
    let needed = rows.checked_add(2).ok_or(Memory)?;
    Ok(room.reserve(needed)?)
}

// Ends what the instance of a lease had of an earlier era in the state that is here. It answers how many had anything.
fn end_earlier(stage: &mut Stage, rows: &[EraRow], lease: Option<&LeasePass>) -> u64
    ensures ends { result ≡ length (ends_before (option_copied lease.entry) (stage_of stage.old) rows.now) }
    ensures after { stage_of stage.new ≡ stage_ended (ends_before (option_copied lease.entry) (stage_of stage.old) rows.now) (stage_of stage.old) }
    ensures few { result ≤ 1 }
    ensures held { held_of stage.new ≡ held_of stage.old }
    ensures spent { spent_of stage.new ≡ spent_of stage.old }
    ensures here { is_here stage.new ≡ is_here stage.old }
    ensures rows { rows_of stage.new ≤ rows_of stage.old }
    ensures phase { (own : Own) → phase_at (stage_of stage.new) own ≡ phase_at (stage_of stage.old) own }
    ensures count { (count : ℕ) → count_moving stage.new count ≡ count_moving stage.old count }
    ensures kept { (fs room epoch : ℕ) → IsStaged fs room epoch stage.old → IsStaged fs room epoch stage.new }
{
    match lease {
        None => 0,
        Some(lease) => {
            if row_of(rows, &lease.instance).era < lease.era {
                return stage.end(&lease.instance);
            }
            0
        }
    }
}

impl Slot {
    // Where the state is here one is let in while it is served.
    fn let_in(&self, doing: Doing) -> Enter
        ensures { result ≡ let_in self.now.view.fs (doing_of doing) self.now.view.own }
    {
        match doing {
            Doing::Serves => {
                if self.passes >= MOST_PASSES {
                    return Enter::Full {
                        passes: self.passes,
                    };
                }
                Enter::Entered(FsPass {
                    fs: self.fs,
                    epoch: self.epoch,
                })
            }
            Doing::Closes { .. } | Doing::Froze { .. } => Enter::Delay,
        }
    }

    // What the door answers.
    #[tactic(auto, unfolding(crate::specs::Answers::enter_answer))]
    fn door(&self) -> Enter
        ensures { result ≡ enter_answer self.now.view }
    {
        match &self.stage {
            Stage::Away(held) => turn_away(held, self.left),
            Stage::Here { doing, .. } => self.let_in(*doing),
        }
    }

    /// Asks for a pass. It is given where the file system is served, up to 2^63 at a time.
    #[tactic(auto, unfolding(crate::specs::Answers::enter_answer, crate::specs::Changes::slot_after))]
    pub fn enter(&mut self) -> Enter
        ensures answer { result ≡ enter_answer self.old.view }
        ensures after { self.new.view ≡ slot_after self.old.view (Entering result) }
        ensures spent { self.new.spent ≡ self.old.spent }
    {
        let answer = self.door();
        match &answer {
            Enter::Entered(_) => self.passes += 1,
            Enter::Full { .. } | Enter::Delay | Enter::Moved { .. } | Enter::Unknown => {}
        }
        answer
    }

    /// Gives a pass back. Where none is out nothing changes.
    #[tactic(auto, unfolding(crate::specs::Changes::slot_after))]
    pub fn leave(&mut self, pass: FsPass)
        ensures after { self.new.view ≡ slot_after self.old.view (Leaving pass.epoch) }
        ensures spent { self.new.spent ≡ self.old.spent }
    {
        self.passes = self.passes.saturating_sub(1);
    }

    // There is no room for a further entry.
    pub(crate) fn is_full(&self) -> bool
        ensures value { result ≡ is_full self.now.view.own }
        ensures room { result ≡ false → self.now.view.own.count < 2 ^ 63 - 2 ^ 17 }
    {
        self.count >= LAST_PLACE
    }

    // A pass is of another epoch than the one in which the state was here last.
    fn is_astray(&self, pass: &FsPass) -> bool
        ensures { result ≡ not (pass.now.epoch == self.now.view.own.epoch) }
    {
        pass.epoch != self.epoch
    }

    // A call comes too late by its lease.
    fn is_late(&self, lease: Option<&LeasePass>) -> bool
        ensures { result ≡ is_late (option_copied lease.entry) self.now.view.own.eras }
    {
        is_late(&self.eras, lease)
    }

    // The latest era in which the instance of a lease was seen here.
    fn era_seen(&self, lease: Option<&LeasePass>) -> Era
        ensures { result ≡ era_seen (option_copied lease.entry) self.now.view.own.eras }
    {
        era_seen(&self.eras, lease)
    }

    // What stops a call with that pass and lease while calls are taken: it is the answer to it.
    #[tactic(auto, using(crate::proofs::DoorLemmas::strays, crate::proofs::DoorLemmas::comes_late, crate::proofs::DoorLemmas::has_no_room, crate::proofs::DoorLemmas::goes_on))]
    fn stop_called(&self, pass: &FsPass, lease: Option<&LeasePass>) -> Option<Answer>
        ensures { IsStop pass.now.epoch (option_copied lease.entry) self.now.view.own result }
    {
        if self.is_astray(pass) {
            return Some(Answer::Strayed {
                pass_epoch: pass.epoch,
                slot_epoch: self.epoch,
            });
        }
        if self.is_late(lease) {
            let era = self.era_seen(lease);
            return Some(Answer::Ended { era });
        }
        if self.is_full() {
            return Some(Answer::Last { count: self.count });
        }
        None
    }

    // What stops a call with that pass and lease: it is the answer to it.
    #[tactic(auto, using(crate::proofs::DoorLemmas::stopped, crate::proofs::DoorLemmas::goes), unfolding(crate::specs::Changes::slot_after))]
    fn stop(&self, pass: &FsPass, lease: Option<&LeasePass>) -> Option<Answer>
        ensures { Stops pass.now.epoch (option_copied lease.entry) self.now.view.stage self.now.view.own result }
    {
        let strayed = Answer::Strayed {
            pass_epoch: pass.epoch,
            slot_epoch: self.epoch,
        };
        match &self.stage {
            Stage::Away(_) => Some(strayed),
            Stage::Here { doing, .. } => match *doing {
                Doing::Froze { .. } => Some(strayed),
                Doing::Serves | Doing::Closes { .. } => self.stop_called(pass, lease),
            },
        }
    }

    // Carries out an event, a call with its verdict, on the state that is here, as its next entry.
    #[tactic(auto, using(crate::proofs::StateLemmas::spent_by), unfolding(crate::specs::Changes::slot_after, crate::specs::SlotNow::phase_of))]
    fn take_event(&mut self, lease: Option<&LeasePass>, event: &Event) -> Result<Reply, Memory>
        requires here { is_staged self.old.view.stage ≡ true }
        requires room { self.old.view.own.count < 2 ^ 63 - 2 ^ 17 }
        ensures answer { IfOk result (λ r. IsReplyAt (stage_ended (ends_before (option_copied lease.entry) self.old.view.stage self.old.view.own.eras) self.old.view.stage) event.now r) }
        ensures after { IfOk result (λ r. self.new.view ≡ called_view self.old.view (option_copied lease.entry) event.now r) }
        ensures spent { OnOk result (self.new.spent ≡ false) }
        ensures err { OnErr result (IsKeptOrSpent self.old self.new) }
    {
        reserve_two_more(&mut self.room, self.stage.rows())?;
        reserve(&mut self.eras, self.brought.len())?;
        let ended = end_earlier(&mut self.stage, &self.eras, lease);
        match self.stage.apply(event) {
            Ok(reply) => {
                self.count += ended + 1;
                note_lease(&mut self.eras, lease);
                Ok(reply)
            }
            Err(fault) => Err(fault),
        }
    }

    // Carries a call out on the state that is here, as its next entry.
    fn carry_out(
        &mut self,
        lease: Option<&LeasePass>,
        call: &Call,
        verdict: Verdict,
    ) -> Result<Reply, Memory>
        requires here { is_staged self.old.view.stage ≡ true }
        requires room { self.old.view.own.count < 2 ^ 63 - 2 ^ 17 }
        ensures answer { IfOk result (λ r. IsReplyAt (stage_ended (ends_before (option_copied lease.entry) self.old.view.stage self.old.view.own.eras) self.old.view.stage) (Asked call.now verdict) r) }
        ensures after { IfOk result (λ r. self.new.view ≡ called_view self.old.view (option_copied lease.entry) (Asked call.now verdict) r) }
        ensures spent { OnOk result (self.new.spent ≡ false) }
        ensures err { OnErr result (IsKeptOrSpent self.old self.new) }
    {
        let event = Event::Asked(call.copy()?, verdict);
        self.take_event(lease, &event)
    }

    /// Makes a call with a pass, in the name of a lease or of none. Where the lease is the first of a later era of its instance, what
    /// the instance had here ends before the call. Memory is wanted only where the call goes on to the state. After it the slot is as
    /// it was, or its state answers want of memory alone from then on.
    #[tactic(auto, using(crate::proofs::StateLemmas::goes_done), unfolding(crate::specs::Answers::apply_answer, crate::specs::Answers::apply_ends))]
    pub fn apply(
        &mut self,
        pass: &FsPass,
        lease: Option<&LeasePass>,
        call: &Call,
        verdict: Verdict,
    ) -> Result<Answer, Memory>
        ensures answer { IfOk result (λ a. a ≡ apply_answer self.old.view pass.now.epoch (option_copied lease.entry) call.now verdict) }
        ensures after { IfOk result (λ a. self.new.view ≡ slot_after self.old.view
            (Applying pass.now.epoch (option_copied lease.entry) call.now verdict (apply_ends self.old.view (option_copied lease.entry)) a)) }
        ensures spent { OnOk result (self.new.spent ≡ false) }
        ensures unspent { OnOk result (self.old.spent ≡ false) }
        ensures err { OnErr result (IsKeptOrSpent self.old self.new) }
        ensures needed { OnErr result (self.old.spent ≡ false → Goes pass.now.epoch (option_copied lease.entry) self.old.view.stage self.old.view.own) }
    {
        if self.stage.is_spent() {
            return Err(Memory);
        }
        match self.stop(pass, lease) {
            Some(answer) => Ok(answer),
            None => {
                let reply = self.carry_out(lease, call, verdict)?;
                Ok(Answer::Done {
                    place: self.count,
                    reply,
                })
            }
        }
    }

    /// The instance for whose owner a stateid stands in the state that is here. `BAD_STATEID` exactly where it can't be resolved there,
    /// or the state isn't here (RFC 7530, 9.1.4).
    #[tactic(auto, unfolding(crate::specs::Answers::resolve_answer))]
    pub fn resolve(&self, pass: &FsPass, state: StateId) -> Result<Instance, OpStatus>
        ensures { result ≡ resolve_answer self.now.view state }
    {
        let _any_epoch = pass;
        match &self.stage {
            Stage::Away(_) => Err(OpStatus::BadStateId),
            Stage::Here { state: its, .. } => its.holder_of(state),
        }
    }
}
