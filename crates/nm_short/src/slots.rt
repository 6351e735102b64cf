//! What each server has of a file system.
ghost use Rattle.std.specs.Prelude.{◌≡◌, [], None, false, map, replicate, IfOk, IfSome, option_map};
ghost use Rattle.nm_types.specs.declared.calls.Verdict.TheVariants.{Pass};
ghost use Rattle.nm_slot.specs.Answers.{enter_answer, apply_answer, begin_answer, freeze_answer, image_answer, commit_answer, abandon_answer, abandon_ends, accept_answer, install_answer, install_ends};
ghost use Rattle.nm_slot.specs.Images.{offer_of, MayBeOffered};
ghost use Rattle.nm_slot.specs.Shown.{table_answer};
ghost use Rattle.nm_slot.specs.SlotNow.{phase_of, handed_over};
ghost use Rattle.nm_slot.specs.SlotNow.SlotStep.{Entering, Leaving, Applying, Beginning, Freezing, Committing, Abandoning, Accepting, Installing};
ghost use Rattle.nm_short.specs.Slots.{view_of, slot_at, slots_after};
ghost use Rattle.nm_short.specs.Tables.{no_part, first_slot, first_slots};

use nm_slot::{
    Abandon, Accept, Answer, Begin, Commit, Enter, Freeze, FsPass, Image, Install, Phase, Slot,
};
use nm_state::FsState;
use nm_types::{Call, Epoch, FsNum, HeldTable, Memory, MoveNum, ServerNum, Verdict};
use std::alloc::Global;
use std::marker::Model;

/// A file system's slot at each server. A server without one had no part in it, and what is asked of it changes nothing.
pub struct Slots {
    fs: FsNum,
    list: Vec<Slot>,
}

impl Drop for Slots {
    fn drop(self) {
        let Slots { fs: _, list: _ } = self;
    }
}

impl Model for Slots {
    ghost use Rattle.nm_short.specs.Slots.{SlotsNow};

    ghost Value = { SlotsNow };

    ghost use Rattle.std.specs.Prelude.{map};
    ghost use Rattle.nm_short.specs.Slots.{view_of, AreOf};

    ghost view = { λ s. record { fs = s.fs; views = map view_of s.list.items } };

    ghost invariant = { λ s. AreOf s.fs s.list.items };
}

// The slots of so many servers that had no part in it.
fn no_parts(alloc: Global, fs: FsNum, servers: usize) -> Result<Vec<Slot>, Memory>
    ensures { IfOk result (λ list. map view_of list.items ≡ replicate servers (no_part fs)) }
{
    let mut list = Vec::new(alloc);
    for _count in 0..servers {
        list.push(Slot::new(alloc, fs, None)?)?;
    }
    Ok(list)
}

// The slot of a server that serves it, before the first call.
fn serving(alloc: Global, fs: FsNum) -> Result<Slot, Memory>
    ensures { IfOk result (λ slot. slot ≡ record { view = first_slot fs; spent = false }) }
{
    let state = FsState::new(alloc, fs, false)?;
    Ok(Slot::new(alloc, fs, Some(state))?)
}

// What an offer is answered where there is no slot.
#[tactic(auto, unfolding(nm_slot::specs::Answers::accept_answer))]
fn accepted_nowhere(fs: FsNum, number: MoveNum) -> Accept
    ensures { result ≡ accept_answer (no_part fs) number }
{
    if number.number() == 0 {
        return Accept::Old {
            known: MoveNum::new(0),
        };
    }
    Accept::Held
}

// What an install is answered where there is no slot.
#[tactic(auto, unfolding(nm_slot::specs::Answers::install_answer))]
fn installed_nowhere(fs: FsNum, number: MoveNum) -> Install
    ensures { result ≡ install_answer (no_part fs) number }
{
    if number.number() == 0 {
        return Install::Already;
    }
    Install::Absent
}

impl Slots {
    /// The slots of so many servers, of which one serves it.
    pub fn new(alloc: Global, fs: FsNum, servers: usize, at: ServerNum) -> Result<Slots, Memory>
        ensures { IfOk result (λ slots. slots ≡ record { fs = fs; views = first_slots servers fs at }) }
    {
        let mut list = no_parts(alloc, fs, servers)?;
        let place = at.number() as usize;
        if place >= list.len() {
            return Ok(Slots { fs, list });
        }
        list[place] = serving(alloc, fs)?;
        Ok(Slots { fs, list })
    }

    /// Asks the door of a server for a pass.
    #[tactic(auto, using(crate::proofs::SlotLemmas::of_slots, crate::proofs::SlotLemmas::enter_past))]
    pub fn enter(&mut self, server: ServerNum) -> Enter
        ensures answer { result ≡ enter_answer (slot_at self.old server) }
        ensures after { self.new ≡ slots_after self.old server (Entering result) }
    {
        let at = server.number() as usize;
        if at >= self.list.len() {
            return Enter::Unknown;
        }
        self.list[at].enter()
    }

    /// Gives a pass back to a server.
    #[tactic(auto, using(crate::proofs::SlotLemmas::of_slots))]
    pub fn leave(&mut self, server: ServerNum, pass: FsPass)
        ensures { self.new ≡ slots_after self.old server (Leaving pass.epoch) }
    {
        let at = server.number() as usize;
        if at < self.list.len() {
            self.list[at].leave(pass);
        }
    }

    /// Makes a call at a server with a pass. After want of memory nothing is promised of what the servers have.
    #[tactic(auto, using(crate::proofs::SlotLemmas::of_slots, crate::proofs::SlotLemmas::apply_past), unfolding(nm_slot::specs::Answers::apply_ends))]
    pub fn apply(&mut self, server: ServerNum, pass: &FsPass, call: &Call) -> Result<Answer, Memory>
        ensures answer { IfOk result (λ a. a ≡ apply_answer (slot_at self.old server) pass.now.epoch None call.now Pass) }
        ensures after { IfOk result (λ a. self.new ≡ slots_after self.old server (Applying pass.now.epoch None call.now Pass [] a)) }
        ensures fs { self.new.fs ≡ self.old.fs }
    {
        let at = server.number() as usize;
        if at >= self.list.len() {
            return Ok(Answer::Strayed {
                pass_epoch: pass.epoch(),
                slot_epoch: Epoch::new(0),
            });
        }
        Ok(self.list[at].apply(pass, None, call, Verdict::Pass)?)
    }

    /// A server begins a move to `dest`.
    #[tactic(auto, using(crate::proofs::SlotLemmas::of_slots, crate::proofs::SlotLemmas::begin_past))]
    pub fn begin(&mut self, server: ServerNum, dest: ServerNum) -> Begin
        ensures answer { result ≡ begin_answer (slot_at self.old server) server dest }
        ensures after { self.new ≡ slots_after self.old server (Beginning server dest result) }
    {
        let at = server.number() as usize;
        if at >= self.list.len() {
            return Begin::NotServed;
        }
        self.list[at].begin(server, dest)
    }

    /// A server freezes the file system for the move under way there.
    #[tactic(auto, using(crate::proofs::SlotLemmas::of_slots, crate::proofs::SlotLemmas::freeze_past))]
    pub fn freeze(&mut self, server: ServerNum) -> Freeze
        ensures answer { result ≡ freeze_answer (slot_at self.old server) }
        ensures after { self.new ≡ slots_after self.old server (Freezing result) }
    {
        let at = server.number() as usize;
        if at >= self.list.len() {
            return Freeze::Idle;
        }
        self.list[at].freeze()
    }

    /// A server gives the move up that is under way there. `Memory` where its state is spent.
    #[tactic(auto, using(crate::proofs::SlotLemmas::of_slots, crate::proofs::SlotLemmas::abandon_past))]
    pub fn abandon(&mut self, server: ServerNum) -> Result<Abandon, Memory>
        ensures answer { IfOk result (λ a. a ≡ abandon_answer (slot_at self.old server)) }
        ensures after { IfOk result (λ a. self.new ≡ slots_after self.old server (Abandoning (abandon_ends (slot_at self.old server)) a)) }
        ensures fs { self.new.fs ≡ self.old.fs }
    {
        let at = server.number() as usize;
        if at >= self.list.len() {
            return Ok(Abandon::Idle);
        }
        let slot = &mut self.list[at];
        if slot.is_spent() {
            return Err(Memory);
        }
        Ok(slot.abandon())
    }

    /// A server hands the file system over by the move of that number. `Memory` where its state is spent.
    #[tactic(auto, using(crate::proofs::SlotLemmas::of_slots, crate::proofs::SlotLemmas::commit_past))]
    pub fn commit(&mut self, server: ServerNum, number: MoveNum) -> Result<Commit, Memory>
        ensures answer { IfOk result (λ a. handed_over a ≡ commit_answer (slot_at self.old server) number) }
        ensures after { IfOk result (λ a. self.new ≡ slots_after self.old server (Committing number (handed_over a))) }
        ensures fs { self.new.fs ≡ self.old.fs }
    {
        let at = server.number() as usize;
        if at >= self.list.len() {
            return Ok(Commit::Dead {
                current: MoveNum::new(0),
            });
        }
        let slot = &mut self.list[at];
        if slot.is_spent() {
            return Err(Memory);
        }
        Ok(slot.commit(number))
    }

    /// An offer comes to a server, which holds a copy of it. `Memory` where an allocation failed or its state is spent; then
    /// nothing is promised of what the servers have.
    #[tactic(auto, using(crate::proofs::SlotLemmas::of_slots))]
    pub fn accept(&mut self, server: ServerNum, image: &Image) -> Result<Accept, Memory>
        requires { MayBeOffered self.old.fs image.now }
        ensures answer { IfOk result (λ a. a ≡ accept_answer (slot_at self.old server) image.now.number) }
        ensures after { IfOk result (λ a. self.new ≡ slots_after self.old server (Accepting (offer_of image.now) [] a)) }
        ensures fs { self.new.fs ≡ self.old.fs }
    {
        let at = server.number() as usize;
        if at >= self.list.len() {
            return Ok(accepted_nowhere(self.fs, image.number));
        }
        let slot = &mut self.list[at];
        if slot.is_spent() {
            return Err(Memory);
        }
        Ok(slot.accept(image, &[])?)
    }

    /// A server installs the offer of the move of that number, where it holds it.
    #[tactic(auto, using(crate::proofs::SlotLemmas::of_slots))]
    pub fn install(&mut self, server: ServerNum, number: MoveNum) -> Install
        ensures answer { result ≡ install_answer (slot_at self.old server) number }
        ensures after { self.new ≡ slots_after self.old server (Installing number (install_ends (slot_at self.old server)) result) }
    {
        let at = server.number() as usize;
        if at >= self.list.len() {
            return installed_nowhere(self.fs, number);
        }
        self.list[at].install(number)
    }

    /// What a server does with the file system.
    #[tactic(auto, using(crate::proofs::SlotLemmas::of_slots, crate::proofs::SlotLemmas::phase_past))]
    pub fn phase(&self, server: ServerNum) -> Phase
        ensures { result ≡ phase_of (slot_at self.now server) }
    {
        match self.list.get(server.number() as usize) {
            Some(slot) => slot.phase(),
            None => Phase::Never,
        }
    }

    /// The greatest move number that a server knows.
    #[tactic(auto, using(crate::proofs::SlotLemmas::of_slots))]
    pub fn known(&self, server: ServerNum) -> MoveNum
        ensures { result ≡ (slot_at self.now server).own.known }
    {
        match self.list.get(server.number() as usize) {
            Some(slot) => slot.known(),
            None => MoveNum::new(0),
        }
    }

    /// A copy of what is on offer at a server. `Memory` where an allocation failed or its state is spent.
    #[tactic(auto, using(crate::proofs::SlotLemmas::of_slots, crate::proofs::SlotLemmas::image_past))]
    pub fn image(&self, server: ServerNum) -> Result<Option<Image>, Memory>
        ensures value { IfOk result (λ image. option_map offer_of image ≡ image_answer (slot_at self.now server)) }
        ensures fits { IfOk result (λ image. IfSome image (MayBeOffered self.now.fs)) }
    {
        let at = server.number() as usize;
        if at >= self.list.len() {
            return Ok(None);
        }
        let slot = &self.list[at];
        if slot.is_spent() {
            return Err(Memory);
        }
        Ok(slot.image()?)
    }

    /// What is held in the state that a server has or holds.
    #[tactic(auto, using(crate::proofs::SlotLemmas::of_slots, crate::proofs::SlotLemmas::table_past))]
    pub fn table(&self, server: ServerNum) -> Result<Option<HeldTable>, Memory>
        ensures { IfOk result (λ table. table ≡ table_answer (slot_at self.now server)) }
    {
        match self.list.get(server.number() as usize) {
            Some(slot) => Ok(slot.table()?),
            None => Ok(None),
        }
    }

    /// The file system.
    pub fn fs(&self) -> FsNum
        ensures { result ≡ self.now.fs }
    {
        self.fs
    }
}
