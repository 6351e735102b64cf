//! The destination of a move.
ghost use Rattle.std.specs.Prelude.{◌≡◌, ◌≤◌, [], max, IfOk, OnOk, OnErr, Some, false};
ghost use Rattle.std.specs.Vec.{vec_capacity};
ghost use Rattle.nm_slot.specs.Answers.{accept_answer, install_answer, install_ends, withdraw_answer, is_offer_of};
ghost use Rattle.nm_slot.specs.Eras.{ends_brought, after_ends};
ghost use Rattle.nm_slot.specs.Kept.{rows_in};
ghost use Rattle.nm_slot.specs.Changes.{slot_after};
ghost use Rattle.nm_slot.specs.Images.{offer_of, MayBeOffered};
ghost use Rattle.nm_slot.specs.SlotNow.Stage.{Away};
ghost use Rattle.nm_slot.specs.SlotNow.SlotStep.{Accepting, Installing, Withdrawing};
ghost use Rattle.nm_slot.specs.declared.answers.Accept.TheVariants.{Held as HeldNow};

use crate::eras::{EraRow, keep_swept, note_all};
use crate::stage::{Doing, Stage, end_all, list_holders};
use crate::{Accept, Image, Install, Slot};
use nm_state::FsState;
use nm_types::{Instance, LeasePass, Memory, MoveNum};
use std::mem;

// The greater one.
fn greater(a: MoveNum, b: MoveNum) -> MoveNum
    ensures { result ≡ max a b }
{
    MoveNum::new(a.number().max(b.number()))
}

// Ends what those have in a state of whom the era of their lease, or a later one, has ended here. It lists them, in a list that has
// room for all holders.
#[tactic(auto, unfolding(crate::specs::Eras::ends_brought))]
fn end_brought(
    state: &mut FsState,
    room: Vec<Instance>,
    passes: &[LeasePass],
    eras: &[EraRow],
) -> Vec<Instance>
    requires empty { room.items ≡ [] }
    requires fits { rows_in state.old.seen ≤ vec_capacity room }
    ensures ends { result.items ≡ ends_brought passes.now eras.now state.old.seen }
    ensures seen { state.new.seen ≡ after_ends (ends_brought passes.now eras.now state.old.seen) state.old.seen }
    ensures spent { state.new.spent ≡ state.old.spent }
    ensures capacity { vec_capacity room ≤ vec_capacity result }
{
    let mut due = list_holders(state, room);
    keep_swept(&mut due, passes, eras);
    end_all(state, &due);
    due
}

impl Image {
    /// The same image once more.
    pub fn copy(&self) -> Result<Image, Memory>
        ensures value { IfOk result (λ image. image ≡ self.now) }
        ensures unspent { IfOk result (λ image. image.state.spent ≡ false) }
    {
        Ok(Image {
            state: self.state.copy()?,
            fs: self.fs,
            count: self.count,
            epoch: self.epoch,
            number: self.number,
        })
    }
}

impl Slot {
    // The offer of that move is held.
    fn holds(&self, number: MoveNum) -> bool
        ensures { result ≡ is_offer_of number self.now.view.own.held }
    {
        match &self.stage {
            Stage::Away(held) => match held {
                Some(image) => image.number == number,
                None => false,
            },
            Stage::Here { .. } => false,
        }
    }

    // What an offer is answered.
    #[tactic(auto, unfolding(crate::specs::Answers::accept_answer))]
    fn accepted(&self, number: MoveNum) -> Accept
        ensures { result ≡ accept_answer self.now.view number }
    {
        if self.holds(number) {
            return Accept::Held;
        }
        if number <= self.known {
            return Accept::Old { known: self.known };
        }
        match &self.stage {
            Stage::Away(_) => Accept::Held,
            Stage::Here { .. } => Accept::Live,
        }
    }

    // Holds an offer with the leases of its holders, in the place of one that was held.
    fn hold(&mut self, image: &Image, passes: &[LeasePass]) -> Result<(), Memory>
        requires offered { MayBeOffered self.old.view.fs image.now }
        requires away { self.old.view.stage ≡ Away }
        ensures ok { OnOk result (self.new ≡ record self.old {
          view = record self.old.view {
            own = record self.old.view.own {
              held = Some (offer_of image.now);
              brought = passes.now;
              known = image.now.number;
            };
          };
        }) }
        ensures err { OnErr result (self.new ≡ self.old) }
    {
        let offer = image.copy()?;
        let brought = Vec::from_slice(self.alloc, passes)?;
        self.room.reserve(image.state.rows())?;
        self.eras.reserve(brought.len())?;
        self.stage = Stage::Away(Some(offer));
        self.brought = brought;
        self.known = image.number;
        Ok(())
    }

    /// Holds an offer, a copy of it, where no move of its number or a greater one is known here and the file system itself
    /// isn't here. With it come the leases that this server's roll reserved for its holders; a holder of several counts with the
    /// latest era among them, one of none with era 0. Memory is wanted only for the copy.
    #[tactic(auto, unfolding(crate::specs::Answers::accept_answer, crate::specs::Changes::slot_after))]
    pub fn accept(&mut self, image: &Image, passes: &[LeasePass]) -> Result<Accept, Memory>
        requires offered { MayBeOffered self.old.view.fs image.now }
        ensures answer { IfOk result (λ a. a ≡ accept_answer self.old.view image.now.number) }
        ensures after { IfOk result (λ a. self.new.view ≡ slot_after self.old.view (Accepting (offer_of image.now) passes.now a)) }
        ensures spent { self.new.spent ≡ self.old.spent }
        ensures err { OnErr result (self.new ≡ self.old) }
        ensures needed { OnErr result ((accept_answer self.old.view image.now.number ≡ HeldNow) × (is_offer_of image.now.number self.old.view.own.held ≡ false)) }
    {
        let answer = self.accepted(image.number);
        match answer {
            Accept::Held => {
                if !self.holds(image.number) {
                    self.hold(image, passes)?;
                }
            }
            Accept::Old { .. } | Accept::Live => {}
        }
        Ok(answer)
    }

    /// Installs an offer that is held: from now on the file system is served here. What those had in it ends at once of whom the era of
    /// their lease, or a later one, has ended here. It takes no memory.
    #[tactic(auto, unfolding(crate::specs::Answers::install_answer, crate::specs::Answers::install_ends, crate::specs::Changes::slot_after))]
    pub fn install(&mut self, number: MoveNum) -> Install
        ensures answer { result ≡ install_answer self.old.view number }
        ensures after { self.new.view ≡ slot_after self.old.view (Installing number (install_ends self.old.view) result) }
        ensures spent { self.new.spent ≡ self.old.spent }
    {
        match self.stage.take_offer(number) {
            Some(image) => {
                let (epoch, count) = (image.epoch, image.count);
                let mut state = image.into_state();
                let room = mem::replace(&mut self.room, Vec::new(self.alloc));
                let mut ended = end_brought(&mut state, room, &self.brought, &self.eras);
                note_all(&mut self.eras, &self.brought);
                self.brought.clear();
                self.installed = number;
                self.epoch = epoch;
                self.count = count + ended.len() as u64;
                ended.clear();
                self.room = ended;
                self.stage = Stage::Here {
                    doing: Doing::Serves,
                    state,
                };
                Install::Now
            }
            None => {
                if number <= self.installed {
                    Install::Already
                } else {
                    Install::Absent
                }
            }
        }
    }

    /// A move was given up: its offer goes, where it is held, and that number is known from now on. It answers whether the
    /// offer was held.
    #[tactic(auto, unfolding(crate::specs::Answers::withdraw_answer, crate::specs::Changes::slot_after))]
    pub fn withdraw(&mut self, number: MoveNum) -> bool
        ensures answer { result ≡ withdraw_answer self.old.view number }
        ensures after { self.new.view ≡ slot_after self.old.view (Withdrawing number result) }
        ensures spent { self.new.spent ≡ self.old.spent }
    {
        let offer = self.stage.take_offer(number);
        self.known = greater(self.known, number);
        if offer.is_none() {
            return false;
        }
        self.brought.clear();
        true
    }
}
