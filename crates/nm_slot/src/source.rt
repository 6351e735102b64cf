//! The source of a move.
ghost use Rattle.std.specs.Prelude.{◌≡◌, ◌≤◌, ◌<◌, ◌^◌, ◌+◌, length, true, false, None, Some, IfOk, IfSome, IsSome, OnOk, OnErr, option_map};
ghost use Rattle.nm_slot.specs.Answers.{begin_answer, freeze_answer, image_answer, commit_answer, abandon_answer, abandon_ends, is_at_end, committed_away, offered};
ghost use Rattle.nm_slot.specs.Changes.{slot_after, stage_ended};
ghost use Rattle.nm_slot.specs.Images.{offer_of, image_of, MayBeOffered};
ghost use Rattle.nm_slot.specs.Kept.{MayBegin, is_serving, refused_at, holders_at, spent_after};
ghost use Rattle.nm_slot.specs.SlotNow.{handed_over};
ghost use Rattle.nm_slot.specs.SlotNow.Stage.{Away};
ghost use Rattle.nm_slot.specs.SlotNow.SlotStep.{Beginning, Freezing, Committing, Abandoning};

use crate::stage::{Doing, Left, Stage};
use crate::{Abandon, Begin, Commit, Freeze, Image, Slot};
use nm_types::{Epoch, Instance, Memory, MoveNum, ServerNum};
use std::mem;

/// Move numbers, epochs and counts of entries end here.
const LAST: u64 = 1 << 63;

impl Slot {
    // A number of the file system has no successor.
    fn is_at_end(&self) -> bool
        ensures value { result ≡ is_at_end self.now.view.own }
        ensures known { result ≡ false → self.now.view.own.known < 2 ^ 63 }
        ensures epoch { result ≡ false → self.now.view.own.epoch < 2 ^ 63 }
        ensures count { result ≡ false → self.now.view.own.count ≤ 2 ^ 63 }
    {
        self.known.number() >= LAST || self.epoch.number() >= LAST || self.count > LAST
    }

    // What beginning a move is answered.
    #[tactic(auto, unfolding(crate::specs::Answers::begin_answer))]
    fn begun(&self, here: ServerNum, dest: ServerNum) -> Begin
        ensures value { result ≡ begin_answer self.now.view here dest }
        ensures numbered { MayBegin self.now.view.own.epoch self.now.view.own.count result }
    {
        match &self.stage {
            Stage::Away(_) => Begin::NotServed,
            Stage::Here { doing, .. } => match *doing {
                Doing::Closes { number, .. } | Doing::Froze { number, .. } => {
                    Begin::Busy { number }
                }
                Doing::Serves => {
                    if here == dest {
                        return Begin::Same;
                    }
                    if self.is_at_end() {
                        return Begin::Last;
                    }
                    Begin::Begun(MoveNum::new(self.known.number() + 1))
                }
            },
        }
    }

    /// Begins a move from `here`, this server, to `dest`. From now on nobody is let in.
    #[tactic(auto, unfolding(crate::specs::Changes::slot_after))]
    pub fn begin(&mut self, here: ServerNum, dest: ServerNum) -> Begin
        ensures answer { result ≡ begin_answer self.old.view here dest }
        ensures after { self.new.view ≡ slot_after self.old.view (Beginning here dest result) }
        ensures spent { self.new.spent ≡ self.old.spent }
    {
        let answer = self.begun(here, dest);
        match answer {
            Begin::Begun(number) => {
                self.known = number;
                self.stage.turn(Doing::Closes { dest, number });
            }
            Begin::NotServed | Begin::Busy { .. } | Begin::Same | Begin::Last => {}
        }
        answer
    }

    /// Freezes the state for the move under way, once no pass is out.
    #[tactic(auto, unfolding(crate::specs::Answers::freeze_answer, crate::specs::Changes::slot_after))]
    pub fn freeze(&mut self) -> Freeze
        ensures answer { result ≡ freeze_answer self.old.view }
        ensures after { self.new.view ≡ slot_after self.old.view (Freezing result) }
        ensures spent { self.new.spent ≡ self.old.spent }
    {
        self.stage.freeze(self.passes)
    }

    /// What is on offer: a copy of the frozen state, for the next epoch. `None` exactly where it isn't frozen. Memory is wanted
    /// only for the copy, and where the state answers want of memory alone.
    #[tactic(auto, unfolding(crate::specs::Answers::image_answer))]
    pub fn image(&self) -> Result<Option<Image>, Memory>
        ensures value { IfOk result (λ image. image ≡ option_map (image_of self.now.view.fs) (image_answer self.now.view)) }
        ensures fits { IfOk result (λ image. IfSome image (MayBeOffered self.now.view.fs)) }
        ensures unspent { OnOk result (self.now.spent ≡ false) }
        ensures needed { OnErr result (self.now.spent ≡ false → IsSome (image_answer self.now.view)) }
    {
        if self.stage.is_spent() {
            return Err(Memory);
        }
        match &self.stage {
            Stage::Away(_) => Ok(None),
            Stage::Here { doing, state } => match *doing {
                Doing::Serves | Doing::Closes { .. } => Ok(None),
                Doing::Froze { number, .. } => Ok(Some(Image {
                    state: state.copy()?,
                    fs: self.fs,
                    count: self.count,
                    epoch: Epoch::new(self.epoch.number() + 1),
                    number,
                })),
            },
        }
    }

    // What a commit is answered that hands nothing over.
    fn refused(&self, number: MoveNum) -> Commit
        ensures { handed_over result ≡ refused_at number self.now.view.stage self.now.view.own }
    {
        match &self.stage {
            Stage::Away(held) => self.committed_away(held, number),
            Stage::Here { .. } => Commit::Dead {
                current: self.known,
            },
        }
    }

    // The same, where the state isn't here.
    fn committed_away(&self, held: &Option<Image>, number: MoveNum) -> Commit
        ensures { handed_over result ≡ committed_away number (option_map offer_of held.now) self.now.view.own }
    {
        match held {
            Some(_) => Commit::Dead {
                current: self.known,
            },
            None => match self.left {
                Some(left) => {
                    if left.number == number {
                        return Commit::Again;
                    }
                    Commit::Dead {
                        current: self.known,
                    }
                }
                None => Commit::Dead {
                    current: self.known,
                },
            },
        }
    }

    // The state goes to that destination. It lists who holds something in it.
    fn hand_over(&mut self, dest: ServerNum, number: MoveNum) -> Vec<Instance>
        requires free { self.old.view.own.held ≡ None }
        ensures after { self.new ≡ record {
          view = record self.old.view {
            stage = Away;
            own = record self.old.view.own { left = Some (record { dest = dest; number = number }) };
          };
          spent = false;
        } }
        ensures holders { self.old.spent ≡ false → result.items ≡ holders_at self.old.view.stage }
    {
        let room = mem::replace(&mut self.room, Vec::new(self.alloc));
        let stage = mem::replace(&mut self.stage, Stage::Away(None));
        self.left = Some(Left { dest, number });
        stage.list_holders(room)
    }

    /// Hands the frozen state over. It takes no memory. Of a state that answers want of memory alone the list of holders
    /// may be empty.
    #[tactic(auto, unfolding(crate::specs::Answers::commit_answer, crate::specs::Changes::slot_after))]
    pub fn commit(&mut self, number: MoveNum) -> Commit
        ensures answer { self.old.spent ≡ false → handed_over result ≡ commit_answer self.old.view number }
        ensures after { self.new.view ≡ slot_after self.old.view (Committing number (handed_over result)) }
        ensures spent { self.new.spent ≡ spent_after (handed_over result) self.old.spent }
    {
        match self.stage.offers_to(number) {
            Some(dest) => Commit::Committed(self.hand_over(dest, number)),
            None => self.refused(number),
        }
    }

    // Ends what those have in the state that is here whose era ended while it was frozen.
    fn end_late(&mut self)
        requires serving { is_serving self.old.view.stage ≡ true }
        requires count { self.old.view.own.count ≤ 2 ^ 63 }
        ensures after { self.old.spent ≡ false → self.new.view ≡ record self.old.view {
          stage = stage_ended (abandon_ends self.old.view) self.old.view.stage;
          own = record self.old.view.own { count = self.old.view.own.count + length (abandon_ends self.old.view) };
        } }
        ensures spent { self.new.spent ≡ self.old.spent }
    {
        let room = mem::replace(&mut self.room, Vec::new(self.alloc));
        let mut due = self.stage.end_late(room, &self.eras);
        self.count += due.len() as u64;
        due.clear();
        self.room = due;
    }

    /// Gives the move up that is under way: the file system is served here again, and what those had in it ends whose era ended while
    /// it was frozen. It takes no memory.
    #[tactic(auto, unfolding(crate::specs::Answers::abandon_answer, crate::specs::Answers::abandon_ends, crate::specs::Changes::slot_after))]
    pub fn abandon(&mut self) -> Abandon
        ensures answer { result ≡ abandon_answer self.old.view }
        ensures after { self.old.spent ≡ false → self.new.view ≡ slot_after self.old.view (Abandoning (abandon_ends self.old.view) result) }
        ensures spent { self.new.spent ≡ self.old.spent }
    {
        let answer = self.stage.abandon(self.left);
        match answer {
            Abandon::Back(_) => self.end_late(),
            Abandon::Late | Abandon::Idle => {}
        }
        answer
    }
}
