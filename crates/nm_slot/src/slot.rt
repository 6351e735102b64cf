//! A file system at one server.
ghost use Rattle.std.specs.Prelude.{◌≡◌, option_map, IfOk, IfSome, IsSome, OnErr, false};
ghost use Rattle.nm_slot.specs.Images.{offer_of};
ghost use Rattle.nm_slot.specs.Kept.{doing_of, first_slot};
ghost use Rattle.nm_slot.specs.Shown.{table_answer};
ghost use Rattle.nm_slot.specs.SlotNow.{phase_of, phase_away, phase_here};

use crate::eras::EraRow;
use crate::stage::{Doing, Left, Stage};
use crate::{Image, Phase};
use nm_state::FsState;
use nm_types::{Epoch, FsNum, HeldTable, Instance, LeasePass, Memory, MoveNum};
use std::alloc::Global;
use std::marker::Model;

/// A file system at one server: its state where this server has it, or an offer of it, and what the server remembers of
/// the moves so far.
pub struct Slot {
    pub(crate) alloc: Global,
    pub(crate) fs: FsNum,
    pub(crate) stage: Stage,
    pub(crate) left: Option<Left>,
    pub(crate) known: MoveNum,
    pub(crate) installed: MoveNum,
    pub(crate) epoch: Epoch,
    pub(crate) count: u64,
    pub(crate) passes: u64,
    /// Nothing, with room for the holders of the state that is here or held.
    pub(crate) room: Vec<Instance>,
    /// In which eras instances were seen, with room for those that came with the offer.
    pub(crate) eras: Vec<EraRow>,
    /// The leases that came with the offer.
    pub(crate) brought: Vec<LeasePass>,
}

impl Drop for Slot {
    fn drop(self) {
        let Slot {
            alloc: _,
            fs: _,
            stage: _,
            left: _,
            known: _,
            installed: _,
            epoch: _,
            count: _,
            passes: _,
            room: _,
            eras: _,
            brought: _,
        } = self;
    }
}

impl Model for Slot {
    ghost use Rattle.nm_slot.specs.SlotNow.{SlotNow};

    ghost Value = { SlotNow };

    ghost use Rattle.std.specs.Prelude.{length, vec_capacity};
    ghost use Rattle.nm_slot.specs.Kept.{stage_of, held_of, spent_of, IsKept, HasRoom};

    ghost view = { λ s. record {
      view = record {
        fs = s.fs;
        stage = stage_of s.stage;
        own = record {
          held = held_of s.stage;
          brought = s.brought.items;
          left = s.left;
          known = s.known;
          installed = s.installed;
          epoch = s.epoch;
          count = s.count;
          out = s.passes;
          eras = s.eras.items;
        };
      };
      spent = spent_of s.stage;
    } };

    ghost invariant = { λ s. IsKept s.fs s.epoch s.count s.passes (vec_capacity s.room) s.room.items s.stage
        × HasRoom (length s.eras.items) (length s.brought.items) (vec_capacity s.eras) };
}

// What a server does that has no state.
fn phase_away(held: &Option<Image>, left: Option<Left>, epoch: Epoch) -> Phase
    ensures { result ≡ phase_away (option_map offer_of held.now) left epoch }
{
    match held {
        Some(image) => Phase::Incoming {
            epoch: image.epoch,
            number: image.number,
        },
        None => match left {
            Some(left) => Phase::Gone {
                dest: left.dest,
                epoch,
            },
            None => Phase::Never,
        },
    }
}

// What a server does with its state.
fn phase_here(doing: Doing) -> Phase
    ensures { result ≡ phase_here (doing_of doing) }
{
    match doing {
        Doing::Serves => Phase::Serving,
        Doing::Closes { dest, number } => Phase::Closing { dest, number },
        Doing::Froze { dest, number } => Phase::Frozen { dest, number },
    }
}

impl Slot {
    /// The slot of a file system at a server. With a state, which has to be that of this file system, the server serves
    /// it; without one it was never here.
    pub fn new(alloc: Global, fs: FsNum, serving: Option<FsState>) -> Result<Slot, Memory>
        requires { IfSome serving (λ state. state.seen.fs ≡ fs) }
        ensures { IfOk result (λ slot. slot ≡ first_slot fs serving) }
    {
        let mut room = Vec::new(alloc);
        let stage = match serving {
            Some(state) => {
                room.reserve(state.rows())?;
                Stage::Here {
                    doing: Doing::Serves,
                    state,
                }
            }
            None => Stage::Away(None),
        };
        Ok(Slot {
            alloc,
            fs,
            stage,
            left: None,
            known: MoveNum::new(0),
            installed: MoveNum::new(0),
            epoch: Epoch::new(0),
            count: 0,
            passes: 0,
            room,
            eras: Vec::new(alloc),
            brought: Vec::new(alloc),
        })
    }

    /// What the server does with the file system.
    #[tactic(auto, unfolding(crate::specs::SlotNow::phase_of))]
    pub fn phase(&self) -> Phase
        ensures { result ≡ phase_of self.now.view }
    {
        match &self.stage {
            Stage::Away(held) => phase_away(held, self.left, self.epoch),
            Stage::Here { doing, .. } => phase_here(*doing),
        }
    }

    /// The file system.
    pub fn fs(&self) -> FsNum
        ensures { result ≡ self.now.view.fs }
    {
        self.fs
    }

    /// How many entries the file system had when this server last had its state.
    pub fn count(&self) -> u64
        ensures { result ≡ self.now.view.own.count }
    {
        self.count
    }

    /// The greatest move number that this server began, accepted or was told to withdraw, 0 before the first.
    pub fn known(&self) -> MoveNum
        ensures { result ≡ self.now.view.own.known }
    {
        self.known
    }

    /// The latest epoch in which this server had the state, 0 where there is none.
    pub fn epoch(&self) -> Epoch
        ensures { result ≡ self.now.view.own.epoch }
    {
        self.epoch
    }

    /// What is held, by rising counter of the stateid: in the state that is here, else in the one on offer. `None` exactly
    /// where there is neither.
    #[tactic(auto, unfolding(crate::specs::Shown::table_answer))]
    pub fn table(&self) -> Result<Option<HeldTable>, Memory>
        ensures table { IfOk result (λ table. table ≡ table_answer self.now.view) }
        ensures unspent { IfOk result (λ table. self.now.spent ≡ false) }
        ensures needed { OnErr result (IsSome (table_answer self.now.view)) }
    {
        match &self.stage {
            Stage::Here { state, .. } => Ok(Some(state.table()?)),
            Stage::Away(held) => match held {
                Some(image) => Ok(Some(image.state.table()?)),
                None => Ok(None),
            },
        }
    }

    /// Whether memory was wanting in the middle of a call, so that the state that is here answers want of memory alone.
    pub fn is_spent(&self) -> bool
        ensures { result ≡ self.now.spent }
    {
        self.stage.is_spent()
    }
}
