//! A file system: what each server has of it, and what its servers sent one another.
ghost use Rattle.std.specs.Prelude.{◌≡◌, None, IfOk, OnOk, OnErr, option_map, []};
ghost use Rattle.nm_types.specs.declared.calls.Verdict.TheVariants.{Pass};
ghost use Rattle.nm_slot.specs.Answers.{enter_answer, apply_answer, begin_answer, freeze_answer, commit_answer, abandon_answer, abandon_ends, accept_answer, install_answer};
ghost use Rattle.nm_slot.specs.Shown.{table_answer};
ghost use Rattle.nm_slot.specs.SlotNow.{phase_of};
ghost use Rattle.nm_slot.specs.SlotNow.SlotStep.{Entering, Leaving, Applying, Beginning, Freezing, Committing, Abandoning};
ghost use Rattle.nm_short.specs.Files.{handed_of, sent_answer, delivered, installed_in};
ghost use Rattle.nm_short.specs.ShortRun.{phase_shown};
ghost use Rattle.nm_short.specs.Slots.{slot_at, slots_after};
ghost use Rattle.nm_short.specs.Tables.{first_slots, slot_in, stepped, phase_in, offers_in, hands, had_by, shower, shown_table};

use crate::names::show_phase;
use crate::slots::Slots;
use nm_script::{Head, PhaseNow};
use nm_slot::{
    Abandon, Accept, Answer, Begin, Commit, Enter, Freeze, FsPass, Image, Install, Phase,
};
use nm_types::{Call, FsNum, HeldTable, Items, Memory, MoveNum, ServerNum};
use std::alloc::Global;
use std::marker::Model;

/// An offer that was sent.
pub struct SentImage {
    pub source: ServerNum,
    pub dest: ServerNum,
    pub image: Image,
}

impl Drop for SentImage {
    fn drop(self) {
        let SentImage {
            source: _,
            dest: _,
            image: _,
        } = self;
    }
}

/// The move of which word was sent that its source has handed the file system over.
#[derive(Clone, Copy)]
pub struct Handed {
    pub dest: ServerNum,
    pub number: MoveNum,
}

/// A file system.
pub struct FileSlots {
    pub(crate) alloc: Global,
    pub(crate) first: ServerNum,
    pub(crate) slots: Slots,
    /// The server that has it, or handed it over.
    pub(crate) at: ServerNum,
    /// The latest offer that was sent.
    offer: Option<SentImage>,
    pub(crate) handed: Option<Handed>,
}

impl Drop for FileSlots {
    fn drop(self) {
        let FileSlots {
            alloc: _,
            first: _,
            slots: _,
            at: _,
            offer: _,
            handed: _,
        } = self;
    }
}

impl Model for FileSlots {
    ghost use Rattle.nm_short.specs.Tables.{FileTables};

    ghost Value = { FileTables };

    ghost use Rattle.std.specs.Prelude.{option_map};
    ghost use Rattle.nm_short.specs.Files.{sent_of, handed_of, IsOffered};

    ghost view = { λ f. record {
      fs = f.slots.fs;
      first = f.first;
      slots = f.slots.views;
      at = f.at;
      offer = option_map sent_of f.offer;
      handed = option_map handed_of f.handed;
    } };

    ghost invariant = { λ f. IsOffered f.slots.fs f.offer };
}

// Who has the file system after an install.
fn had_by(answer: Install, dest: ServerNum, at: ServerNum) -> ServerNum
    ensures { result ≡ had_by answer dest at }
{
    match answer {
        Install::Now => dest,
        Install::Already | Install::Absent => at,
    }
}

// The source commits, and sends word where it handed the file system over.
fn hand_over(
    slots: &mut Slots,
    before: Option<Handed>,
    source: ServerNum,
    dest: ServerNum,
    number: MoveNum,
) -> Result<Option<Handed>, Memory>
    ensures after { OnOk result (slots.new ≡ slots_after slots.old source (Committing number (commit_answer (slot_at slots.old source) number))) }
    ensures fs { slots.new.fs ≡ slots.old.fs }
    ensures handed { IfOk result (λ handed. option_map handed_of handed ≡ hands (commit_answer (slot_at slots.old source) number) dest number (option_map handed_of before)) }
{
    match slots.commit(source, number)? {
        Commit::Committed(_) | Commit::Again => Ok(Some(Handed { dest, number })),
        Commit::Dead { .. } => Ok(before),
    }
}

impl FileSlots {
    /// A file system that is served at one of so many servers, before the first call.
    pub fn new(alloc: Global, fs: FsNum, servers: usize, at: ServerNum) -> Result<FileSlots, Memory>
        ensures { IfOk result (λ f. f ≡ record { fs = fs; first = at; slots = first_slots servers fs at; at = at; offer = None; handed = None }) }
    {
        Ok(FileSlots {
            alloc,
            first: at,
            slots: Slots::new(alloc, fs, servers, at)?,
            at,
            offer: None,
            handed: None,
        })
    }

    /// The file system's number.
    pub fn fs(&self) -> FsNum
        ensures { result ≡ self.now.fs }
    {
        self.slots.fs()
    }

    /// The server that has it, or handed it over.
    pub fn source(&self) -> ServerNum
        ensures { result ≡ self.now.at }
    {
        self.at
    }

    /// What a server does with it.
    #[tactic(auto, unfolding(crate::specs::Slots::slot_at, crate::specs::Tables::slot_in))]
    pub fn phase_at(&self, server: ServerNum) -> Phase
        ensures { result ≡ phase_of (slot_in self.now server) }
    {
        self.slots.phase(server)
    }

    /// Who has it, as it is shown.
    #[tactic(auto, unfolding(crate::specs::Slots::slot_at, crate::specs::Tables::slot_in, crate::specs::Tables::phase_in))]
    pub fn shown_phase(&self, head: &Head) -> Result<PhaseNow, Memory>
        ensures { IfOk result (λ shown. shown ≡ phase_shown head.now (phase_in self.now)) }
    {
        let phase = self.slots.phase(self.at);
        Ok(show_phase(self.alloc, head, self.at, phase, self.slots.known(self.at))?)
    }

    // The server that shows what is held.
    #[tactic(auto, unfolding(crate::specs::Tables::shower))]
    fn shower(&self, phase: Phase) -> ServerNum
        ensures { result ≡ shower self.now phase }
    {
        match phase {
            Phase::Gone { dest, .. } => dest,
            Phase::Never
            | Phase::Serving
            | Phase::Closing { .. }
            | Phase::Frozen { .. }
            | Phase::Incoming { .. } => self.at,
        }
    }

    // What a server shows of it.
    #[tactic(auto, unfolding(crate::specs::Slots::slot_at, crate::specs::Tables::slot_in))]
    fn table_at(&self, server: ServerNum) -> Result<Option<HeldTable>, Memory>
        ensures { IfOk result (λ table. table ≡ table_answer (slot_in self.now server)) }
    {
        Ok(self.slots.table(server)?)
    }

    /// What is held in it.
    pub fn shown_table(&self) -> Result<HeldTable, Memory>
        ensures { IfOk result (λ table. table ≡ shown_table self.now) }
    {
        let server = self.shower(self.phase_at(self.source()));
        match self.table_at(server)? {
            Some(table) => Ok(table),
            None => Ok(Items::new(self.alloc)),
        }
    }

    /// Asks the door of a server.
    #[tactic(auto, unfolding(crate::specs::Slots::slot_at, crate::specs::Slots::slots_after, crate::specs::Tables::slot_in, crate::specs::Tables::stepped))]
    pub fn enter(&mut self, server: ServerNum) -> Enter
        ensures answer { result ≡ enter_answer (slot_in self.old server) }
        ensures after { self.new ≡ stepped self.old server (Entering result) }
    {
        self.slots.enter(server)
    }

    /// Gives a pass back.
    #[tactic(auto, unfolding(crate::specs::Slots::slot_at, crate::specs::Slots::slots_after, crate::specs::Tables::slot_in, crate::specs::Tables::stepped))]
    pub fn leave(&mut self, server: ServerNum, pass: FsPass)
        ensures { self.new ≡ stepped self.old server (Leaving pass.epoch) }
    {
        self.slots.leave(server, pass);
    }

    /// Makes a call with a pass. After want of memory nothing is promised of the file system.
    #[tactic(auto, unfolding(crate::specs::Slots::slot_at, crate::specs::Slots::slots_after, crate::specs::Tables::slot_in, crate::specs::Tables::stepped))]
    pub fn apply(&mut self, server: ServerNum, pass: &FsPass, call: &Call) -> Result<Answer, Memory>
        ensures answer { IfOk result (λ a. a ≡ apply_answer (slot_in self.old server) pass.now.epoch None call.now Pass) }
        ensures after { IfOk result (λ a. self.new ≡ stepped self.old server (Applying pass.now.epoch None call.now Pass [] a)) }
    {
        Ok(self.slots.apply(server, pass, call)?)
    }

    /// The server that has it begins a move.
    #[tactic(auto, unfolding(crate::specs::Slots::slot_at, crate::specs::Slots::slots_after, crate::specs::Tables::slot_in, crate::specs::Tables::stepped))]
    pub fn begin_at(&mut self, dest: ServerNum) -> Begin
        ensures answer { result ≡ begin_answer (slot_in self.old self.old.at) self.old.at dest }
        ensures after { self.new ≡ stepped self.old self.old.at (Beginning self.old.at dest result) }
    {
        self.slots.begin(self.at, dest)
    }

    /// The server that has it freezes it.
    #[tactic(auto, unfolding(crate::specs::Slots::slot_at, crate::specs::Slots::slots_after, crate::specs::Tables::slot_in, crate::specs::Tables::stepped))]
    pub fn freeze_at(&mut self) -> Freeze
        ensures answer { result ≡ freeze_answer (slot_in self.old self.old.at) }
        ensures after { self.new ≡ stepped self.old self.old.at (Freezing result) }
    {
        self.slots.freeze(self.at)
    }

    /// The server that has it gives the move up. After want of memory nothing is promised of the file system.
    #[tactic(auto, unfolding(crate::specs::Slots::slot_at, crate::specs::Slots::slots_after, crate::specs::Tables::slot_in, crate::specs::Tables::stepped))]
    pub fn abandon_at(&mut self) -> Result<Abandon, Memory>
        ensures answer { IfOk result (λ a. a ≡ abandon_answer (slot_in self.old self.old.at)) }
        ensures after { IfOk result (λ a. self.new ≡ stepped self.old self.old.at (Abandoning (abandon_ends (slot_in self.old self.old.at)) a)) }
    {
        Ok(self.slots.abandon(self.at)?)
    }

    /// Sends the offer of a frozen state. After want of memory the file system is as it was.
    #[tactic(auto, unfolding(crate::specs::Slots::slot_at, crate::specs::Tables::slot_in, crate::specs::Tables::offers_in))]
    pub fn send_offer(&mut self) -> Result<(), Memory>
        ensures after { OnOk result (self.new ≡ offers_in self.old) }
        ensures err { OnErr result (self.new ≡ self.old) }
    {
        let source = self.at;
        if let Phase::Frozen { dest, .. } = self.slots.phase(source) {
            if let Some(image) = self.slots.image(source)? {
                self.offer = Some(SentImage {
                    source,
                    dest,
                    image,
                });
            }
        }
        Ok(())
    }

    /// The latest offer reaches its destination, and the answer its source. `None` where none was sent.
    #[tactic(auto, unfolding(crate::specs::Slots::slot_at, crate::specs::Slots::slots_after, crate::specs::Tables::slot_in, crate::specs::Tables::stepped, crate::specs::Tables::commits_in, crate::specs::Files::sent_answer, crate::specs::Files::delivered))]
    pub fn deliver(&mut self) -> Result<Option<Accept>, Memory>
        ensures answer { IfOk result (λ a. a ≡ sent_answer self.old self.old.offer) }
        ensures after { OnOk result (self.new ≡ delivered self.old self.old.offer) }
    {
        let Some(sent) = &self.offer else {
            return Ok(None);
        };
        let answer = self.slots.accept(sent.dest, &sent.image)?;
        match answer {
            Accept::Held => {
                let number = sent.image.number;
                self.handed = hand_over(
                    &mut self.slots,
                    self.handed,
                    sent.source,
                    sent.dest,
                    number,
                )?;
                Ok(Some(Accept::Held))
            }
            Accept::Old { .. } | Accept::Live => Ok(Some(answer)),
        }
    }

    /// The word of a move reaches its destination, which installs what it holds.
    #[tactic(auto, unfolding(crate::specs::Slots::slot_at, crate::specs::Slots::slots_after, crate::specs::Tables::slot_in, crate::specs::Tables::stepped, crate::specs::Files::installed_in))]
    pub fn install(&mut self, handed: Handed)
        ensures { self.new ≡ installed_in self.old (handed_of handed) }
    {
        let answer = self.slots.install(handed.dest, handed.number);
        self.at = had_by(answer, handed.dest, self.at);
    }
}
