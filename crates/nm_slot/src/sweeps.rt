//! What the end of an instance's era at a server does to a file system there.
ghost use Rattle.std.specs.Prelude.{◌≡◌, ◌<◌, ◌+◌, ◌-◌, ◌^◌, false, length, IfOk, OnOk, OnErr, option_map};
ghost use Rattle.nm_slot.specs.Answers.{sweep_answer, sweep_ends, swept_at, swept_held, put_off_if, is_past, has_here};
ghost use Rattle.nm_slot.specs.Changes.{slot_after, stage_ended};
ghost use Rattle.nm_slot.specs.Eras.{one_if, marked};
ghost use Rattle.nm_slot.specs.Images.{offer_of};
ghost use Rattle.nm_slot.specs.Kept.{IsRoomy};
ghost use Rattle.nm_slot.specs.SlotNow.SlotStep.{Sweeping};

use crate::eras::{mark, reserve, row_of};
use crate::stage::{Doing, Stage};
use crate::{Image, Slot, Swept};
use nm_types::{Ended, Instance, Memory};

// What the end of rows in a state that isn't served is answered, by whether there are any.
fn put_off_if(has: bool) -> Swept
    ensures { result ≡ put_off_if has }
{
    if has { Swept::PutOff } else { Swept::Nothing }
}

// What the end of an instance is answered where the state isn't here.
fn swept_held(held: &Option<Image>, instance: &Instance) -> Swept
    ensures { result ≡ swept_held instance.now (option_map offer_of held.now) }
{
    match held {
        Some(image) => put_off_if(image.state.has(instance)),
        None => Swept::Nothing,
    }
}

impl Slot {
    // What the end of the latest era of an instance is answered.
    fn swept_at(&self, instance: &Instance) -> Swept
        ensures value { result ≡ swept_at instance.now self.now.view.stage self.now.view.own }
        ensures room { IsRoomy result self.now.view.own.count }
    {
        match &self.stage {
            Stage::Away(held) => swept_held(held, instance),
            Stage::Here { doing, state } => match *doing {
                Doing::Froze { .. } => put_off_if(state.has(instance)),
                Doing::Serves | Doing::Closes { .. } => {
                    if self.is_full() {
                        return Swept::Last;
                    }
                    Swept::Ended
                }
            },
        }
    }

    // A later era of the instance was seen here.
    fn is_past(&self, ended: &Ended) -> bool
        ensures { result ≡ is_past ended.now.instance ended.now.era self.now.view.own }
    {
        ended.era < row_of(&self.eras, &ended.instance).era
    }

    // Notes that an era of an instance has ended.
    fn note_end(&mut self, ended: &Ended) -> Result<(), Memory>
        ensures ok { OnOk result (self.new ≡ record self.old {
          view = record self.old.view { own = record self.old.view.own { eras = marked ended.now.instance ended.now.era self.old.view.own.eras } };
        }) }
        ensures err { OnErr result (self.new ≡ self.old) }
    {
        reserve(&mut self.eras, self.brought.len())?;
        mark(&mut self.eras, &ended.instance, ended.era);
        Ok(())
    }

    // Notes that an era of an instance has ended, and ends what the instance has in the state that is here.
    fn end_now(&mut self, ended: &Ended) -> Result<(), Memory>
        requires room { self.old.view.own.count < 2 ^ 63 - 2 ^ 17 }
        ensures ok { OnOk result (self.new ≡ record self.old {
          view = record self.old.view {
            stage = stage_ended (one_if (has_here ended.now.instance self.old.view.stage) ended.now.instance) self.old.view.stage;
            own = record self.old.view.own {
              count = self.old.view.own.count + length (one_if (has_here ended.now.instance self.old.view.stage) ended.now.instance);
              eras = marked ended.now.instance ended.now.era self.old.view.own.eras;
            };
          };
        }) }
        ensures err { OnErr result (self.new ≡ self.old) }
    {
        reserve(&mut self.eras, self.brought.len())?;
        let number = self.stage.end(&ended.instance);
        self.count += number;
        mark(&mut self.eras, &ended.instance, ended.era);
        Ok(())
    }

    /// The era of an instance has ended at this server (RFC 7530, 9.6.3 and 9.1.1). What the instance has here ends, unless it was seen
    /// in a later era; while the state is frozen or on offer here, that is put off. Memory is wanted only to keep the era, and after it
    /// nothing has changed.
    #[tactic(auto, unfolding(crate::specs::Answers::sweep_answer, crate::specs::Answers::sweep_ends, crate::specs::Changes::slot_after))]
    pub fn sweep(&mut self, ended: &Ended) -> Result<Swept, Memory>
        ensures answer { IfOk result (λ a. a ≡ sweep_answer self.old.view ended.now.instance ended.now.era) }
        ensures after { IfOk result (λ a. self.new.view ≡ slot_after self.old.view
            (Sweeping ended.now.instance ended.now.era (sweep_ends self.old.view ended.now.instance) a)) }
        ensures spent { self.new.spent ≡ self.old.spent }
        ensures unspent { OnOk result (self.old.spent ≡ false) }
        ensures err { OnErr result (self.new ≡ self.old) }
    {
        if self.stage.is_spent() {
            return Err(Memory);
        }
        if self.is_past(ended) {
            return Ok(Swept::Nothing);
        }
        let answer = self.swept_at(&ended.instance);
        match answer {
            Swept::Last => {}
            Swept::Ended => self.end_now(ended)?,
            Swept::Nothing | Swept::PutOff => self.note_end(ended)?,
        }
        Ok(answer)
    }
}
