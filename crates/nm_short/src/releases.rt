//! The release of a lock owner, which goes to each file system of a server.
ghost use Rattle.std.specs.Prelude.{◌≡◌, ◌≤◌, length, slice_get, IfOk, option_copied};
ghost use Rattle.nm_types.specs.Actions.{fs_of};
ghost use Rattle.nm_short.specs.Files.{all_freed_in};
ghost use Rattle.nm_short.specs.Requests.{released_by, let_in, told_freed};
ghost use Rattle.nm_short.specs.Runs.{step_to};
ghost use Rattle.nm_short.specs.Tables.{frees_all_to, leaves_to, left_to, frees_at_to, turned_to, released_to, releases_to};

use crate::asks::Knocked;
use crate::files::FileSlots;
use crate::locking::Freed;
use crate::run::{Run, outcome_of};
use nm_script::{ClientRow, Report, Told};
use nm_slot::{Enter, FsPass};
use nm_types::{Action, Bytes, Call, FsNum, Items, Memory, OpStatus, ServerNum};

/// The owner that an action releases.
#[tactic(auto, unfolding(crate::specs::Requests::released_by))]
pub fn released_by(action: &Action) -> Option<&Bytes>
    ensures { option_copied result ≡ released_by action.now }
{
    match action {
        Action::Release(a) => Some(&a.owner),
        _ => None,
    }
}

// What a client is told of a release.
#[tactic(auto, unfolding(crate::specs::Requests::told_freed))]
fn told_freed(freed: Freed) -> Told
    ensures { result ≡ told_freed freed }
{
    match freed {
        Freed::On => Told::Answered(OpStatus::Nfs4Ok),
        Freed::Waits => Told::Delayed,
        Freed::Ends(status) => Told::Answered(status),
    }
}

// Makes a release in each file system at a server, by number, until one ends it.
fn free_all(files: &mut Vec<FileSlots>, server: ServerNum, call: &Call) -> Result<Freed, Memory>
    ensures { IfOk result (λ freed. all_freed_in freed files.new.items ≡ frees_all_to files.old.items server call.now) }
{
    for at in 0..files.len() {
        let freed = files[at].free(server, call)?;
        if !freed.frees_more() {
            return Ok(freed);
        }
    }
    Ok(Freed::On)
}

// Gives a pass of a file system back.
#[tactic(auto, unfolding(crate::specs::Tables::left_to))]
fn leave_at(files: &mut Vec<FileSlots>, fs: FsNum, server: ServerNum, pass: FsPass)
    ensures { files.new.items ≡ leaves_to files.old.items fs server pass.epoch }
{
    let at = fs.number() as usize;
    if at < files.len() {
        files[at].leave(server, pass);
    }
}

impl Run {
    // A client's release with a pass of the file system that it names.
    #[tactic(auto, unfolding(crate::specs::Tables::frees_at_to))]
    fn free_at(
        &mut self,
        client: u32,
        row: &ClientRow,
        action: &Action,
        owner: &Bytes,
        call: &Call,
        server: ServerNum,
        pass: FsPass,
    ) -> Result<Report, Memory>
        ensures { IfOk result (λ rows. step_to rows self.new ≡ frees_at_to self.old client row.now action.now owner.now call.now server pass.epoch) }
    {
        let freed = free_all(&mut self.files, server, call)?;
        leave_at(&mut self.files, action.fs(), server, pass);
        self.clients
            .learn_freed(client, action, owner, server, freed)?;
        Ok(outcome_of(self.alloc, row, action, told_freed(freed))?)
    }

    // A client's release where it isn't let in.
    #[tactic(auto, unfolding(crate::specs::Tables::turned_to))]
    fn turn_away(
        &mut self,
        client: u32,
        row: &ClientRow,
        action: &Action,
        call: &Call,
        knocked: Knocked,
    ) -> Result<Report, Memory>
        requires { length row.now.name ≤ 16 }
        ensures { IfOk result (λ rows. step_to rows self.new ≡ turned_to self.old client row.now action.now call.now knocked.server knocked.door (slice_get self.old.files (fs_of action.now))) }
    {
        let at = action.fs().number() as usize;
        if at >= self.files.len() {
            return Ok(Items::new(self.alloc));
        }
        let told = self.files[at].pass_door(&mut self.clients, knocked, client, row, action, call)?;
        Ok(outcome_of(self.alloc, row, action, told)?)
    }

    // A client's release, once it knocked.
    #[tactic(auto, unfolding(crate::specs::Tables::released_to, crate::specs::Requests::let_in))]
    fn knocked(
        &mut self,
        client: u32,
        row: &ClientRow,
        action: &Action,
        owner: &Bytes,
        call: &Call,
        knocked: Knocked,
    ) -> Result<Report, Memory>
        requires { length row.now.name ≤ 16 }
        ensures { IfOk result (λ rows. step_to rows self.new ≡ released_to self.old client row.now action.now owner.now call.now knocked.server knocked.door (let_in knocked.door)) }
    {
        let Knocked { server, door } = knocked;
        match door {
            Some(Enter::Entered(pass)) => {
                Ok(self.free_at(client, row, action, owner, call, server, pass)?)
            }
            door => {
                let knocked = Knocked { server, door };
                Ok(self.turn_away(client, row, action, call, knocked)?)
            }
        }
    }
    /// A client's release. After want of memory nothing is promised of the run.
    #[tactic(auto, unfolding(crate::specs::Tables::releases_to))]
    pub(crate) fn release(
        &mut self,
        client: u32,
        row: &ClientRow,
        action: &Action,
        owner: &Bytes,
        call: &Call,
    ) -> Result<Report, Memory>
        requires { length row.now.name ≤ 16 }
        ensures { IfOk result (λ rows. step_to rows self.new ≡ releases_to self.old client row.now action.now owner.now call.now (slice_get self.old.files (fs_of action.now))) }
    {
        let at = action.fs().number() as usize;
        if at >= self.files.len() {
            return Ok(Items::new(self.alloc));
        }
        let knocked = self.files[at].knock_for(&mut self.clients, client)?;
        Ok(self.knocked(client, row, action, owner, call, knocked)?)
    }
}
