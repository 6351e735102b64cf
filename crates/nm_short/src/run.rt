//! The run of a script's lines.
ghost use Rattle.std.specs.Prelude.{◌≡◌, ◌∷◌, ◌<◌, ◌≤◌, [], Some, length, IfOk, slice_get};
ghost use Rattle.nm_types.specs.Actions.{fs_of};
ghost use Rattle.nm_script.specs.Grammar.{IsWellFormed};
ghost use Rattle.nm_script.specs.Text.{text_of};
ghost use Rattle.nm_short.specs.Files.{order_of};
ghost use Rattle.nm_short.specs.Known.{call_of};
ghost use Rattle.nm_short.specs.Runs.{step_to, phase_shown_at};
ghost use Rattle.nm_short.specs.ShortRun.{outcome, short_run};
ghost use Rattle.nm_short.specs.Tables.{AreShort, told_call, told_tries, told_act, told_start, told_go_on, told_do, told_finish, told_ordered, told_line, text_from, tables_at_first, tables_of_head};

use crate::clients::Clients;
use crate::files::FileSlots;
use crate::orders::{Order, single};
use crate::releases::released_by;
use nm_script::{
    ClientRow, Head, IdleRow, Line, OutcomeRow, Report, ReportRow, Script, Told, append_line_text,
};
use nm_slot::Phase;
use nm_types::{Action, Call, FsNum, Items, Memory, ServerNum};
use std::alloc::Global;
use std::marker::Model;

/// What the servers of a script have, and what its clients know.
pub struct Run {
    pub(crate) alloc: Global,
    pub(crate) files: Vec<FileSlots>,
    pub(crate) clients: Clients,
}

impl Drop for Run {
    fn drop(self) {
        let Run {
            alloc: _,
            files: _,
            clients: _,
        } = self;
    }
}

impl Model for Run {
    ghost use Rattle.nm_short.specs.Tables.{TablesNow};

    ghost Value = { TablesNow };

    ghost view = { λ r. record { files = r.files.items; known = r.clients } };
}

/// What came of a client's action.
pub fn outcome_of(
    alloc: Global,
    row: &ClientRow,
    action: &Action,
    told: Told,
) -> Result<Report, Memory>
    ensures { IfOk result (λ report. report ≡ outcome row.now action.now told ∷ []) }
{
    let client = row.name.copy()?;
    let verb = action.verb();
    single(alloc, ReportRow::Outcome(OutcomeRow { client, verb, told }))
}

// A file system's number.
fn file_number(n: u32) -> FsNum
    requires { n < 64 }
    ensures { result ≡ n }
{
    match FsNum::new(n) {
        Some(fs) => fs,
        None => unreachable!(),
    }
}

// The file systems of a head, before the first line.
fn first_files(alloc: Global, head: &Head) -> Result<Vec<FileSlots>, Memory>
    requires { length head.now.file_systems ≤ 64 }
    ensures { IfOk result (λ files. files.items ≡ tables_at_first (length head.now.servers) 0 head.now.file_systems) }
{
    let servers = head.servers.items().len();
    let mut files = Vec::new(alloc);
    let mut number = 0;
    for row in head.file_systems.items() {
        let file = FileSlots::new(alloc, file_number(number), servers, row.at)?;
        files.push(file)?;
        number += 1;
    }
    Ok(files)
}

impl Run {
    /// Before the first line each file system is served where the head has it, and no client knows anything.
    pub fn new(alloc: Global, head: &Head) -> Result<Run, Memory>
        requires { length head.now.file_systems ≤ 64 }
        ensures { IfOk result (λ run. run ≡ tables_of_head head.now) }
    {
        Ok(Run {
            alloc,
            files: first_files(alloc, head)?,
            clients: Clients::new(alloc),
        })
    }

    /// What a server does with a file system; `None` exactly where the script has no file system of that number.
    pub fn phase_at(&self, fs: FsNum, server: ServerNum) -> Option<Phase>
        ensures { result ≡ phase_shown_at (slice_get self.now.files fs) server }
    {
        match self.files.get(fs.number() as usize) {
            Some(file) => Some(file.phase_at(server)),
            None => None,
        }
    }

    // A client's call, and those that go on with it.
    #[tactic(auto, unfolding(crate::specs::Tables::told_tries))]
    fn try_call(
        &mut self,
        client: u32,
        row: &ClientRow,
        action: &Action,
        call: &Call,
    ) -> Result<Report, Memory>
        requires { length row.now.name ≤ 16 }
        ensures { IfOk result (λ rows. step_to rows self.new ≡ told_tries self.old client row.now action.now call.now (slice_get self.old.files (fs_of action.now))) }
    {
        let at = action.fs().number() as usize;
        if at >= self.files.len() {
            return Ok(Items::new(self.alloc));
        }
        let told = self.files[at].tries(&mut self.clients, client, row, action, call)?;
        Ok(outcome_of(self.alloc, row, action, told)?)
    }

    // A client's call, which releases an owner or not.
    #[tactic(auto, unfolding(crate::specs::Tables::told_call, crate::specs::Tables::told_found))]
    fn make_call(
        &mut self,
        client: u32,
        row: &ClientRow,
        action: &Action,
        call: &Call,
    ) -> Result<Report, Memory>
        requires { length row.now.name ≤ 16 }
        ensures { IfOk result (λ rows. step_to rows self.new ≡ told_call self.old client row.now action.now (Some call.now) (slice_get self.old.files (fs_of action.now))) }
    {
        match released_by(action) {
            Some(owner) => Ok(self.release(client, row, action, owner, call)?),
            None => Ok(self.try_call(client, row, action, call)?),
        }
    }

    // A client's action.
    #[tactic(auto, unfolding(crate::specs::Tables::told_act, crate::specs::Tables::told_call))]
    fn act(&mut self, client: u32, row: &ClientRow, action: &Action) -> Result<Report, Memory>
        requires { length row.now.name ≤ 16 }
        ensures { IfOk result (λ rows. step_to rows self.new ≡ told_act self.old client row.now action.now) }
    {
        match self.clients.call_of(client, row, action)? {
            Some(call) => Ok(self.make_call(client, row, action, &call)?),
            None => Ok(outcome_of(self.alloc, row, action, Told::NoState)?),
        }
    }

    // A client begins an action.
    #[tactic(auto, unfolding(crate::specs::Tables::told_start))]
    fn start(
        &mut self,
        client: u32,
        row: &ClientRow,
        action: &Action,
        in_hand: Option<Action>,
    ) -> Result<Report, Memory>
        requires { length row.now.name ≤ 16 }
        ensures { IfOk result (λ rows. step_to rows self.new ≡ told_start self.old client row.now action.now in_hand) }
    {
        match in_hand {
            Some(_) => Ok(outcome_of(self.alloc, row, action, Told::Busy)?),
            None => Ok(self.act(client, row, action)?),
        }
    }

    // A client goes on with what it has in hand.
    #[tactic(auto, unfolding(crate::specs::Tables::told_go_on))]
    fn go_on(
        &mut self,
        client: u32,
        row: &ClientRow,
        in_hand: Option<Action>,
    ) -> Result<Report, Memory>
        requires { length row.now.name ≤ 16 }
        ensures { IfOk result (λ rows. step_to rows self.new ≡ told_go_on self.old client row.now in_hand) }
    {
        match in_hand {
            Some(action) => Ok(self.act(client, row, &action)?),
            None => {
                let idle = IdleRow {
                    client: row.name.copy()?,
                };
                Ok(single(self.alloc, ReportRow::Idle(idle))?)
            }
        }
    }

    // `do C ACTION`.
    #[tactic(auto, unfolding(crate::specs::Tables::told_do))]
    fn do_line(&mut self, head: &Head, client: u32, action: &Action) -> Result<Report, Memory>
        requires { AreShort head.now.clients }
        ensures { IfOk result (λ rows. step_to rows self.new ≡ told_do self.old client action.now (slice_get head.now.clients client)) }
    {
        match head.clients.items().get(client as usize) {
            Some(row) => {
                let in_hand = self.clients.in_hand(client)?;
                Ok(self.start(client, row, action, in_hand)?)
            }
            None => Ok(Items::new(self.alloc)),
        }
    }

    // `do C finish`.
    #[tactic(auto, unfolding(crate::specs::Tables::told_finish))]
    fn finish_line(&mut self, head: &Head, client: u32) -> Result<Report, Memory>
        requires { AreShort head.now.clients }
        ensures { IfOk result (λ rows. step_to rows self.new ≡ told_finish self.old client (slice_get head.now.clients client)) }
    {
        match head.clients.items().get(client as usize) {
            Some(row) => {
                let in_hand = self.clients.in_hand(client)?;
                Ok(self.go_on(client, row, in_hand)?)
            }
            None => Ok(Items::new(self.alloc)),
        }
    }

    // A line of an operator.
    #[tactic(auto, unfolding(crate::specs::Tables::told_order))]
    fn order_line(&mut self, head: &Head, fs: FsNum, order: Order) -> Result<Report, Memory>
        ensures { IfOk result (λ rows. step_to rows self.new ≡ told_ordered head.now self.old fs (order_of order)) }
    {
        let at = fs.number() as usize;
        if at >= self.files.len() {
            return Ok(Items::new(self.alloc));
        }
        let ordered = self.files[at].order(head, order)?;
        Ok(ordered.rows)
    }

    /// Runs a line: what it prints. After want of memory nothing is promised of the run.
    #[tactic(auto, unfolding(crate::specs::Tables::told_line))]
    pub fn line(&mut self, head: &Head, line: &Line) -> Result<Report, Memory>
        requires { AreShort head.now.clients }
        ensures { IfOk result (λ rows. told_line head.now self.old line.now ≡ record { rows = rows; next = self.new }) }
    {
        match line {
            Line::Do { client, action } => Ok(self.do_line(head, *client, action)?),
            Line::Finish { client } => Ok(self.finish_line(head, *client)?),
            Line::Move { fs, to } => Ok(self.order_line(head, *fs, Order::Move(*to))?),
            Line::Freeze(fs) => Ok(self.order_line(head, *fs, Order::Freeze)?),
            Line::Abandon(fs) => Ok(self.order_line(head, *fs, Order::Abandon)?),
            Line::Commit(fs) => Ok(self.order_line(head, *fs, Order::Commit)?),
            Line::Settle(fs) => Ok(self.order_line(head, *fs, Order::Settle)?),
            Line::Shift { fs, to } => Ok(self.order_line(head, *fs, Order::Shift(*to))?),
            Line::Show(fs) => Ok(self.order_line(head, *fs, Order::Show)?),
        }
    }
}

// The text of a script's lines, over what the servers have.
fn text_of_lines(alloc: Global, script: &Script) -> Result<Vec<u8>, Memory>
    requires short { AreShort script.now.head.clients }
    requires few { length script.now.head.file_systems ≤ 64 }
    ensures { IfOk result (λ text. text.items ≡ text_from script.now.head (tables_of_head script.now.head) script.now.lines) }
{
    let mut run = Run::new(alloc, &script.head)?;
    let mut text = Vec::new(alloc);
    for line in script.lines.items() {
        let report = run.line(&script.head, line)?;
        append_line_text(&mut text, &report)?;
    }
    Ok(text)
}

/// Runs a script's lines in order: the text that they print. `Memory` where an allocation failed.
pub fn text_of_run(alloc: Global, script: &Script) -> Result<Vec<u8>, Memory>
    requires { IsWellFormed script.now }
    ensures { IfOk result (λ text. text.items ≡ text_of (short_run script.now)) }
{
    Ok(text_of_lines(alloc, script)?)
}
