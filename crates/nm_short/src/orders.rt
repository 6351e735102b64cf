//! What an operator has done with a file system.
ghost use Rattle.std.specs.Prelude.{◌≡◌, [], ◌∷◌, true, IfOk};
ghost use Rattle.nm_short.specs.Files.{came_to, went_to, order_of, accept_told};
ghost use Rattle.nm_short.specs.ShortRun.{abandon_told};
ghost use Rattle.nm_short.specs.Tables.{goes_well_to, ends_in, begin_to, begins_to, freeze_to, freezes_to, abandons_to, commits_to, settles_to, then_to, shifts_to, held_line, ordered_to, nothing_sent};

use crate::files::FileSlots;
use crate::names::{fs_name, server_name};
use nm_script::{Head, HeldReport, MoveRow, MoveTold, PhaseReport, Report, ReportRow};
use nm_slot::{Abandon, Accept, Begin, Freeze};
use nm_types::{Cause, Items, Memory, ServerNum};
use std::alloc::Global;

/// What a line does with its file system.
#[derive(Clone, Copy)]
pub enum Order {
    Move(ServerNum),
    Freeze,
    Abandon,
    Commit,
    Settle,
    Shift(ServerNum),
    Show,
}

/// What came of a step: what is printed, and whether it came to what it was for.
#[derive(Drop)]
pub struct Came {
    pub row: ReportRow,
    pub well: bool,
}

/// What came of an order, row by row.
#[derive(Drop)]
pub struct Ordered {
    pub rows: Report,
    pub well: bool,
}

/// A report of one row.
pub fn single(alloc: Global, row: ReportRow) -> Result<Report, Memory>
    ensures { IfOk result (λ report. report ≡ row ∷ []) }
{
    let mut report = Items::new(alloc);
    report.push(row)?;
    Ok(report)
}

// What came of one step.
fn alone(alloc: Global, came: Came) -> Result<Ordered, Memory>
    ensures rows { IfOk result (λ ordered. ordered.rows ≡ came.row ∷ []) }
    ensures well { IfOk result (λ ordered. ordered.well ≡ came.well) }
{
    let well = came.well;
    Ok(Ordered {
        rows: single(alloc, came.row)?,
        well,
    })
}

impl FileSlots {
    // Its phase line.
    fn goes_well(&self, head: &Head) -> Result<Came, Memory>
        ensures { IfOk result (λ came. came_to came self.now ≡ goes_well_to head.now self.now) }
    {
        let row = ReportRow::Phase(PhaseReport {
            file_system: fs_name(self.alloc, head, self.fs())?,
            phase: self.shown_phase(head)?,
        });
        Ok(Came { row, well: true })
    }

    // Why it didn't come to it.
    fn ends_in(&self, head: &Head, told: MoveTold) -> Result<Came, Memory>
        ensures { IfOk result (λ came. came_to came self.now ≡ ends_in head.now self.now told) }
    {
        let row = ReportRow::Move(MoveRow {
            file_system: fs_name(self.alloc, head, self.fs())?,
            told,
        });
        Ok(Came { row, well: false })
    }

    // What is printed of a beginning.
    #[tactic(auto, unfolding(crate::specs::Tables::begin_to))]
    fn begun(&self, head: &Head, answer: Begin) -> Result<Came, Memory>
        ensures { IfOk result (λ came. came_to came self.now ≡ begin_to head.now self.now answer) }
    {
        match answer {
            Begin::Begun(_) => Ok(self.goes_well(head)?),
            Begin::NotServed => Ok(self.ends_in(head, MoveTold::NotServed)?),
            Begin::Busy { number } => Ok(self.ends_in(head, MoveTold::Busy(number))?),
            Begin::Same => Ok(self.ends_in(head, MoveTold::Same)?),
            Begin::Last => Ok(self.ends_in(head, MoveTold::Last)?),
        }
    }

    // `move F S`.
    #[tactic(auto, unfolding(crate::specs::Tables::begins_to))]
    fn begin(&mut self, head: &Head, dest: ServerNum) -> Result<Came, Memory>
        ensures { IfOk result (λ came. came_to came self.new ≡ begins_to head.now self.old dest) }
    {
        let answer = self.begin_at(dest);
        Ok(self.begun(head, answer)?)
    }

    // What is printed of a freeze, and the offer that is sent.
    #[tactic(auto, unfolding(crate::specs::Tables::freeze_to))]
    fn frozen(&mut self, head: &Head, answer: Freeze) -> Result<Came, Memory>
        ensures { IfOk result (λ came. came_to came self.new ≡ freeze_to head.now self.old answer) }
    {
        match answer {
            Freeze::Frozen(_) => {
                self.send_offer()?;
                Ok(self.goes_well(head)?)
            }
            Freeze::Waiting { passes } => Ok(self.ends_in(head, MoveTold::Waiting(passes))?),
            Freeze::Idle => Ok(self.ends_in(head, MoveTold::Idle)?),
        }
    }

    // `freeze F`.
    #[tactic(auto, unfolding(crate::specs::Tables::freezes_to))]
    fn freeze(&mut self, head: &Head) -> Result<Came, Memory>
        ensures { IfOk result (λ came. came_to came self.new ≡ freezes_to head.now self.old) }
    {
        let answer = self.freeze_at();
        Ok(self.frozen(head, answer)?)
    }

    // What is printed of a move that was given up at a server.
    #[tactic(auto, unfolding(crate::specs::ShortRun::abandon_told))]
    fn abandoned(&self, head: &Head, source: ServerNum, answer: Abandon) -> Result<MoveTold, Memory>
        ensures { IfOk result (λ told. told ≡ abandon_told head.now source answer) }
    {
        match answer {
            Abandon::Back(_) => Ok(MoveTold::Back(server_name(self.alloc, head, source)?)),
            Abandon::Late => Ok(MoveTold::Late(server_name(self.alloc, head, source)?)),
            Abandon::Idle => Ok(MoveTold::Idle),
        }
    }

    // `abandon F`.
    #[tactic(auto, unfolding(crate::specs::Tables::abandons_to, crate::specs::Tables::stepped))]
    fn abandon(&mut self, head: &Head) -> Result<Came, Memory>
        ensures { IfOk result (λ came. came_to came self.new ≡ abandons_to head.now self.old) }
    {
        let source = self.at;
        let answer = self.abandon_at()?;
        let told = self.abandoned(head, source, answer)?;
        Ok(self.ends_in(head, told)?)
    }

    // What is printed of an offer's delivery.
    #[tactic(auto, unfolding(crate::specs::Files::accept_told))]
    fn accepted(&self, head: &Head, answer: Option<Accept>) -> Result<Came, Memory>
        ensures { IfOk result (λ came. came_to came self.now ≡ accept_told head.now self.now answer) }
    {
        let Some(answer) = answer else {
            return Ok(Came {
                row: ReportRow::NoPacket,
                well: false,
            });
        };
        match answer {
            Accept::Held => Ok(self.goes_well(head)?),
            Accept::Old { known } => {
                Ok(self.ends_in(head, MoveTold::Refused(Cause::Old { known }))?)
            }
            Accept::Live => Ok(self.ends_in(head, MoveTold::Refused(Cause::Live))?),
        }
    }

    // `commit F`.
    #[tactic(auto, using(crate::proofs::FileLemmas::delivers_is))]
    fn commit(&mut self, head: &Head) -> Result<Came, Memory>
        ensures { IfOk result (λ came. came_to came self.new ≡ commits_to head.now self.old) }
    {
        let answer = self.deliver()?;
        Ok(self.accepted(head, answer)?)
    }

    // `settle F`.
    #[tactic(auto, unfolding(crate::specs::Tables::settles_by, crate::specs::Files::installed_in))]
    fn settle(&mut self, head: &Head) -> Result<Came, Memory>
        ensures { IfOk result (λ came. came_to came self.new ≡ settles_to head.now self.old) }
    {
        let Some(handed) = self.handed else {
            return Ok(Came {
                row: ReportRow::NoPacket,
                well: false,
            });
        };
        self.install(handed);
        Ok(self.goes_well(head)?)
    }

    // What comes next, where it went well so far.
    fn then_freeze(&mut self, head: &Head, mut before: Ordered) -> Result<Ordered, Memory>
        ensures { IfOk result (λ ordered. went_to ordered self.new ≡ then_to (went_to before self.old) (freezes_to head.now self.old)) }
    {
        if !before.well {
            return Ok(before);
        }
        let came = self.freeze(head)?;
        before.rows.push(came.row)?;
        Ok(Ordered {
            rows: before.rows,
            well: came.well,
        })
    }

    fn then_commit(&mut self, head: &Head, mut before: Ordered) -> Result<Ordered, Memory>
        ensures { IfOk result (λ ordered. went_to ordered self.new ≡ then_to (went_to before self.old) (commits_to head.now self.old)) }
    {
        if !before.well {
            return Ok(before);
        }
        let came = self.commit(head)?;
        before.rows.push(came.row)?;
        Ok(Ordered {
            rows: before.rows,
            well: came.well,
        })
    }

    fn then_settle(&mut self, head: &Head, mut before: Ordered) -> Result<Ordered, Memory>
        ensures { IfOk result (λ ordered. went_to ordered self.new ≡ then_to (went_to before self.old) (settles_to head.now self.old)) }
    {
        if !before.well {
            return Ok(before);
        }
        let came = self.settle(head)?;
        before.rows.push(came.row)?;
        Ok(Ordered {
            rows: before.rows,
            well: came.well,
        })
    }

    // `shift F S`.
    #[tactic(auto, unfolding(crate::specs::Tables::shifts_to))]
    fn shift(&mut self, head: &Head, dest: ServerNum) -> Result<Ordered, Memory>
        ensures { IfOk result (λ ordered. went_to ordered self.new ≡ shifts_to head.now self.old dest) }
    {
        let came = self.begin(head, dest)?;
        let one = alone(self.alloc, came)?;
        let two = self.then_freeze(head, one)?;
        let three = self.then_commit(head, two)?;
        Ok(self.then_settle(head, three)?)
    }

    // `show F`.
    fn show(&self, head: &Head) -> Result<Came, Memory>
        ensures { IfOk result (λ came. came_to came self.now ≡ record { rows = held_line head.now self.now ∷ []; file = self.now; well = true }) }
    {
        let row = ReportRow::Held(HeldReport {
            file_system: fs_name(self.alloc, head, self.fs())?,
            phase: self.shown_phase(head)?,
            table: self.shown_table()?,
        });
        Ok(Came { row, well: true })
    }

    /// Does what a line orders. After want of memory nothing is promised of the file system.
    #[tactic(auto, unfolding(crate::specs::Tables::ordered_to))]
    pub fn order(&mut self, head: &Head, order: Order) -> Result<Ordered, Memory>
        ensures { IfOk result (λ ordered. went_to ordered self.new ≡ ordered_to head.now self.old (order_of order)) }
    {
        let alloc = self.alloc;
        match order {
            Order::Move(dest) => Ok(alone(alloc, self.begin(head, dest)?)?),
            Order::Freeze => Ok(alone(alloc, self.freeze(head)?)?),
            Order::Abandon => Ok(alone(alloc, self.abandon(head)?)?),
            Order::Commit => Ok(alone(alloc, self.commit(head)?)?),
            Order::Settle => Ok(alone(alloc, self.settle(head)?)?),
            Order::Shift(dest) => Ok(self.shift(head, dest)?),
            Order::Show => Ok(alone(alloc, self.show(head)?)?),
        }
    }
}
