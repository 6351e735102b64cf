//! The printed text of who has a file system, and of what came of its moves.
ghost use Rattle.std.specs.Prelude.{◌≡◌, ◌++◌, OnOk, OnErr};
ghost use Rattle.nm_script.specs.MoveText.{names_text, phase_text, phase_line_text, cause_text, move_told_text, move_row_text};
ghost use Rattle.nm_script.specs.Writing.{Stands};

use crate::writing::{append, append_number};
use crate::{MoveNames, MoveRow, MoveTold, PhaseNow, PhaseReport};
use nm_types::{Cause, Memory};

#[tactic(auto, using(crate::proofs::TextLemmas::stands_more), unfolding(crate::specs::MoveText::names_text))]
fn append_names(out: &mut Vec<u8>, names: &MoveNames) -> Result<(), Memory>
    ensures ok { OnOk result (out.new.items ≡ out.old.items ++ names_text names.now) }
    ensures err { OnErr result (Stands out.old.items out.new.items) }
{
    append(out, names.source.items())?;
    append(out, b" ")?;
    append(out, names.dest.items())?;
    append(out, b" move ")?;
    append_number(out, names.number.number())
}

/// `F at S`, `F closing S D move N`, `F frozen S D move N` or `F passing S D move N`.
#[tactic(auto, using(crate::proofs::TextLemmas::stands_more), unfolding(crate::specs::MoveText::phase_text))]
pub(crate) fn append_phase(
    out: &mut Vec<u8>,
    file_system: &[u8],
    phase: &PhaseNow,
) -> Result<(), Memory>
    ensures ok { OnOk result (out.new.items ≡ out.old.items ++ phase_text file_system.now phase.now) }
    ensures err { OnErr result (Stands out.old.items out.new.items) }
{
    append(out, file_system)?;
    match phase {
        PhaseNow::At(server) => {
            append(out, b" at ")?;
            append(out, server.items())
        }
        PhaseNow::Closing(names) => {
            append(out, b" closing ")?;
            append_names(out, names)
        }
        PhaseNow::Frozen(names) => {
            append(out, b" frozen ")?;
            append_names(out, names)
        }
        PhaseNow::Passing(names) => {
            append(out, b" passing ")?;
            append_names(out, names)
        }
    }
}

/// A phase line.
#[tactic(auto, using(crate::proofs::TextLemmas::stands_more), unfolding(crate::specs::MoveText::phase_line_text))]
pub(crate) fn append_phase_line(out: &mut Vec<u8>, row: &PhaseReport) -> Result<(), Memory>
    ensures ok { OnOk result (out.new.items ≡ out.old.items ++ phase_line_text row.now) }
    ensures err { OnErr result (Stands out.old.items out.new.items) }
{
    append_phase(out, row.file_system.items(), &row.phase)?;
    append(out, b"\n")
}

#[tactic(auto, using(crate::proofs::TextLemmas::stands_more), unfolding(crate::specs::MoveText::cause_text))]
fn append_cause(out: &mut Vec<u8>, cause: Cause) -> Result<(), Memory>
    ensures ok { OnOk result (out.new.items ≡ out.old.items ++ cause_text cause) }
    ensures err { OnErr result (Stands out.old.items out.new.items) }
{
    match cause {
        Cause::BadImage { at } => {
            append(out, b"BADIMAGE ")?;
            append_number(out, at)
        }
        Cause::Old { known } => {
            append(out, b"OLD ")?;
            append_number(out, known.number())
        }
        Cause::Live => append(out, b"LIVE"),
        Cause::Differs { here, there } => {
            append(out, b"DIFFERS ")?;
            append_number(out, here)?;
            append(out, b" ")?;
            append_number(out, there)
        }
        Cause::Full => append(out, b"FULL"),
        Cause::Absent => append(out, b"ABSENT"),
    }
}

#[tactic(auto, using(crate::proofs::TextLemmas::stands_more), unfolding(crate::specs::MoveText::move_told_text))]
fn append_move_told(out: &mut Vec<u8>, told: &MoveTold) -> Result<(), Memory>
    ensures ok { OnOk result (out.new.items ≡ out.old.items ++ move_told_text told.now) }
    ensures err { OnErr result (Stands out.old.items out.new.items) }
{
    match told {
        MoveTold::NotServed => append(out, b"notserved"),
        MoveTold::Busy(number) => {
            append(out, b"busy ")?;
            append_number(out, number.number())
        }
        MoveTold::Same => append(out, b"same"),
        MoveTold::Last => append(out, b"last"),
        MoveTold::Waiting(requests) => {
            append(out, b"waiting ")?;
            append_number(out, *requests)
        }
        MoveTold::Idle => append(out, b"idle"),
        MoveTold::Back(server) => {
            append(out, b"back ")?;
            append(out, server.items())
        }
        MoveTold::Late(server) => {
            append(out, b"late ")?;
            append(out, server.items())
        }
        MoveTold::Refused(cause) => {
            append(out, b"refused ")?;
            append_cause(out, *cause)
        }
    }
}

/// `F TOLD`.
#[tactic(auto, using(crate::proofs::TextLemmas::stands_more), unfolding(crate::specs::MoveText::move_row_text))]
pub(crate) fn append_move(out: &mut Vec<u8>, row: &MoveRow) -> Result<(), Memory>
    ensures ok { OnOk result (out.new.items ≡ out.old.items ++ move_row_text row.now) }
    ensures err { OnErr result (Stands out.old.items out.new.items) }
{
    append(out, row.file_system.items())?;
    append(out, b" ")?;
    append_move_told(out, &row.told)?;
    append(out, b"\n")
}
