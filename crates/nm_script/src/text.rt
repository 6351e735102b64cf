//! The printed text: what came of each line of a script, and why a script is refused.
ghost use Rattle.std.specs.Prelude.{◌≡◌, ◌++◌, codes, decimal, IfOk, OnOk, OnErr};
ghost use Rattle.nm_script.specs.TableText.{held_text_of};
ghost use Rattle.nm_script.specs.Text.{row_text, report_text, why_text, fault_text_of, usage_text_of};
ghost use Rattle.nm_script.specs.Writing.{Stands};

use crate::move_text::{append_move, append_phase_line};
use crate::outcome_text::{append_idle, append_outcome};
use crate::table_text::append_table;
use crate::writing::{append, append_number};
use crate::{PhaseNow, Report, ReportRow, Why};
use nm_types::{HeldTable, Memory};
use std::alloc::Global;

// The printed word of why a script is refused.
#[tactic(auto, unfolding(crate::specs::Text::why_text))]
fn why_word(why: Why) -> &'static [u8]
    ensures { result.now ≡ why_text why }
{
    match why {
        Why::Limit => b"limit",
        Why::Bytes => b"bytes",
        Why::Head => b"head",
        Why::Word => b"word",
        Why::Name => b"name",
        Why::Number => b"number",
    }
}

#[tactic(auto, using(crate::proofs::TextLemmas::stands_more), unfolding(crate::specs::Text::row_text))]
fn append_row(out: &mut Vec<u8>, row: &ReportRow) -> Result<(), Memory>
    ensures ok { OnOk result (out.new.items ≡ out.old.items ++ row_text row.now) }
    ensures err { OnErr result (Stands out.old.items out.new.items) }
{
    match row {
        ReportRow::Outcome(row) => append_outcome(out, row),
        ReportRow::Idle(row) => append_idle(out, row),
        ReportRow::Held(row) => {
            append_table(out, row.file_system.items(), &row.phase, &row.table)
        }
        ReportRow::Phase(row) => append_phase_line(out, row),
        ReportRow::Move(row) => append_move(out, row),
        ReportRow::NoPacket => append(out, b"no packet\n"),
    }
}

/// Appends what a line of a script prints to what was written so far. `Memory` where an allocation failed: what was
/// written before then still stands, and nothing is said of what is behind it.
#[tactic(auto, using(crate::proofs::TextLemmas::stands_more))]
pub fn append_line_text(out: &mut Vec<u8>, report: &Report) -> Result<(), Memory>
    ensures ok { OnOk result (out.new.items ≡ out.old.items ++ report_text report.now) }
    ensures err { OnErr result (Stands out.old.items out.new.items) }
{
    for row in report.items() {
        append_row(out, row)?;
    }
    Ok(())
}

/// What a line of a script prints: its rows in order, each on a line of its own, and what is held as a phase line and
/// behind it a line `  open FILE OWNER ACC DENY` for each open and a line `  lock FILE OWNER KIND OFFSET LENGTH` for
/// each range that is locked. `Memory` where an allocation failed.
pub fn line_text(alloc: Global, report: &Report) -> Result<Vec<u8>, Memory>
    ensures { IfOk result (λ text. text.items ≡ report_text report.now) }
{
    let mut out = Vec::new(alloc);
    append_line_text(&mut out, report)?;
    Ok(out)
}

/// What is held in the file system of that name: its phase line, a line `  open FILE OWNER ACC DENY` for each open, in the
/// table's order, and a line `  lock FILE OWNER KIND OFFSET LENGTH` for each range that is locked, by the file's number, the
/// first byte and the counter of the stateid. `Memory` where an allocation failed.
pub fn held_text(
    alloc: Global,
    name: &[u8],
    phase: &PhaseNow,
    table: &HeldTable,
) -> Result<Vec<u8>, Memory>
    ensures { IfOk result (λ text. text.items ≡ held_text_of name.now phase.now table.now) }
{
    let mut out = Vec::new(alloc);
    append_table(&mut out, name, phase, table)?;
    Ok(out)
}

/// Why a script is refused, as `line N: WHY`, where N counts from 1 and WHY is one of the words limit, bytes, head,
/// word, name and number. `Memory` where an allocation failed.
#[tactic(auto, unfolding(crate::specs::Text::fault_text_of))]
pub fn fault_text(alloc: Global, line: u64, why: Why) -> Result<Vec<u8>, Memory>
    ensures { IfOk result (λ text. text.items ≡ fault_text_of line why) }
{
    let mut out = Vec::new(alloc);
    append(&mut out, b"line ")?;
    append_number(&mut out, line)?;
    append(&mut out, b": ")?;
    append(&mut out, why_word(why))?;
    append(&mut out, b"\n")?;
    Ok(out)
}

/// How the program is called, on a line. `Memory` where an allocation failed.
#[tactic(auto, unfolding(crate::specs::Text::usage_text_of))]
pub fn usage_text(alloc: Global) -> Result<Vec<u8>, Memory>
    ensures { IfOk result (λ text. text.items ≡ usage_text_of) }
{
    let mut out = Vec::new(alloc);
    append(&mut out, b"usage: nfsmove replay | nfsmove live\n")?;
    Ok(out)
}
