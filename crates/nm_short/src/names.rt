//! Names of servers and file systems, and how a phase is shown.
ghost use Rattle.std.specs.Prelude.{◌≡◌, [], option_map, IfOk};
ghost use Rattle.nm_short.specs.ShortRun.{server_name, fs_name, phase_shown};
ghost use Rattle.nm_short.specs.Tables.{phase_by};

use nm_script::{Head, MoveNames, PhaseNow};
use nm_slot::Phase;
use nm_types::{Bytes, FsNum, Items, Memory, MoveNum, ServerNum};
use std::alloc::Global;

/// A server's name.
pub fn server_name(alloc: Global, head: &Head, server: ServerNum) -> Result<Bytes, Memory>
    ensures { IfOk result (λ name. name ≡ server_name head.now server) }
{
    match head.servers.items().get(server.number() as usize) {
        Some(row) => Ok(row.name.copy()?),
        None => Ok(Items::new(alloc)),
    }
}

/// A file system's name.
pub fn fs_name(alloc: Global, head: &Head, fs: FsNum) -> Result<Bytes, Memory>
    ensures { IfOk result (λ name. name ≡ fs_name head.now fs) }
{
    match head.file_systems.items().get(fs.number() as usize) {
        Some(row) => Ok(row.name.copy()?),
        None => Ok(Items::new(alloc)),
    }
}

// A move, with the names of its servers.
fn move_names(
    alloc: Global,
    head: &Head,
    source: ServerNum,
    dest: ServerNum,
    number: MoveNum,
) -> Result<MoveNames, Memory>
    ensures { IfOk result (λ names. names ≡ record { source = server_name head.now source; dest = server_name head.now dest; number = number }) }
{
    Ok(MoveNames {
        source: server_name(alloc, head, source)?,
        dest: server_name(alloc, head, dest)?,
        number,
    })
}

/// Who has a file system, by what the server `at` does that has it or handed it over, and the greatest move number that
/// this server knows.
#[tactic(auto, unfolding(crate::specs::ShortRun::phase_shown))]
pub fn show_phase(
    alloc: Global,
    head: &Head,
    at: ServerNum,
    phase: Phase,
    known: MoveNum,
) -> Result<PhaseNow, Memory>
    ensures { IfOk result (λ shown. shown ≡ phase_shown head.now (phase_by at phase known)) }
{
    match phase {
        Phase::Never | Phase::Serving | Phase::Incoming { .. } => {
            Ok(PhaseNow::At(server_name(alloc, head, at)?))
        }
        Phase::Closing { dest, number } => {
            Ok(PhaseNow::Closing(move_names(alloc, head, at, dest, number)?))
        }
        Phase::Frozen { dest, number } => {
            Ok(PhaseNow::Frozen(move_names(alloc, head, at, dest, number)?))
        }
        Phase::Gone { dest, .. } => {
            Ok(PhaseNow::Passing(move_names(alloc, head, at, dest, known)?))
        }
    }
}
