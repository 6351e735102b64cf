//! What `nfsmove replay` does: it reads a script from a source, runs it, and writes its text to a sink.
ghost use Rattle.std.specs.Prelude.{◌≡◌, ◌≤◌, true, false, map, length, IfOk, IfSome, IsTrue, IsErrOf};
ghost use Rattle.std.specs.String.{string_bytes};
ghost use Rattle.nm_script.specs.Text.{usage_text_of};
ghost use Rattle.nm_script.specs.Outside.{HasRisen, with_more};
ghost use Rattle.nm_script.specs.declared.outside.ReadAllFault.TheVariants.{Failed as SourceFailed};
ghost use Rattle.nm_short.specs.ShortRun.{short_run};
ghost use Rattle.nm_cmd.specs.Replay.{are_replay, ran_of, IsAnswer, IsReplayed, IsTurnedAway, IsCutShort, IsUsageOrWriteFault};

use crate::Status;
use nm_script::{
    ReadAllFault, ScriptFault, Sink, Source, fault_text, read_all, read_script, write_all,
};
use nm_short::text_of_run;
use nm_types::Memory;
use std::alloc::Global;

/// The answer to a source's bytes.
#[derive(Drop)]
pub enum Answer {
    /// They are a script: the text of its run.
    Ran(Vec<u8>),
    /// They are none: the line that says so.
    Refused(Vec<u8>),
}

// The answer to bytes.
#[tactic(auto, unfolding(crate::specs::Replay::written_for))]
fn make_answer(alloc: Global, bytes: &[u8]) -> Result<Answer, Memory>
    ensures { IfOk result (IsAnswer bytes.now) }
{
    match read_script(alloc, bytes) {
        Ok(script) => Ok(Answer::Ran(text_of_run(alloc, &script)?)),
        Err(ScriptFault::At { line, why }) => Ok(Answer::Refused(fault_text(alloc, line, why)?)),
        Err(ScriptFault::Memory) => Err(Memory),
    }
}

// How much of a source is read: 16 MiB, and one byte more to see that there is more.
const MOST: usize = 16 * 1024 * 1024;

// The answer to a source.
fn answer_source<S: Source>(alloc: Global, source: &mut S) -> Result<Answer, ReadAllFault>
    ensures answer { IfOk result (λ a. IfSome (S.left source.old) (λ input. IsAnswer input a)) }
    ensures ended { IfOk result (λ a. IsTrue (ran_of a) → IsTrue (S.ended source.new)) }
    ensures failed { IsErrOf result SourceFailed → HasRisen (S.faults source.old) (S.faults source.new) }
{
    let bytes = read_all(alloc, source, MOST)?;
    match make_answer(alloc, &bytes) {
        Ok(answer) => Ok(answer),
        Err(Memory) => Err(ReadAllFault::Memory),
    }
}

// The words are `replay` alone.
fn is_replay(words: &[String]) -> bool
    ensures { result ≡ are_replay (map string_bytes words.now) }
{
    match words {
        [word] => word.as_str() == "replay",
        _ => false,
    }
}

// How the program is called.
const USAGE: &[u8] = b"usage: nfsmove replay | nfsmove live\n";

/// Reads the source to its end, reads its bytes as a script, runs that script and writes its text to the sink. It uses
/// no thread, and returns. It stops reading at 16 MiB and one byte, which is no script. The words are those after the
/// program's name.
///
/// The order is `Usage`, `ReadFault`, `Script`; want of memory comes before anything is written.
pub fn replay<S: Source, K: Sink>(
    alloc: Global,
    words: &[String],
    source: &mut S,
    sink: &mut K,
) -> Status
    // The source was read to its end, its bytes spell a script, and what was written is the text of that script's run.
    ensures done { result ≡ Status.Done → IsReplayed (S.left source.old) (S.ended source.new) (K.held sink.old) (K.held sink.new) }
    // Its bytes spell no script, and what was written tells the first bad line and why it is bad.
    ensures script { result ≡ Status.Script → IfSome (S.left source.old) (λ input. IsTurnedAway input (K.held sink.old) (K.held sink.new)) }
    // The words aren't `replay` alone, and the usage line was written.
    ensures usage { result ≡ Status.Usage → (are_replay (map string_bytes words.now) ≡ false) × (K.held sink.new ≡ with_more (K.held sink.old) usage_text_of) }
    // Other words are answered by Usage, or by the sink's failure.
    ensures words_first { are_replay (map string_bytes words.now) ≡ false → IsUsageOrWriteFault result }
    // The source failed in this call, and nothing was written.
    ensures read_fault { result ≡ Status.ReadFault → HasRisen (S.faults source.old) (S.faults source.new) × (K.held sink.new ≡ K.held sink.old) }
    // A source that fails leaves the sink's count, and other words leave the source's.
    ensures sink_unasked { result ≡ Status.ReadFault → K.faults sink.new ≡ K.faults sink.old }
    ensures source_unasked { are_replay (map string_bytes words.now) ≡ false → S.faults source.new ≡ S.faults source.old }
    // The sink failed in this call, and a part of what was to be written stands, from its first byte on.
    ensures write_fault { result ≡ Status.WriteFault → IsCutShort (are_replay (map string_bytes words.now)) (S.left source.old) (K.held sink.old) (K.held sink.new) (K.faults sink.old) (K.faults sink.new) }
    // Nothing was written.
    ensures memory { result ≡ Status.Memory → K.held sink.new ≡ K.held sink.old }
{
    if !is_replay(words) {
        return match write_all(sink, USAGE) {
            Ok(()) => Status::Usage,
            Err(_) => Status::WriteFault,
        };
    }
    match answer_source(alloc, source) {
        Ok(Answer::Ran(text)) => match write_all(sink, &text) {
            Ok(()) => Status::Done,
            Err(_) => Status::WriteFault,
        },
        Ok(Answer::Refused(text)) => match write_all(sink, &text) {
            Ok(()) => Status::Script,
            Err(_) => Status::WriteFault,
        },
        Err(ReadAllFault::Failed) => Status::ReadFault,
        Err(ReadAllFault::Memory) => Status::Memory,
    }
}
