ghost use Rattle.std.specs.Prelude.{◌≡◌, ℕ, IfOk, IfErr, OnOk};
ghost use Rattle.rds_link.specs.Seen.{sink_seen, source_seen};
ghost use Rattle.rds_script.specs.Script.{IsScript};
ghost use Rattle.rds_script.specs.declared.cause.Cause.{Cause as Why};
ghost use Rattle.rds_script.specs.Grammar.{Meaning, meaning};
ghost use Rattle.rds_run.specs.Reading.{IsEndOfReading, IsReadAs, IsReadToEnd, IsRefusedBy, TellsReadFaults};
ghost use Rattle.rds_run.specs.ExitStatus.{IsEndOfRefusal, IsSpelled, IsToldRefused, IsToldSpelled};

use crate::answer::say;
use crate::status::Status;
use rds_link::{ReadError, Sink, Source, read_all};
use rds_script::{Cause, MAX_TEXT, Script, ScriptError};
use rds_script_pieces::read_by_threads;
use std::alloc::Global;
use std::thread::Threads;

const READ_FAULT: &str = "read fault\n";

/// Reads a script from the source to its end. A text that is refused is answered by a text line, and so is a source that fails.
///
/// # Errors
///
/// The status that the program ends with, where there is no script.
pub fn read_script<S: Source, K: Sink, R: Threads + Sync>(
    rt: &R,
    alloc: Global,
    source: &mut S,
    sink: &mut K,
) -> Result<Script, Status>
    ensures known { IfOk result IsScript }
    ensures spelled { IfOk result (λ script. IsSpelled (S.left source.old) (meaning script)) }
    ensures same { OnOk result (sink.new ≡ sink.old) }
    ensures ends { IfErr result (IsEndOfReading
        (source_seen S.left S.faults source.old source.new)
        (sink_seen K.held K.faults sink.old sink.new)) }
    ensures quiet { OnOk result (S.faults source.new ≡ S.faults source.old) }
    ensures emptied { OnOk result (IsReadToEnd (S.left source.old) (S.left source.new)) }
    ensures tells { IfErr result (TellsReadFaults (source_seen S.left S.faults source.old source.new)) }
    // A text that is refused gives no script, and is answered by its line unless the source or the sink fails or memory runs out.
    ensures refuses { (line : ℕ) → (cause : Why) → IsToldRefused (S.left source.old) line cause →
        IsRefusedBy line cause
        (sink_seen K.held K.faults sink.old sink.new)
        result }
    // A text that spells a script gives that script, unless the source fails or memory runs out.
    ensures reads { (s : Meaning) → IsToldSpelled (S.left source.old) s → IsReadAs s
        (source_seen S.left S.faults source.old source.new)
        result }
{
    let text = match read_all(alloc, source, MAX_TEXT + 1) {
        Ok(text) => text,
        Err(ReadError::Failed) => return Err(say(sink, READ_FAULT, Status::ReadFault)),
        Err(ReadError::Memory) => return Err(Status::Memory),
    };
    match read_by_threads(rt, alloc, &text) {
        Ok(script) => Ok(script),
        Err(ScriptError::BadLine { line, cause }) => Err(refuse(alloc, line, cause, sink)),
        Err(ScriptError::Memory) => Err(Status::Memory),
    }
}

// Says which line is refused, and why.
fn refuse<K: Sink>(alloc: Global, line: u32, cause: Cause, sink: &mut K) -> Status
    ensures { IsEndOfRefusal line cause
        (sink_seen K.held K.faults sink.old sink.new)
        result }
{
    match format!(in alloc; "bad line {line}: {cause}\n") {
        Ok(text) => say(sink, text.as_str(), Status::Refused),
        Err(_) => Status::Memory,
    }
}
