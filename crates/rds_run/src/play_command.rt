ghost use Rattle.std.specs.Prelude.{◌≡◌, ◌≢◌, ◌⊎◌, ℕ};
ghost use Rattle.rds_link.specs.Seen.{sink_seen, source_seen};
ghost use Rattle.rds_script.specs.Script.{IsScript};
ghost use Rattle.rds_script.specs.declared.cause.Cause.{Cause as Why};
ghost use Rattle.rds_script.specs.Grammar.{Meaning, meaning};
ghost use Rattle.rds_link.specs.Streaming.{HasRisen};
ghost use Rattle.rds_run.specs.ExitStatus.{IsEndOfCall, IsEndOfPlay, IsEndOfRefusal, IsToldRefused, IsToldSpelled};
ghost use Rattle.rds_run.specs.Reading.{IsOfScript, IsReadToEnd, TellsReadFaults};
ghost use Rattle.rds_run.specs.declared.status.Status.TheVariants as ended;

use crate::reading::read_script;
use crate::status::Status;
use rds_history::laws::sound::sound;
use rds_link::{Sink, Source};
use rds_model::MAX_ENTRIES;
use rds_play::{PlayEnd, play};
use rds_script::Script;
use std::alloc::Global;
use std::thread::Threads;

/// The command `play`: reads a script from the source to its end, plays it, and writes its transcript and its report to the
/// sink. A script that is refused is answered by a text line, and so is a source that fails.
pub fn play_text<S: Source, K: Sink, R: Threads + Sync>(
    rt: &R,
    alloc: Global,
    source: &mut S,
    sink: &mut K,
) -> Status
    ensures ends { IsEndOfCall
        (source_seen S.left S.faults source.old source.new)
        (sink_seen K.held K.faults sink.old sink.new)
        result }
    ensures refuses { (line : ℕ) → (cause : Why) → IsToldRefused (S.left source.old) line cause →
        IsEndOfRefusal line cause
        (sink_seen K.held K.faults sink.old sink.new)
        result
        ⊎ ((result ≡ ended.ReadFault) ⊎ (result ≡ ended.WriteFault)) }
    ensures plays { (s : Meaning) → IsToldSpelled (S.left source.old) s →
        (HasRisen (S.faults source.old) (S.faults source.new) → ⊥) → (HasRisen (K.faults sink.old) (K.faults sink.new) → ⊥) →
        (result ≡ ended.Written) ⊎ ((result ≡ ended.Memory) ⊎ (result ≡ ended.Spent)) }
    ensures play { result ≢ ended.Usage }
    ensures emptied { IsOfScript result → IsReadToEnd (S.left source.old) (S.left source.new) }
    ensures tells { TellsReadFaults (source_seen S.left S.faults source.old source.new) result }
{
    match read_script(rt, alloc, source, sink) {
        Ok(script) => play_script(alloc, &script, sink),
        Err(status) => status,
    }
}

// Plays a script. The call of the law says that what it comes to is sound.
fn play_script<K: Sink>(alloc: Global, script: &Script, sink: &mut K) -> Status
    requires { IsScript script.now }
    ensures { IsEndOfPlay (meaning script.now)
        (sink_seen K.held K.faults sink.old sink.new)
        result }
{
    sound();
    match play(alloc, script, MAX_ENTRIES, sink) {
        PlayEnd::Ok => Status::Written,
        PlayEnd::Spent { .. } => Status::Spent,
        PlayEnd::WriteFault => Status::WriteFault,
        PlayEnd::Memory => Status::Memory,
    }
}
