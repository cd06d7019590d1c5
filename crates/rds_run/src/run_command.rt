ghost use Rattle.std.specs.Prelude.{◌≡◌, ◌≤◌, ◌⊎◌, ℕ, IfNone, IfSome};
ghost use Rattle.rds_link.specs.Seen.{sink_seen, source_seen};
ghost use Rattle.rds_link.specs.Streaming.{HasRisen};
ghost use Rattle.rds_script.specs.Script.{IsScript};
ghost use Rattle.rds_script.specs.declared.cause.Cause.{Cause as Why};
ghost use Rattle.rds_script.specs.Grammar.{Meaning, meaning};
ghost use Rattle.rds_run.specs.declared.wire.RunWire.TheVariants as wires;
ghost use Rattle.rds_run.specs.ExitStatus.{IsEndOfRefusal, IsToldRefused, IsToldSpelled};
ghost use Rattle.rds_run.specs.Reading.{IsOfScript, IsReadToEnd, TellsReadFaults};
ghost use Rattle.rds_run.specs.RunStatus.{IsEndOfRunCall, IsEndOfRunOver, IsEndOfTooMany, IsTooMany, seen_over, wire_seen};
ghost use Rattle.rds_run_hosts.specs.Streams.{prepared_streams as streams_of};
ghost use Rattle.rds_run.specs.declared.status.Status.TheVariants as ended;

use crate::RunWire;
use crate::answer::say;
use crate::reading::read_script;
use crate::running::{run_in_memory, run_script};
use crate::status::Status;
use rds_link::{Gate, Sink, Source, Wire};
use rds_run_hosts::prepared_streams;
use rds_run_threads::Form;
use rds_script::Script;
use std::alloc::Global;
use std::net::Net;
use std::sync::Wait;
use std::thread::Threads;

/// The most streams that may be prepared for a run over TCP, between all its hosts together.
const MAX_STREAMS: u64 = 96;

/// The command `run`: reads a script from the source to its end, runs it with threads over the wire that is asked for, and writes
/// its report to the sink. A script that is refused is answered by a text line, and so are a source that fails and a script that
/// would need too many streams over TCP.
pub fn run_text<S: Source, K: Sink, W: Wire, G: Gate + Sync, R: Threads + Wait + Net + Sync>(
    rt: &R,
    alloc: Global,
    wire: RunWire,
    source: &mut S,
    sink: &mut K,
    tcp: &mut W,
    gate: &G,
) -> Status
where
    W::End: Send,
    ensures ends { IsEndOfRunCall (seen_over wire
        (wire_seen W.End.means.tells W.counted tcp.old tcp.new)) wire
        (source_seen S.left S.faults source.old source.new)
        (sink_seen K.held K.faults sink.old sink.new)
        result }
    ensures refuses { (line : ℕ) → (cause : Why) → IsToldRefused (S.left source.old) line cause →
        IsEndOfRefusal line cause
        (sink_seen K.held K.faults sink.old sink.new)
        result
        ⊎ ((result ≡ ended.ReadFault) ⊎ (result ≡ ended.WriteFault)) }
    ensures too_many { (s : Meaning) → IsToldSpelled (S.left source.old) s → IsTooMany wire s →
        IsEndOfTooMany (streams_of s)
        (sink_seen K.held K.faults sink.old sink.new)
        result
        ⊎ ((result ≡ ended.ReadFault) ⊎ (result ≡ ended.WriteFault)) }
    ensures runs { (s : Meaning) → IsToldSpelled (S.left source.old) s → (HasRisen (S.faults source.old) (S.faults source.new) → ⊥) →
        IsEndOfRunOver (seen_over wire
        (wire_seen W.End.means.tells W.counted tcp.old tcp.new)) wire s
        (sink_seen K.held K.faults sink.old sink.new)
        result
        ⊎ (result ≡ ended.Memory) }
    ensures emptied { IsOfScript result → IsReadToEnd (S.left source.old) (S.left source.new) }
    ensures tells { TellsReadFaults (source_seen S.left S.faults source.old source.new) result }
    ensures tcp_unused { wire ≡ wires.Memory → tcp.new ≡ tcp.old }
    ensures given_back { W.out tcp.new ≤ W.out tcp.old }
{
    match read_script(rt, alloc, source, sink) {
        Ok(script) => run_over(rt, alloc, wire, script, sink, tcp, gate),
        Err(status) => status,
    }
}

// Runs a script over the wire that is asked for, unless it would need too many streams.
fn run_over<K: Sink, W: Wire, G: Gate + Sync, R: Threads + Wait + Net + Sync>(
    rt: &R,
    alloc: Global,
    wire: RunWire,
    script: Script,
    sink: &mut K,
    tcp: &mut W,
    gate: &G,
) -> Status
where
    W::End: Send,
    requires { IsScript script }
    ensures ends { IsEndOfRunOver (seen_over wire
        (wire_seen W.End.means.tells W.counted tcp.old tcp.new)) wire (meaning script)
        (sink_seen K.held K.faults sink.old sink.new)
        result }
    ensures tcp_unused { wire ≡ wires.Memory → tcp.new ≡ tcp.old }
    ensures given_back { W.out tcp.new ≤ W.out tcp.old }
{
    if let Some(streams) = too_many(wire, &script) {
        return refuse_streams(alloc, streams, sink);
    }
    match wire {
        RunWire::Memory => run_in_memory(rt, alloc, script, Form::Report, sink, gate),
        RunWire::Tcp => run_script(rt, alloc, script, Form::Report, tcp, sink, gate),
    }
}

// How many streams would be prepared for the script, where those are more than may be prepared for a run over this wire. For a run in memory
// they aren't counted.
fn too_many(wire: RunWire, script: &Script) -> Option<u64>
    requires { IsScript script.now }
    ensures many { IfSome result (λ streams. (streams ≡ streams_of (meaning script.now)) × IsTooMany wire (meaning script.now)) }
    ensures few { IfNone result (IsTooMany wire (meaning script.now) → ⊥) }
{
    if wire == RunWire::Memory {
        return None;
    }
    let streams = prepared_streams(script);
    if MAX_STREAMS < streams {
        return Some(streams);
    }
    None
}

// Says how many streams would be prepared for the script.
fn refuse_streams<K: Sink>(alloc: Global, streams: u64, sink: &mut K) -> Status
    ensures { IsEndOfTooMany streams
        (sink_seen K.held K.faults sink.old sink.new)
        result }
{
    match format!(in alloc; "too many streams {streams}\n") {
        Ok(text) => say(sink, text.as_str(), Status::TooManyStreams),
        Err(_) => Status::Memory,
    }
}
