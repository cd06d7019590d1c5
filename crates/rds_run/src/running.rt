ghost use Rattle.std.specs.Prelude.{◌≡◌, ◌≤◌};
ghost use Rattle.rds_link.specs.Seen.{sink_seen};
ghost use Rattle.rds_script.specs.Script.{IsScript};
ghost use Rattle.rds_script.specs.Grammar.{meaning};
ghost use Rattle.rds_model.specs.declared.journal.TheConstants.{MAX_ENTRIES};
ghost use Rattle.rds_run_threads.specs.Begun.{HasBegun};
ghost use Rattle.rds_run_threads.specs.Counted.{IsCountedEnd};
ghost use Rattle.rds_run.specs.RunStatus.{IsEndOfScript, memory_seen, wire_seen};
ghost use Rattle.rds_run.specs.declared.status.Status.TheVariants as status;

use crate::status::Status;
use rds_beside::map_vec;
use rds_link::{Gate, MemWire, Sink, Wire};
use rds_model::MAX_ENTRIES;
use rds_run_threads::{Form, RunEnd, run};
use rds_script::Script;
use rds_text::HostEnd;
use std::alloc::Global;
use std::net::Net;
use std::sync::Wait;
use std::thread::Threads;

/// How many quiet rounds a run waits for acknowledgements at most, over streams that don't tell their bytes.
const BUDGET: u64 = 20_000_000;

/// Runs a script over streams in memory, and writes the text of this form to the sink.
pub(crate) fn run_in_memory<K: Sink, G: Gate + Sync, R: Threads + Wait + Net + Sync>(
    rt: &R,
    alloc: Global,
    script: Script,
    form: Form,
    sink: &mut K,
    gate: &G,
) -> Status
    requires script { IsScript script }
    ensures { IsEndOfScript memory_seen form (meaning script)
        (sink_seen K.held K.faults sink.old sink.new)
        result }
{
    let mut wire = MemWire::new(alloc, Vec::new(alloc), Vec::new(alloc));
    run_script(rt, alloc, script, form, &mut wire, sink, gate)
}

/// Runs a script over streams of the wire, and writes the text of this form to the sink.
pub(crate) fn run_script<K: Sink, W: Wire, G: Gate + Sync, R: Threads + Wait + Net + Sync>(
    rt: &R,
    alloc: Global,
    script: Script,
    form: Form,
    wire: &mut W,
    sink: &mut K,
    gate: &G,
) -> Status
where
    W::End: Send,
    requires script { IsScript script }
    ensures ends { IsEndOfScript
        (wire_seen W.End.means.tells W.counted wire.old wire.new)
        form (meaning script)
        (sink_seen K.held K.faults sink.old sink.new)
        result }
    ensures may_fail { result ≡ status.WireFault → W.may_fail wire.old }
    ensures given_back { W.out wire.new ≤ W.out wire.old }
    ensures begun { result ≡ status.WriteFault → HasBegun form W.End.means.tells MAX_ENTRIES script.hosts script.commands.items
        (IsCountedEnd W.End.means.tells (W.may_fail wire.old) 20000000 script.commands.items
        (W.counted wire.old)
        (W.counted wire.new))
        (W.counted wire.old).faults (W.counted wire.new).faults (K.held sink.old) (K.held sink.new) }
{
    match run(
        rt,
        alloc,
        &script,
        wire,
        gate,
        form,
        MAX_ENTRIES,
        BUDGET,
        sink,
    ) {
        RunEnd::Ok { ends } => {
            let_go(rt, ends, script);
            Status::Written
        }
        RunEnd::WireFault { .. } => Status::WireFault,
        RunEnd::Spent { .. } => Status::Spent,
        RunEnd::Unfinished { .. } => Status::Unfinished,
        RunEnd::WriteFault => Status::WriteFault,
        RunEnd::Memory => Status::Memory,
    }
}

// Lets go of what the hosts of a run have, that of each host in a thread of its own, and then of the script. Both have shares of the same
// blocks of memory, and threads that count the owners of one block beside one another wait for each other: so the script goes last.
fn let_go<R: Threads + Sync>(rt: &R, ends: Vec<HostEnd>, script: Script) {
    let end = |host: HostEnd| drop(host);
    // Where memory runs out, the hosts whose turn it wasn't are let go of by this thread.
    let _ = map_vec(rt, ends, &end);
    drop(script);
}
