ghost use Rattle.std.specs.Prelude.{◌≤◌};
ghost use Rattle.rds_link.specs.Seen.{sink_seen};
ghost use Rattle.rds_run.specs.RunStatus.{IsEndOfGenCall};

use crate::running::run_in_memory;
use crate::status::Status;
use rds_link::{Gate, Sink};
use rds_run_threads::Form;
use rds_script_gen::generate;
use rds_wire::Memory;
use std::alloc::Global;
use std::net::Net;
use std::sync::Wait;
use std::thread::Threads;

/// The command `gen`: generates the script of so many sends, 1 to 100,000, from a seed, runs it with threads over streams in memory, and
/// writes its summary to the sink.
pub fn gen_text<K: Sink, G: Gate + Sync, R: Threads + Wait + Net + Sync>(
    rt: &R,
    alloc: Global,
    sends: u32,
    seed: u64,
    sink: &mut K,
    gate: &G,
) -> Status
    requires least { 1 ≤ sends }
    requires most { sends ≤ 100000 }
    ensures { IsEndOfGenCall sends seed
        (sink_seen K.held K.faults sink.old sink.new)
        result }
{
    match generate(alloc, sends, seed) {
        Ok(script) => run_in_memory(rt, alloc, script, Form::Summary { seed, sends }, sink, gate),
        Err(Memory) => Status::Memory,
    }
}
