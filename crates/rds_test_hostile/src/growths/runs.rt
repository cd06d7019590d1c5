//! A run of a script over streams in memory.
ghost use Rattle.rds_script.specs.Script.{IsScript};

use super::scripts::SCRIPT;
use super::tried::Tried;
use rds_link::{MemSink, MemWire, OpenGate};
use rds_model::MAX_ENTRIES;
use rds_run_threads::{Form, RunEnd};
use rds_script::Script;
use std::alloc::Global;
use std::net::Net;
use std::sync::Wait;
use std::thread::Threads;

/// How many quiet rounds there may be in the end.
const BUDGET: u64 = 1_000;

pub fn run<R: Threads + Wait + Net + Sync>(rt: &R, alloc: Global) -> Option<Tried> {
    let script = rds_script::read(alloc, SCRIPT).ok()?;
    if let Some(length) = written(rt, alloc, &script) {
        return Some(Tried::of(false, length));
    }
    let length = written(rt, alloc, &script)?;
    Some(Tried::of(true, length))
}

// How long the report is that a run writes, if it ends well.
fn written<R: Threads + Wait + Net + Sync>(rt: &R, alloc: Global, script: &Script) -> Option<usize>
    requires { IsScript script.now }
{
    let mut wire = MemWire::new(alloc, Vec::new(alloc), Vec::new(alloc));
    let mut sink = MemSink::new(alloc, Vec::new(alloc));
    let end = rds_run_threads::run(
        rt,
        alloc,
        script,
        &mut wire,
        &OpenGate,
        Form::Report,
        MAX_ENTRIES,
        BUDGET,
        &mut sink,
    );
    match end {
        RunEnd::Ok { .. } => Some(sink.held().len()),
        _ => None,
    }
}
