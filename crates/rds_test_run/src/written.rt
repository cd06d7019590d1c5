//! What a run of a script writes.
use rds_link::{Gate, MemSink, Wire};
use rds_model::MAX_ENTRIES;
use rds_run_threads::{Form, run};
use rds_script::read;
use std::alloc::Global;
use std::net::Net;
use std::sync::Wait;
use std::thread::Threads;

/// What a run of the script writes over this wire and past this gate, where its last rounds stop after so many quiet ones.
pub(crate) fn written<W: Wire, G: Gate + Sync, R: Threads + Wait + Net + Sync>(
    rt: &R,
    alloc: Global,
    script: &[u8],
    wire: &mut W,
    gate: &G,
    budget: u64,
) -> Option<MemSink>
where
    W::End: Send,
{
    let script = read(alloc, script).ok()?;
    let mut sink = MemSink::new(alloc, Vec::new(alloc));
    let form = Form::Report;
    run(
        rt,
        alloc,
        &script,
        wire,
        gate,
        form,
        MAX_ENTRIES,
        budget,
        &mut sink,
    );
    Some(sink)
}

/// Whether such a run writes this text.
pub(crate) fn writes<W: Wire, G: Gate + Sync, R: Threads + Wait + Net + Sync>(
    rt: &R,
    alloc: Global,
    script: &[u8],
    wire: &mut W,
    gate: &G,
    budget: u64,
    text: &[u8],
) -> bool
where
    W::End: Send,
{
    let Some(sink) = written(rt, alloc, script, wire, gate, budget) else {
        return false;
    };
    sink.held() == text
}
