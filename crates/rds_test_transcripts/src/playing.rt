ghost use Rattle.std.specs.Prelude.{◌≤◌};
ghost use Rattle.rds_model.specs.declared.journal.TheConstants.{MIN_ENTRIES, MAX_ENTRIES};

use rds_link::{MemSink, MemSource, MemWire, OpenGate};
use rds_model::{MAX_ENTRIES, MIN_ENTRIES};
use rds_play::{PlayEnd, play};
use rds_run::rds_main;
use rds_script::{Script, ScriptError, read};
use std::alloc::Global;
use std::net::Net;
use std::sync::Wait;
use std::thread::Threads;

/// What `rds` prints with these words, where a script comes on its input. In place of TCP it has streams in memory, of which the openings
/// with these numbers fail.
pub fn answer_to<R: Threads + Wait + Net + Sync>(
    rt: &R,
    alloc: Global,
    words: &[&str],
    fail_open: Vec<u32>,
    script: &[u8],
) -> anyhow::Result<Vec<u8>> {
    let words = owned(alloc, words)?;
    let mut source = MemSource::new(script.to_vec(alloc)?, Vec::new(alloc));
    let mut sink = MemSink::new(alloc, Vec::new(alloc));
    let mut tcp = MemWire::new(alloc, fail_open, Vec::new(alloc));
    let status = rds_main(
        rt,
        alloc,
        &words,
        &mut source,
        &mut sink,
        &mut tcp,
        &OpenGate,
    );
    told(alloc, &sink, status == 6)
}

// The words, each as a text of its own.
fn owned(alloc: Global, words: &[&str]) -> anyhow::Result<Vec<String>> {
    let mut all = Vec::new(alloc);
    for word in words {
        all.push(String::from_str(alloc, word)?)?;
    }
    Ok(all)
}

/// What `play` prints where a journal holds at most so many entries.
pub fn played_within(alloc: Global, text: &[u8], limit: u32) -> anyhow::Result<Vec<u8>> {
    let Ok(script) = read(alloc, text) else {
        return Err(anyhow::anyhow!("a refused script with a limit"));
    };
    let mut sink = MemSink::new(alloc, Vec::new(alloc));
    let end = play(alloc, &script, lawful(limit), &mut sink);
    told(alloc, &sink, end == PlayEnd::Memory)
}

// The nearest limit that a journal may have.
fn lawful(limit: u32) -> u32
    ensures least { MIN_ENTRIES ≤ result }
    ensures most { result ≤ MAX_ENTRIES }
{
    limit.min(MAX_ENTRIES).max(MIN_ENTRIES)
}

// The bytes that a sink holds.
fn told(alloc: Global, sink: &MemSink, is_out_of_memory: bool) -> anyhow::Result<Vec<u8>> {
    if is_out_of_memory {
        return Err(anyhow::anyhow!("out of memory"));
    }
    Ok(sink.held().to_vec(alloc)?)
}
