//! What a datagram costs on its way through two connections: processor time and memory.
mod end;
mod pair;

use crate::memory;
use anyhow::anyhow;
use pair::BenchPair;
use rds_conn::ConnError;
use std::alloc::Global;
use std::io::Print;
use std::rt::Files;
use std::time::{CpuClock, Duration};

/// How many datagrams are sent where no word says it.
const FEW: u64 = 4096;

/// How many datagrams are accepted before bytes move.
pub const BATCH: u64 = 64;

/// How many bytes a datagram has.
pub const LENGTH: usize = 60;

/// Writes what became of a few datagrams.
pub fn show(rt: &(impl Print + AllocGlobal)) -> anyhow::Result<()> {
    let pair = sent(rt.alloc(), FEW, BATCH, LENGTH).map_err(failed)?;
    let delivered = pair.delivered();
    let freed = pair.freed();
    rt.println(format_args!("conn: {delivered} datagrams went through, {freed} bytes freed"))?;
    Ok(())
}

/// Measures what each of many datagrams costs. The connections are kept until that is done.
pub fn measure(
    rt: &(impl CpuClock + Files + Print + AllocGlobal),
    count: u64,
    batch: u64,
    length: usize,
) -> anyhow::Result<()> {
    let before = memory::peak(rt)?;
    let start = rt.thread_cpu_time()?;
    let pair = sent(rt.alloc(), count, batch, length).map_err(failed)?;
    let spent = rt.thread_cpu_time()?.saturating_sub(start);
    let grown = memory::peak(rt)?.saturating_sub(before);
    report(rt, batch, length, pair.delivered(), spent, grown)
}

fn report(
    rt: &impl Print,
    batch: u64,
    length: usize,
    delivered: u64,
    spent: Duration,
    grown: u64,
) -> anyhow::Result<()> {
    let nanos = spent.as_nanos() / u128::from(delivered.max(1));
    let bytes = grown / delivered.max(1);
    rt.println(format_args!(
        "{delivered} datagrams of {length} bytes, in batches of {batch}: {nanos} ns and {bytes} bytes of memory each"
    ))?;
    Ok(())
}

// Why a connection ended early.
fn failed(error: ConnError) -> anyhow::Error {
    anyhow!("a connection failed: {error:?}")
}

// Two connections that so many datagrams went through.
fn sent(alloc: Global, count: u64, batch: u64, length: usize) -> Result<BenchPair, ConnError> {
    let mut pair = BenchPair::new(alloc, length)?;
    pair.open()?;
    pair.send(count, batch)?;
    Ok(pair)
}
