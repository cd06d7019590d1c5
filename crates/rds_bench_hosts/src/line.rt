//! What a datagram costs on its way through two lines, from the queue of orders at one host to the mailbox at the other, on one
//! thread and on two.
mod hosts;
mod moving;

use hosts::{Both, Sender};
use moving::BATCH;
use std::alloc::{AllocError, Global};
use std::io::Print;
use std::net::Net;
use std::sync::Wait;
use std::thread::Threads;
use std::time::{Clock, CpuClock, Instant};

/// How many datagrams are moved where no word says it.
const FEW: u32 = 1_000;

/// The payloads that are measured, in bytes.
const LENGTHS: [usize; 3] = [8, 60, 1_024];

/// Writes how many of a few came.
pub fn show<R: Print + Threads + Wait + Net + Sync>(rt: &R, alloc: Global) -> anyhow::Result<()> {
    let (_, one) = one(rt, alloc, FEW / BATCH, BATCH, 60).ok_or(AllocError)?;
    let (_, two) = two(rt, alloc, FEW, 60).ok_or(AllocError)?;
    println!(rt; "line: {one} came by one thread, {two} by two")?;
    Ok(())
}

/// Measures so many datagrams of each length.
pub fn measure<R: Print + Threads + Wait + Net + Sync + Clock + CpuClock>(
    rt: &R,
    alloc: Global,
    count: u32,
) -> anyhow::Result<()> {
    for length in LENGTHS {
        measure_one(rt, alloc, count / BATCH, BATCH, length)?;
        measure_one(rt, alloc, count, 1, length)?;
        measure_two(rt, alloc, count, length)?;
    }
    Ok(())
}

// What one thread takes for so many batches. The hosts are kept until that is measured.
fn measure_one<R: Print + Threads + Wait + Net + CpuClock>(
    rt: &R,
    alloc: Global,
    batches: u32,
    batch: u32,
    length: usize,
) -> anyhow::Result<()> {
    let start = rt.thread_cpu_time()?;
    let (_both, came) = one(rt, alloc, batches, batch, length).ok_or(AllocError)?;
    let spent = rt.thread_cpu_time()?.saturating_sub(start);
    let each = spent.as_nanos() / u128::from(came.max(1));
    println!(rt;
        "{came} of {length} bytes by one thread, in batches of {batch}: {each} ns of processor time each"
    )?;
    Ok(())
}

// How long two threads take for so many. The hosts are kept until that is measured.
fn measure_two<R: Print + Threads + Wait + Net + Sync + Clock>(
    rt: &R,
    alloc: Global,
    count: u32,
    length: usize,
) -> anyhow::Result<()> {
    let start = Instant::now(rt)?;
    let (_both, came) = two(rt, alloc, count, length).ok_or(AllocError)?;
    let each = start.elapsed(rt)?.as_nanos() / u128::from(came.max(1));
    println!(rt; "{came} of {length} bytes by two threads: {each} ns each")?;
    Ok(())
}

// The hosts after one thread moved so many batches, and how many datagrams came.
fn one<R: Threads + Wait + Net>(
    rt: &R,
    alloc: Global,
    batches: u32,
    batch: u32,
    length: usize,
) -> Option<(Both, u32)> {
    let mut both = hosts::two(rt, alloc)?;
    let mut sender = Sender::new(alloc, length)?;
    let came = moving::by_one(rt, &mut both, &mut sender, batches, batch)?;
    Some((both, came))
}

// The hosts after two threads moved so many datagrams, and how many came.
fn two<R: Threads + Wait + Net + Sync>(
    rt: &R,
    alloc: Global,
    count: u32,
    length: usize,
) -> Option<(Both, u32)> {
    let both = hosts::two(rt, alloc)?;
    let sender = Sender::new(alloc, length)?;
    Some(moving::by_two(rt, both, sender, count))
}
