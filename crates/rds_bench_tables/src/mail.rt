//! How many items a second go through a mailbox, and through the plain queue below it, on one thread and from one thread to another.
mod mailed;
mod plain;

use std::alloc::{AllocError, Global};
use std::io::Print;
use std::sync::Wait;
use std::thread::Threads;
use std::time::{Clock, Duration, Instant};

const FEW: u32 = 1000;

/// Writes how many of a few items arrive.
pub fn show<R: Print + Threads + Wait + Sync>(rt: &R, alloc: Global) -> anyhow::Result<()> {
    let one = mailed::by_one(rt, alloc, FEW).ok_or(AllocError)?;
    let two = mailed::by_two(rt, alloc, FEW).ok_or(AllocError)?;
    let plain_one = plain::by_one(rt, alloc, FEW).ok_or(AllocError)?;
    let plain_two = plain::by_two(rt, alloc, FEW).ok_or(AllocError)?;
    println!(rt; "mail: pairs {one} {two}, plain pairs {plain_one} {plain_two}")?;
    Ok(())
}

/// Measures so many items.
pub fn measure<R: Print + Threads + Wait + Clock + Sync>(
    rt: &R,
    alloc: Global,
    rounds: u32,
) -> anyhow::Result<()> {
    let start = Instant::now(rt)?;
    let done = mailed::by_one(rt, alloc, rounds).ok_or(AllocError)?;
    tell(rt, "mailbox, 1 thread", done, start.elapsed(rt)?)?;
    let start = Instant::now(rt)?;
    let done = plain::by_one(rt, alloc, rounds).ok_or(AllocError)?;
    tell(rt, "plain queue, 1 thread", done, start.elapsed(rt)?)?;
    let start = Instant::now(rt)?;
    let done = mailed::by_two(rt, alloc, rounds).ok_or(AllocError)?;
    tell(rt, "mailbox, 2 threads", done, start.elapsed(rt)?)?;
    let start = Instant::now(rt)?;
    let done = plain::by_two(rt, alloc, rounds).ok_or(AllocError)?;
    tell(rt, "plain queue, 2 threads", done, start.elapsed(rt)?)
}

// So many items put and got in so long a time, as thousands a second.
fn tell(rt: &impl Print, kind: &str, done: u32, took: Duration) -> anyhow::Result<()> {
    let thousands = u128::from(done) * 1_000_000 / took.as_nanos().max(1);
    println!(rt; "{kind}: {thousands} thousand pairs a second")?;
    Ok(())
}
