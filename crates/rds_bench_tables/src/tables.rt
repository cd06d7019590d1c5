//! How many claims, looks and additions a second the shared tables give, from one thread and from four.
mod adds;
mod claims;
mod looks;

use std::alloc::{AllocError, Global};
use std::io::Print;
use std::thread::Threads;
use std::time::{Clock, Duration, Instant};

const FEW: u32 = 1000;

/// Writes what the tables have counted after a few steps.
pub fn show<R: Print + Threads + Sync>(rt: &R, alloc: Global) -> anyhow::Result<()> {
    let claimed = claims::by_one(alloc, FEW).ok_or(AllocError)?;
    let all_claimed = claims::by_four(rt, alloc, FEW).ok_or(AllocError)?;
    let found = looks::by_one(alloc, FEW).ok_or(AllocError)?;
    let all_found = looks::by_four(rt, alloc, FEW).ok_or(AllocError)?;
    let added = adds::by_one(alloc, FEW).ok_or(AllocError)?;
    let all_added = adds::by_four(rt, alloc, FEW).ok_or(AllocError)?;
    println!(rt;
        "tables: claims {claimed} {all_claimed}, looks {found} {all_found}, additions {added} {all_added}"
    )?;
    Ok(())
}

/// Measures so many steps of each kind.
pub fn measure<R: Print + Threads + Clock + Sync>(
    rt: &R,
    alloc: Global,
    rounds: u32,
) -> anyhow::Result<()> {
    let start = Instant::now(rt)?;
    let done = claims::by_one(alloc, rounds).ok_or(AllocError)?;
    tell(
        rt,
        "claims and releases, 1 thread",
        done,
        start.elapsed(rt)?,
    )?;
    let start = Instant::now(rt)?;
    let done = claims::by_four(rt, alloc, rounds).ok_or(AllocError)?;
    tell(
        rt,
        "claims and releases, 4 threads",
        done,
        start.elapsed(rt)?,
    )?;
    let start = Instant::now(rt)?;
    let done = looks::by_one(alloc, rounds).ok_or(AllocError)?;
    tell(rt, "looks, 1 thread", done, start.elapsed(rt)?)?;
    let start = Instant::now(rt)?;
    let done = looks::by_four(rt, alloc, rounds).ok_or(AllocError)?;
    tell(rt, "looks, 4 threads", done, start.elapsed(rt)?)?;
    let start = Instant::now(rt)?;
    let done = adds::by_one(alloc, rounds).ok_or(AllocError)?;
    tell(rt, "additions, 1 thread", done, start.elapsed(rt)?)?;
    let start = Instant::now(rt)?;
    let done = adds::by_four(rt, alloc, rounds).ok_or(AllocError)?;
    tell(rt, "additions, 4 threads", done, start.elapsed(rt)?)
}

// So many steps in so long a time, as thousands a second.
fn tell(rt: &impl Print, kind: &str, done: u64, took: Duration) -> anyhow::Result<()> {
    let thousands = u128::from(done) * 1_000_000 / took.as_nanos().max(1);
    println!(rt; "{kind}: {thousands} thousand a second")?;
    Ok(())
}
