//! How many looks and publications a second the maps of peers give: over words, over the two copies of `left_right`, and over
//! plain atomic words without versions.
mod looks;
mod plain;
mod publications;

ghost use Rattle.std.specs.Prelude.{◌≤◌};

use rds_cong::PortMap;
use std::alloc::{AllocError, Global};
use std::io::Print;
use std::sync::Wait;
use std::thread::Threads;
use std::time::{Clock, Duration, Instant};

const FEW: u32 = 1000;

/// Writes what a few looks and publications give.
pub fn show<R: Print + Threads + Wait + Sync>(rt: &R, alloc: Global) -> anyhow::Result<()> {
    let map = looks::congested(alloc).ok_or(AllocError)?;
    let words = looks::of_words(rt, alloc, &map, FEW).ok_or(AllocError)?;
    let all_words = looks::of_words_by_four(rt, alloc, &map, FEW).ok_or(AllocError)?;
    let copies = looks::of_copies(rt, alloc, &map, FEW).ok_or(AllocError)?;
    let plain = looks::of_plain(alloc, &map, FEW).ok_or(AllocError)?;
    print!(rt; "map: looks {words} {all_words} {copies} {plain}, ")?;
    let words = publications::of_words(rt, alloc, &map, 2).ok_or(AllocError)?;
    let copies = publications::of_copies(rt, alloc, &map, 2).ok_or(AllocError)?;
    let plain = publications::of_plain(alloc, &map, 2).ok_or(AllocError)?;
    println!(rt; "publications {words} {copies} {plain}")?;
    Ok(())
}

/// Measures so many looks of each thread, and a thousandth as many publications.
pub fn measure<R: Print + Threads + Wait + Clock + Sync>(
    rt: &R,
    alloc: Global,
    rounds: u32,
) -> anyhow::Result<()> {
    let map = looks::congested(alloc).ok_or(AllocError)?;
    measure_looks(rt, alloc, &map, rounds)?;
    measure_publications(rt, alloc, &map, rounds / 1000)
}

fn measure_looks<R: Print + Threads + Wait + Clock + Sync>(
    rt: &R,
    alloc: Global,
    map: &PortMap,
    rounds: u32,
) -> anyhow::Result<()> {
    let start = Instant::now(rt)?;
    let done = looks::of_words(rt, alloc, map, rounds).ok_or(AllocError)?;
    tell(rt, "looks over words, 1 thread", done, start.elapsed(rt)?)?;
    let start = Instant::now(rt)?;
    let done = looks::of_words_by_four(rt, alloc, map, rounds).ok_or(AllocError)?;
    tell(rt, "looks over words, 4 threads", done, start.elapsed(rt)?)?;
    let start = Instant::now(rt)?;
    let done = looks::of_copies(rt, alloc, map, rounds).ok_or(AllocError)?;
    tell(rt, "looks over copies, 1 thread", done, start.elapsed(rt)?)?;
    let start = Instant::now(rt)?;
    let done = looks::of_plain(alloc, map, rounds).ok_or(AllocError)?;
    tell(
        rt,
        "looks over plain atomics, 1 thread",
        done,
        start.elapsed(rt)?,
    )
}

fn measure_publications<R: Print + Wait + Clock + Sync>(
    rt: &R,
    alloc: Global,
    map: &PortMap,
    rounds: u32,
) -> anyhow::Result<()>
    requires { rounds ≤ 4294967 }
{
    let start = Instant::now(rt)?;
    let done = publications::of_words(rt, alloc, map, rounds).ok_or(AllocError)?;
    tell(rt, "publications over words", done, start.elapsed(rt)?)?;
    let start = Instant::now(rt)?;
    let done = publications::of_copies(rt, alloc, map, rounds).ok_or(AllocError)?;
    tell(rt, "publications over copies", done, start.elapsed(rt)?)?;
    let start = Instant::now(rt)?;
    let done = publications::of_plain(alloc, map, rounds).ok_or(AllocError)?;
    tell(
        rt,
        "publications over plain atomics",
        done,
        start.elapsed(rt)?,
    )
}

// So many steps in so long a time, by the second.
fn tell(rt: &impl Print, kind: &str, done: u64, took: Duration) -> anyhow::Result<()> {
    let each = u128::from(done) * 1_000_000_000 / took.as_nanos().max(1);
    println!(rt; "{kind}: {each} a second")?;
    Ok(())
}
