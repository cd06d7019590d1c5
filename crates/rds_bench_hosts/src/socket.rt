//! What a send, a receipt and a poll of a socket cost on one thread, beside the plain queue below them.
mod bound;
mod plain;
mod polls;
mod receipts;
mod sends;

use std::alloc::{AllocError, AllocGlobal};
use std::io::Print;
use std::random::RandomSource;
use std::sync::Wait;
use std::time::{Clock, Duration, Instant};

const FEW: u32 = 1000;

/// Writes how many of a few rounds did what they are to.
pub fn show<R: Print + Wait + AllocGlobal + RandomSource>(rt: &R) -> anyhow::Result<()> {
    let sent = sends::sent(rt, FEW).ok_or(AllocError)?;
    let received = receipts::received(rt, FEW).ok_or(AllocError)?;
    let pending = polls::pending(rt, FEW).ok_or(AllocError)?;
    let passed = plain::passed(rt, FEW).ok_or(AllocError)?;
    println!(rt; "socket: sent {sent}, received {received}, pending {pending}, plain {passed}")?;
    Ok(())
}

/// Measures so many rounds of each kind.
pub fn measure<R: Print + Wait + Clock + AllocGlobal + RandomSource>(
    rt: &R,
    rounds: u32,
) -> anyhow::Result<()> {
    let start = Instant::now(rt)?;
    let done = sends::sent(rt, rounds).ok_or(AllocError)?;
    tell(rt, "send and get", done, start.elapsed(rt)?)?;
    let start = Instant::now(rt)?;
    let done = receipts::received(rt, rounds).ok_or(AllocError)?;
    tell(rt, "put and recv", done, start.elapsed(rt)?)?;
    let start = Instant::now(rt)?;
    let done = polls::pending(rt, rounds).ok_or(AllocError)?;
    tell(rt, "poll_recv that finds nothing", done, start.elapsed(rt)?)?;
    let start = Instant::now(rt)?;
    let done = plain::passed(rt, rounds).ok_or(AllocError)?;
    tell(
        rt,
        "push and pop of the plain queue",
        done,
        start.elapsed(rt)?,
    )
}

/// Makes so many rounds of one kind alone, for a program that counts its allocations.
pub fn repeat<R: Print + Wait + AllocGlobal + RandomSource>(
    rt: &R,
    kind: &str,
    rounds: u32,
) -> anyhow::Result<()> {
    let done = match kind {
        "send" => sends::sent(rt, rounds),
        "recv" => receipts::received(rt, rounds),
        "poll" => polls::pending(rt, rounds),
        _ => plain::passed(rt, rounds),
    };
    println!(rt; "{}", done.ok_or(AllocError)?)?;
    Ok(())
}

// So many rounds in so long a time, as nanoseconds a round.
fn tell(rt: &impl Print, kind: &str, done: u32, took: Duration) -> anyhow::Result<()> {
    let tenths = took.as_nanos() * 10 / u128::from(done.max(1));
    println!(rt; "{kind}: {}.{} ns", tenths / 10, tenths % 10)?;
    Ok(())
}
