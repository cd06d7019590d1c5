//! Two hosts over two streams in memory.
ghost use Rattle.std.specs.Prelude.{◌≤◌, All, IfOk, IfSome};
ghost use Rattle.rds_link.specs.Memory.{memory_means};
ghost use Rattle.rds_line_channel.specs.Streams.{AreNumbered, IsUnused};

use rds_link::{MemEnd, MemWire, Wire};
use rds_test_hosts::LineHost;
use rds_wire::Memory;
use std::alloc::Global;
use std::net::Net;
use std::sync::Wait;
use std::thread::Threads;

/// How many entries a journal may have.
const LIMIT: u32 = 100_000;

/// The two hosts.
pub type Both = (LineHost<MemEnd>, LineHost<MemEnd>);

/// Two hosts over two streams.
pub fn two<R: Threads + Wait + Net>(rt: &R, alloc: Global) -> Option<Both> {
    let mut wire = MemWire::new(alloc, Vec::new(alloc), Vec::new(alloc));
    let (a, b) = opened(rt, &mut wire, 1)?;
    let (c, d) = opened(rt, &mut wire, 3)?;
    let first = host(alloc, 1, 2, a, c).ok()?;
    let second = host(alloc, 2, 1, b, d).ok()?;
    Some((first, second))
}

// The two ends of a stream.
fn opened<R: Threads + Wait + Net>(
    rt: &R,
    wire: &mut MemWire,
    number: u32,
) -> Option<(MemEnd, MemEnd)>
    ensures first { IfSome result (λ ends. IsUnused memory_means ends.0) }
    ensures second { IfSome result (λ ends. IsUnused memory_means ends.1) }
{
    wire.open(rt, 1, 2, number).ok()
}

// A host with these ends of both streams.
fn host(
    alloc: Global,
    me: u32,
    peer: u32,
    first: MemEnd,
    second: MemEnd,
) -> Result<LineHost<MemEnd>, Memory>
    requires first { IsUnused memory_means first }
    requires second { IsUnused memory_means second }
{
    LineHost::new(alloc, me, peer, streams(alloc, first, second)?, LIMIT)
}

// The streams of a line, with the numbers 1 and 3.
fn streams(alloc: Global, first: MemEnd, second: MemEnd) -> Result<Vec<(u32, MemEnd)>, Memory>
    requires first { IsUnused memory_means first }
    requires second { IsUnused memory_means second }
    ensures numbered { IfOk result (λ streams. AreNumbered streams.items) }
    ensures unused { IfOk result (λ streams. All (λ stream. IsUnused memory_means stream.1) streams.items) }
{
    let mut streams = Vec::with_capacity(alloc, 2)?;
    streams.push((1, first))?;
    streams.push((3, second))?;
    Ok(streams)
}
