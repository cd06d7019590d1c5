//! Two hosts of one slot, put together by hand, with a line of three streams in memory between them: what the tests of lines have.
ghost use Rattle.std.specs.Prelude.{◌≤◌, All, IfOk, IfSome, length};
ghost use Rattle.rds_line_channel.specs.Streams.{AreNumbered, IsUnused};
ghost use Rattle.rds_wire.specs.declared.kind.TheConstants.{MAX_LENGTH};

mod outcome;
mod seed;
mod ways;

use crate::{LineHost, PORT};
pub use outcome::{Outcome, run_out};
use rds_line::Turn;
use rds_link::{End, MemEnd, MemWire, Wire};
use rds_model::Order;
use rds_wire::{Memory, Payload};
pub use seed::Seed;
use std::alloc::Global;
use std::net::Net;
use std::sync::Wait;
use std::thread::Threads;
pub use ways::{NEW, Way, cancel, send_next, take_next};

// How many entries a journal may have.
const LIMIT: u32 = 100_000;

/// Two hosts and their lines.
pub type Both<E> = (LineHost<E>, LineHost<E>);

// The streams of a line, with the numbers 1, 3 and 5.
fn three<E: End>(alloc: Global, first: E, second: E, third: E) -> Result<Vec<(u32, E)>, Memory>
    requires first { IsUnused E.means first }
    requires second { IsUnused E.means second }
    requires third { IsUnused E.means third }
    ensures numbered { IfOk result (λ streams. AreNumbered streams.items) }
    ensures unused { IfOk result (λ streams. All (λ stream. IsUnused E.means stream.1) streams.items) }
{
    let mut streams = Vec::with_capacity(alloc, 3)?;
    streams.push((1, first))?;
    streams.push((3, second))?;
    streams.push((5, third))?;
    Ok(streams)
}

// A host with these ends of its three streams.
fn host<E: End>(
    alloc: Global,
    me: u32,
    peer: u32,
    first: E,
    second: E,
    third: E,
) -> Option<LineHost<E>>
    requires first { IsUnused E.means first }
    requires second { IsUnused E.means second }
    requires third { IsUnused E.means third }
{
    let streams = three(alloc, first, second, third).ok()?;
    LineHost::new(alloc, me, peer, streams, LIMIT).ok()
}

// The two ends of a stream.
fn opened<W: Wire, R: Threads + Wait + Net>(
    rt: &R,
    wire: &mut W,
    number: u32,
) -> Option<(W::End, W::End)>
    ensures first { IfSome result (λ ends. IsUnused W.End.means ends.0) }
    ensures second { IfSome result (λ ends. IsUnused W.End.means ends.1) }
{
    wire.open(rt, 1, 2, number).ok()
}

// Two hosts over three streams of this wire.
fn joined<W: Wire, R: Threads + Wait + Net>(
    rt: &R,
    alloc: Global,
    wire: &mut W,
) -> Option<Both<W::End>> {
    let (a, b) = opened(rt, wire, 1)?;
    let (c, d) = opened(rt, wire, 3)?;
    let (e, f) = opened(rt, wire, 5)?;
    Some((host(alloc, 1, 2, a, c, e)?, host(alloc, 2, 1, b, d, f)?))
}

/// Two hosts over three streams in memory, of whose ends the calls with these numbers fail.
pub fn hosts<R: Threads + Wait + Net>(
    rt: &R,
    alloc: Global,
    fail: Vec<u32>,
) -> Option<Both<MemEnd>> {
    let mut wire = MemWire::new(alloc, Vec::new(alloc), fail);
    joined(rt, alloc, &mut wire)
}

/// A datagram from the host's slot to the peer's port.
pub fn send<E: End>(rt: &impl Wait, alloc: Global, host: &mut LineHost<E>, bytes: &[u8]) -> bool
    requires { length bytes.now ≤ MAX_LENGTH }
{
    let Ok(payload) = Payload::copy_of(alloc, bytes) else {
        return false;
    };
    let order = Order::Send {
        slot: 0,
        sport: PORT,
        dport: PORT,
        payload,
    };
    host.ask(rt, order)
}

/// Turns both lines so many times, and answers what the last turns answered.
pub fn turns<E: End>(rt: &impl Wait, both: &mut Both<E>, count: u32) -> (Turn, Turn) {
    let mut last = (Turn::Idle, Turn::Idle);
    for _ in 0..count {
        last = (both.0.turn(rt), both.1.turn(rt));
    }
    last
}
