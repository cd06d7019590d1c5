//! The channels of two hosts to each other, over a wire in memory, and what the tests of channels do with one.
ghost use Rattle.std.specs.Prelude.{◌≡◌, ℕ, false, [], ◌∷◌, IfSome};
ghost use Rattle.rds_conn.specs.Passing.{Matches};
ghost use Rattle.rds_link.specs.Memory.{memory_means};
ghost use Rattle.rds_line_channel.specs.Meeting.{AtEach};
ghost use Rattle.rds_line_channel.specs.Streams.{IsUnused, numbers};

use rds_cong::PortMap;
use rds_conn::{Found, Pulled};
use rds_line_channel::*;
use rds_link::{End, Got, MemEnd, MemWire, Put, Wire};
use rds_model::{Order, Verdict};
use rds_wire::Payload;
use std::alloc::Global;
use std::net::Net;
use std::sync::Wait;
use std::thread::Threads;

/// The channels of two hosts to each other.
pub struct Both<E: End> {
    pub first: Channel<E>,
    pub second: Channel<E>,
}

// By hand, so that one call drops both.
impl<E: End> Drop for Both<E> {
    fn drop(self) {
        let Self {
            first: _first,
            second: _second,
        } = self;
    }
}

// The stream 1, with this end.
fn one<E: End>(alloc: Global, end: E) -> Option<Vec<(u32, E)>>
    ensures { IfSome result (λ list. list.items ≡ (1, end) ∷ []) }
{
    let mut streams = Vec::new(alloc);
    streams.push((1, end)).ok()?;
    Some(streams)
}

// A channel of a host with one socket, over the stream 1.
fn channel<E: End>(alloc: Global, me: u32, peer: u32, end: E) -> Option<Channel<E>>
    requires { IsUnused E.means end }
    ensures list { IfSome result (λ c. c.streams.list ≡ (1, end) ∷ []) }
    ensures closed { IfSome result (λ c. c.streams.is_open ≡ false) }
    ensures slots { IfSome result (λ c. c.conn.slots ≡ 1) }
{
    let streams = one(alloc, end)?;
    match Channel::new(alloc, me, peer, 1, 20, streams) {
        Ok(channel) => Some(channel),
        Err(_) => None,
    }
}

// The channels of two hosts over this wire.
fn joined<W: Wire, R: Threads + Wait + Net>(
    rt: &R,
    alloc: Global,
    wire: &mut W,
) -> Option<Both<W::End>>
    ensures numbers { IfSome result (λ both. numbers both.second.streams.list ≡ numbers both.first.streams.list) }
    ensures pairs { IfSome result (λ both. AtEach W.End.means.meets both.first.streams.list both.second.streams.list) }
    ensures closed { IfSome result (λ both. (both.first.streams.is_open ≡ false) × (both.second.streams.is_open ≡ false)) }
    ensures slots { IfSome result (λ both. both.first.conn.slots ≡ 1) }
{
    let Ok((a, b)) = wire.open(rt, 1, 2, 1) else {
        return None;
    };
    let first = channel(alloc, 1, 2, a)?;
    let second = channel(alloc, 2, 1, b)?;
    Some(Both { first, second })
}

/// A channel over the wire in memory.
pub type Line = Channel<MemEnd>;

/// The channels of two hosts over the wire in memory.
pub fn prepared<R: Threads + Wait + Net>(rt: &R, alloc: Global) -> Option<Both<MemEnd>>
    ensures numbers { IfSome result (λ both. numbers both.second.streams.list ≡ numbers both.first.streams.list) }
    ensures pairs { IfSome result (λ both. AtEach memory_means.meets both.first.streams.list both.second.streams.list) }
    ensures closed { IfSome result (λ both. (both.first.streams.is_open ≡ false) × (both.second.streams.is_open ≡ false)) }
    ensures slots { IfSome result (λ both. both.first.conn.slots ≡ 1) }
{
    let mut wire = MemWire::new(alloc, Vec::new(alloc), Vec::new(alloc));
    joined(rt, alloc, &mut wire)
}

/// Opens the next stream.
pub fn open(c: &mut Line) -> Option<bool>
    requires { c.old.streams.is_open ≡ false }
    ensures list { c.new.streams.list ≡ c.old.streams.list }
    ensures slots { c.new.conn.slots ≡ c.old.conn.slots }
{
    c.reserve().ok()?;
    Some(c.open_next())
}

/// Sends five bytes from port 4000 to port 4001.
pub fn send(c: &mut Line, alloc: Global) -> Option<()>
    requires { c.old.conn.slots ≡ 1 }
{
    c.reserve().ok()?;
    let payload = Payload::copy_of(alloc, b"hello").ok()?;
    c.order(Order::Send {
        slot: 0,
        sport: 4000,
        dport: 4001,
        payload,
    });
    Some(())
}

/// Pulls what is owed next, if a stream is open.
pub fn pull(c: &mut Line, map: &PortMap) -> Option<Pulled> {
    if !c.is_open() {
        return None;
    }
    c.reserve().ok()?;
    c.pull(map).ok()
}

/// Writes what is unwritten, if a stream is open.
pub fn write(c: &mut Line) -> Option<Put> {
    if !c.is_open() || c.unwritten() == 0 {
        return None;
    }
    Some(c.write())
}

/// Reads, if a stream is open and all that was read before was taken.
pub fn receive(c: &mut Line) -> Option<Got> {
    if !c.is_open() || c.untaken() > 0 {
        return None;
    }
    Some(c.receive())
}

/// Takes the next frame of what was read, if a stream is open.
pub fn take(c: &mut Line) -> Option<Taken> {
    if !c.is_open() {
        return None;
    }
    c.reserve().ok()?;
    c.take().ok()
}

fn found(verdict: Verdict) -> Found
    ensures { (slots : ℕ) → Matches slots verdict result }
{
    match verdict {
        Verdict::Deliver { .. } => Found::NoSocket,
        _ => Found::Unasked,
    }
}

/// Passes the frame that waits, and answers its verdict.
pub fn pass(c: &mut Line) -> Option<Verdict> {
    c.reserve().ok()?;
    let verdict = c.verdict()?;
    c.pass(found(verdict));
    Some(verdict)
}

/// Cuts the stream, if one is open.
pub fn cut(c: &mut Line) -> Option<()> {
    if !c.is_open() {
        return None;
    }
    c.reserve().ok()?;
    c.reserve_cut().ok()?;
    c.cut();
    Some(())
}

/// Reads from a stream that the other host has shut, ends it, and answers whether it is still open.
pub fn end_if_over(c: &mut Line) -> Option<bool> {
    if !c.is_open() || c.untaken() > 0 {
        return None;
    }
    c.reserve().ok()?;
    if let Got::Over = c.receive() {
        c.end_over();
    }
    Some(c.is_open())
}
