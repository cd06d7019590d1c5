//! A host that is made, and one that ends.
ghost use Rattle.std.specs.Prelude.{◌≡◌, ◌≤◌, ◌∷◌, [], IfOk, IfSome, All, length};
ghost use Rattle.rds_link.specs.Memory.{memory_means};
ghost use Rattle.rds_line_channel.specs.Streams.{AreNumbered, IsUnused};
ghost use Rattle.rds_host.specs.Passes.{AreAllPasses};
ghost use Rattle.rds_host.specs.Ties.{AreOfHost};

use super::tried::Tried;
use rds_fmap::{Reader, Writer};
use rds_host::make;
use rds_host_end::gather as gather_host;
use rds_line::Line;
use rds_link::{MemEnd, MemWire, Wire};
use rds_model::MAX_ENTRIES;
use rds_socket::{Closed, Vacant};
use rds_text::HostEnd;
use rds_wire::Memory;
use std::alloc::Global;
use std::net::Net;
use std::sync::Wait;
use std::thread::Threads;

/// The slots of a host, and its lines.
type Parts = (Vec<Vacant<Reader>>, Vec<Line<MemEnd, Writer>>);

/// The host, and its peer.
const ME: u32 = 0x0a00_0001;

const PEER: u32 = 0x0a00_0002;

fn wire(alloc: Global) -> MemWire {
    MemWire::new(alloc, Vec::new(alloc), Vec::new(alloc))
}

// The stream 1, with this end.
fn one(alloc: Global, end: MemEnd) -> Option<Vec<(u32, MemEnd)>>
    requires { IsUnused memory_means end }
    ensures numbered { IfSome result (λ one. AreNumbered one.items) }
    ensures unused { IfSome result (λ one. All (λ stream. IsUnused memory_means stream.1) one.items) }
{
    let mut one = Vec::with_capacity(alloc, 1).ok()?;
    one.push((1, end)).ok()?;
    Some(one)
}

// An end of one stream.
fn opened<R: Threads + Wait + Net>(
    rt: &R,
    alloc: Global,
    wire: &mut MemWire,
) -> Option<Vec<(u32, MemEnd)>>
    ensures numbered { IfSome result (λ one. AreNumbered one.items) }
    ensures unused { IfSome result (λ one. All (λ stream. IsUnused memory_means stream.1) one.items) }
{
    let (end, _other) = wire.open(rt, ME, PEER, 1).ok()?;
    one(alloc, end)
}

// The streams to the only peer, as `make` takes them.
fn alone(alloc: Global, one: Vec<(u32, MemEnd)>) -> Result<Vec<Vec<(u32, MemEnd)>>, Memory>
    ensures { IfOk result (λ list. list.items ≡ one ∷ []) }
{
    let mut list = Vec::with_capacity(alloc, 1)?;
    list.push(one)?;
    Ok(list)
}

// A host with so many slots.
fn made(alloc: Global, slots: u16, one: Vec<(u32, MemEnd)>) -> Result<Parts, Memory>
    requires slots { (1 ≤ slots) × (slots ≤ 8) }
    requires numbered { AreNumbered one.items }
    requires unused { All (λ stream. IsUnused memory_means stream.1) one.items }
    ensures count { IfOk result (λ host. length host.0.items ≡ slots) }
    ensures host { IfOk result (λ host. AreOfHost host.0.items host.1.items) }
    ensures passes { IfOk result (λ host. AreAllPasses host.0.items host.1.items) }
{
    let streams = alone(alloc, one)?;
    make(alloc, ME, &[PEER], slots, streams, MAX_ENTRIES)
}

pub fn host<R: Threads + Wait + Net>(rt: &R, alloc: Global) -> Option<Tried> {
    let mut wire = wire(alloc);
    let first = opened(rt, alloc, &mut wire)?;
    let second = opened(rt, alloc, &mut wire)?;
    if let Ok((slots, _lines)) = made(alloc, 8, first) {
        return Some(Tried::of(false, slots.len()));
    }
    let (slots, _lines) = made(alloc, 8, second).ok()?;
    Some(Tried::of(true, slots.len()))
}

pub fn gather<R: Threads + Wait + Net>(rt: &R, alloc: Global) -> Option<Tried> {
    let mut wire = wire(alloc);
    if let Ok(end) = gathered(rt, alloc, &mut wire)? {
        return Some(Tried::of(false, end.journals.len()));
    }
    let end = gathered(rt, alloc, &mut wire)?.ok()?;
    Some(Tried::of(true, end.journals.len()))
}

// What is left of a new host.
fn gathered<R: Threads + Wait + Net>(
    rt: &R,
    alloc: Global,
    wire: &mut MemWire,
) -> Option<Result<HostEnd, Memory>> {
    let one = opened(rt, alloc, wire)?;
    let (slots, lines) = made(alloc, 1, one).ok()?;
    let closed = finished(alloc, slots)?;
    Some(gather_host(rt, alloc, wire, ME, Vec::new(alloc), closed, lines))
}

// The only slot, ended.
fn finished(alloc: Global, mut slots: Vec<Vacant<Reader>>) -> Option<Vec<Closed<Reader>>>
    requires { length slots.items ≡ 1 }
    ensures { IfSome result (λ closed. closed.items ≡ slots.items) }
{
    let slot = slots.pop()?;
    vec![in alloc; slot.finish()].ok()
}
