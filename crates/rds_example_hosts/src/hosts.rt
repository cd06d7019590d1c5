//! The two hosts of the example, and how they are made.
ghost use Rattle.std.specs.Prelude.{◌≡◌, ◌∷◌, [], None, IfOk, length};
ghost use Rattle.rds_link.specs.Memory.{memory_means};
ghost use Rattle.rds_line_channel.specs.Streams.{IsUnused};
ghost use Rattle.rds_host.specs.Keeping.{SlotKeeps};
ghost use Rattle.rds_example_hosts.specs.Hosts.{IsHost};

use rds_fmap::{Reader, Writer};
use rds_host::laws::{host_keeps, lines_keep};
use rds_host::make;
use rds_line::Line;
use rds_link::{MemEnd, MemWire, Wire};
use rds_model::MAX_ENTRIES;
use rds_socket::{Socket, Vacant};
use rds_wire::Memory;
use std::alloc::{AllocError, AllocGlobal, Global};
use std::net::Net;
use std::sync::Wait;
use std::thread::Threads;

/// Host A, by its IPv4 address: 10.0.0.1. Its socket has port 4000.
pub const A: u32 = 0x0a00_0001;

/// Host B: 10.0.0.2. Its socket has port 4001.
pub const B: u32 = 0x0a00_0002;

/// The lines of a host, here one.
pub type Lines = Vec<Line<MemEnd, Writer>>;

/// A host: the socket in its only slot, and its lines.
#[derive(Drop)]
pub struct Host {
    pub socket: Socket<Reader>,
    pub lines: Lines,
}

/// Two hosts over one stream.
pub fn two_hosts<R: Threads + Wait + Net + AllocGlobal>(
    rt: &R,
    wire: &mut MemWire,
) -> anyhow::Result<(Host, Host)>
    ensures a { IfOk result (λ hosts. IsHost hosts.0.socket hosts.0.lines.items) }
    ensures b { IfOk result (λ hosts. IsHost hosts.1.socket hosts.1.lines.items) }
{
    let Ok((low, high)) = wire.open(rt, A, B, 1) else {
        anyhow::bail!("the stream between the hosts can't be opened")
    };
    let a = make_host(rt.alloc(), A, B, low, 4000)?;
    let b = make_host(rt.alloc(), B, A, high, 4001)?;
    Ok((a, b))
}

// A host with one slot, whose socket has this port, and with a line to one peer.
fn make_host(alloc: Global, address: u32, peer: u32, end: MemEnd, port: u16) -> anyhow::Result<Host>
    requires { IsUnused memory_means end }
    ensures { IfOk result (λ host. IsHost host.socket host.lines.items) }
{
    let streams = vec![in alloc; vec![in alloc; (1, end)]?]?;
    let Ok((slots, lines)) = make(alloc, address, &[peer], 1, streams, MAX_ENTRIES) else {
        return Err(AllocError.into());
    };
    let socket = bind(only(slots), port)?;
    host_keeps::<MemEnd>();
    lines_keep::<MemEnd>();
    Ok(Host { socket, lines })
}

// The slot of a list of one.
fn only(mut slots: Vec<Vacant<Reader>>) -> Vacant<Reader>
    requires { length slots.items ≡ 1 }
    ensures { slots.items ≡ result ∷ [] }
{
    slots.pop().unwrap()
}

// A socket with this port, a send buffer of 4,096 bytes and a receive buffer of as many.
fn bind(vacant: Vacant<Reader>, port: u16) -> anyhow::Result<Socket<Reader>>
    ensures open { IfOk result (λ socket. socket.told ≡ None) }
    ensures slot { IfOk result (λ socket. SlotKeeps vacant socket.own) }
{
    match vacant.bind(port, 4096, 4096) {
        Ok(socket) => Ok(socket),
        Err((_, error)) => Err(error.into()),
    }
}

/// The error that a program answers where memory ran out.
pub fn out_of_memory(_memory: Memory) -> AllocError {
    AllocError
}
