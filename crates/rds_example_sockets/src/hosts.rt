//! The two hosts of the example, and how their sockets are bound.
ghost use Rattle.std.specs.Prelude.{◌≡◌, [], None, IfOk};

use rds_test_hosts::{Bound, HandmadeHost};
use rds_wire::Memory;
use std::alloc::{AllocError, Global};

/// Host A, by its IPv4 address: 10.0.0.1.
pub const A: u32 = 0x0a00_0001;

/// Host B: 10.0.0.2.
pub const B: u32 = 0x0a00_0002;

/// Host A with a socket at port 4000, and host B with one at port 4001.
pub fn two_hosts(alloc: Global) -> anyhow::Result<(Bound, Bound)>
    ensures told { IfOk result (λ r. r.0.socket.told ≡ None) }
    ensures map { IfOk result (λ r. r.0.map.published ≡ []) }
{
    let a = bind(alloc, A, B, 4000)?;
    let b = bind(alloc, B, A, 4001)?;
    Ok((a, b))
}

// A host of this address whose socket has a send buffer of 8 bytes and a receive buffer of 64.
fn bind(alloc: Global, address: u32, peer: u32, port: u16) -> anyhow::Result<Bound>
    ensures told { IfOk result (λ b. b.socket.told ≡ None) }
    ensures map { IfOk result (λ b. b.map.published ≡ []) }
{
    let host = HandmadeHost::new(alloc, address, peer).map_err(out_of_memory)?;
    Ok(host.bind(port, 8, 64)?)
}

/// The error that a program answers where memory ran out.
pub fn out_of_memory(_memory: Memory) -> AllocError {
    AllocError
}
