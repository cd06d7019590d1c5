//! Two hosts over one stream in memory, and what one of them sends.
ghost use Rattle.std.specs.Prelude.{◌≤◌, IfSome, length};
ghost use Rattle.rds_link.specs.Memory.{memory_means};
ghost use Rattle.rds_line_channel.specs.Streams.{IsUnused};
ghost use Rattle.rds_wire.specs.declared.kind.TheConstants.{MAX_LENGTH};

use rds_link::{MemEnd, MemWire, Wire};
use rds_model::{MAX_ENTRIES, Order};
use rds_test_hosts::{LineHost, PORT};
use rds_wire::{Memory, Payloads};
use std::alloc::Global;
use std::net::Net;
use std::sync::Wait;
use std::thread::Threads;

/// Two hosts.
pub type Both = (LineHost<MemEnd>, LineHost<MemEnd>);

/// Two hosts over one stream.
pub fn two<R: Threads + Wait + Net>(rt: &R, alloc: Global) -> Option<Both> {
    let (a, b) = ends(rt, alloc)?;
    let first = host(alloc, 1, 2, a).ok()?;
    let second = host(alloc, 2, 1, b).ok()?;
    Some((first, second))
}

// The two ends of a stream in memory.
fn ends<R: Threads + Wait + Net>(rt: &R, alloc: Global) -> Option<(MemEnd, MemEnd)>
    ensures first { IfSome result (λ ends. IsUnused memory_means ends.0) }
    ensures second { IfSome result (λ ends. IsUnused memory_means ends.1) }
{
    let mut wire = MemWire::new(alloc, Vec::new(alloc), Vec::new(alloc));
    wire.open(rt, 1, 2, 1).ok()
}

fn host(alloc: Global, me: u32, peer: u32, end: MemEnd) -> Result<LineHost<MemEnd>, Memory>
    requires { IsUnused memory_means end }
{
    let mut streams = Vec::with_capacity(alloc, 1)?;
    streams.push((1, end))?;
    LineHost::new(alloc, me, peer, streams, MAX_ENTRIES)
}

/// Sends datagrams of one length, which share blocks of memory.
pub struct Sender {
    payloads: Payloads,
    bytes: Vec<u8>,
    ghost short: { length bytes.items ≤ MAX_LENGTH },
}

// By hand, so that one call drops it wherever it is let go, and no function that owns one drops each field.
impl Drop for Sender {
    fn drop(self) {
        let Self {
            payloads: _payloads,
            bytes: _bytes,
        } = self;
    }
}

impl Sender {
    /// Datagrams of so many bytes, at most 1,048,576.
    pub fn new(alloc: Global, length: usize) -> Option<Sender> {
        let mut bytes = vec![in alloc; 7u8; length].ok()?;
        bytes.truncate(1_048_576);
        Some(Sender {
            payloads: Payloads::new(alloc),
            bytes,
        })
    }

    /// Gives a host's line one datagram for the peer's port. `false` where there is no memory for it.
    pub fn send(&mut self, rt: &impl Wait, host: &mut LineHost<MemEnd>) -> bool {
        let Ok(payload) = self.payloads.copy_of(&self.bytes) else {
            return false;
        };
        let order = Order::Send {
            slot: 0,
            sport: PORT,
            dport: PORT,
            payload,
        };
        host.ask(rt, order)
    }
}
