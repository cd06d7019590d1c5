//! How a host ends.
ghost use Rattle.std.specs.Prelude.{◌≡◌, IfOk, map};
ghost use Rattle.rds_host.specs.Keeping.{SlotKeeps};
ghost use Rattle.rds_example_hosts.specs.Hosts.{AreTied, IsHost};

use crate::hosts::{Host, Lines, out_of_memory};
use rds_fmap::Reader;
use rds_host::laws::{host_keeps, lines_keep, slots_keep, turned_keeps};
use rds_host::{Stop, settle, work};
use rds_host_end::gather;
use rds_link::{MemEnd, MemWire};
use rds_model::{Entry, Journal};
use rds_socket::{Closed, Socket};
use std::alloc::AllocGlobal;
use std::io::Print;
use std::net::Ipv4Addr;
use std::sync::Wait;

/// Ends a host: closes its socket, turns its line a last time, takes the host apart, and shows how many datagrams it accepted.
pub fn end_host<R: Print + Wait + AllocGlobal>(
    rt: &R,
    wire: &mut MemWire,
    address: u32,
    host: Host,
) -> anyhow::Result<()>
    requires { IsHost host.socket host.lines.items }
{
    let (closed, lines) = close_host(rt, host)?;
    let kept = Vec::new(rt.alloc());
    let end = gather(rt, rt.alloc(), wire, address, kept, closed, lines).map_err(out_of_memory)?;
    for (peer, journal) in &end.journals {
        let host = Ipv4Addr::from(address);
        let peer = Ipv4Addr::from(*peer);
        println!(rt;
            "Datagrams that {host} accepted for {peer}: {}.",
            accepted(journal)
        )?;
    }
    Ok(())
}

// Closes a host's socket and ends its lines.
fn close_host<R: Wait + AllocGlobal>(
    rt: &R,
    host: Host,
) -> anyhow::Result<(Vec<Closed<Reader>>, Lines)>
    requires { IsHost host.socket host.lines.items }
    ensures { IfOk result (λ left. AreTied left.0.items left.1.items) }
{
    host_keeps::<MemEnd>();
    lines_keep::<MemEnd>();
    let Host { socket, lines } = host;
    let slot = socket.slot();
    let closed = vec![in rt.alloc(); close(rt, socket)?]?;
    Ok(settled(rt, closed, &[slot], lines))
}

// Tells the slots and the lines what the others have put, and turns the lines a last time, until nothing moves.
fn settled<R: Wait>(
    rt: &R,
    mut closed: Vec<Closed<Reader>>,
    numbers: &[u16],
    mut lines: Lines,
) -> (Vec<Closed<Reader>>, Lines)
    requires numbers { numbers.now ≡ map (λ h. h.words.slot) closed.items }
    requires tied { AreTied closed.items lines.items }
    ensures { AreTied result.0.items result.1.items }
{
    host_keeps::<MemEnd>();
    slots_keep();
    turned_keeps::<MemEnd>();
    settle(&mut [], &mut closed, numbers, &mut lines);
    let stop = Stop::new();
    stop.set();
    let lines = work(rt, lines, &stop);
    (closed, lines)
}

// Closes a socket: its line is told to take back what its peer hasn't acknowledged.
fn close<R: Wait>(rt: &R, socket: Socket<Reader>) -> anyhow::Result<Closed<Reader>>
    ensures slot { IfOk result (SlotKeeps socket.own) }
{
    match socket.close(rt) {
        Ok(closed) => Ok(closed),
        Err((_, memory)) => Err(out_of_memory(memory).into()),
    }
}

// How many datagrams a line accepted.
fn accepted(journal: &Journal) -> u32 {
    let mut count = 0;
    for place in 0..journal.len() {
        if let Some(Entry::Accept { .. }) = journal.at(place) {
            count += 1;
        }
    }
    count
}
