//! A run of eight hosts, every two of them connected, in which each caller has one command.
use crate::idle::pause::Pause;
use rds_link::{MemSink, MemSource, MemWire, Wire};
use rds_run::rds_main;
use rds_tcp::TcpWire;
use std::alloc::Global;
use std::net::{Net, TcpListener, TcpStream};
use std::sync::Wait;
use std::thread::Threads;
use std::time::{Clock, Duration};

// Each host has a socket, which looks once whether something came.
const SCRIPT: &[u8] = b"hosts 8\n\
bind A 4000 65536 65536\nbind B 4001 65536 65536\nbind C 4002 65536 65536\nbind D 4003 65536 65536\n\
bind E 4004 65536 65536\nbind F 4005 65536 65536\nbind G 4006 65536 65536\nbind H 4007 65536 65536\n\
recv A 4000\nrecv B 4001\nrecv C 4002\nrecv D 4003\n\
recv E 4004\nrecv F 4005\nrecv G 4006\nrecv H 4007\n";

/// The status of a run over streams in memory in which nobody waits.
pub fn run_in_memory<R: Threads + Wait + Net + Clock + Sync>(
    rt: &R,
    alloc: Global,
) -> anyhow::Result<u8> {
    let mut wire = MemWire::new(alloc, Vec::new(alloc), Vec::new(alloc));
    status_of(rt, alloc, "memory", &mut wire, 0)
}

/// The status of a run over TCP in which each caller waits for so many seconds.
pub fn run_over_tcp<R: Threads + Wait + Clock + Copy + Send + Sync + 'static>(
    rt: &R,
    alloc: Global,
    seconds: u64,
) -> anyhow::Result<u8>
where
    R: Net<Listener = TcpListener, Stream = TcpStream>,
{
    let mut wire = TcpWire::new(rt, alloc);
    let status = status_of(rt, alloc, "tcp", &mut wire, seconds);
    wire.finish(rt);
    status
}

// The status of a run over this wire, or over one in memory.
fn status_of<W: Wire, R: Threads + Wait + Net + Clock + Sync>(
    rt: &R,
    alloc: Global,
    name: &str,
    wire: &mut W,
    seconds: u64,
) -> anyhow::Result<u8>
where
    W::End: Send,
{
    let words = words(alloc, name)?;
    let mut source = MemSource::new(SCRIPT.to_vec(alloc)?, Vec::new(alloc));
    let mut sink = MemSink::new(alloc, Vec::new(alloc));
    let gate = Pause {
        rt,
        time: Duration::from_secs(seconds),
    };
    Ok(rds_main(rt, alloc, &words, &mut source, &mut sink, wire, &gate))
}

// The words of a run over the wire of this name.
fn words(alloc: Global, name: &str) -> anyhow::Result<Vec<String>> {
    let mut words = Vec::new(alloc);
    for word in ["run", "--wire", name] {
        words.push(String::from_str(alloc, word)?)?;
    }
    Ok(words)
}
