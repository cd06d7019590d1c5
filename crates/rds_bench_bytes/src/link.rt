//! How many bytes a second go through one stream in memory, beside a plain ring and a socket on this machine.
mod pumping;
mod ways;

ghost use Rattle.std.specs.Prelude.{◌<◌};

use pumping::{by_one, by_two};
use rds_link::{MemWire, ROOM, Wire};
use rtrb::RingBuffer;
use std::alloc::{AllocError, Global};
use std::io;
use std::io::Print;
use std::net::{Net, TcpListener, TcpStream};
use std::sync::Wait;
use std::thread::Threads;
use std::time::{Clock, Instant};
use ways::{Gets, Sends, SocketEnd, StreamEnd};

// What is moved: so many bytes, in pieces of one size, by one thread or by two.
#[derive(Clone, Copy, Drop)]
struct Load {
    total: u64,
    size: usize,
    two: bool,
}

/// Writes how many bytes came in small runs.
pub fn show<R: Print + Threads + Wait + Net + Sync>(rt: &R, alloc: Global) -> anyhow::Result<()> {
    let one = Load {
        total: 262_144,
        size: 4096,
        two: false,
    };
    let two = Load { two: true, ..one };
    let stream = stream(rt, alloc, one).ok_or(AllocError)?;
    let stream_two = self::stream(rt, alloc, two).ok_or(AllocError)?;
    let ring = ring(rt, alloc, one).ok_or(AllocError)?;
    let ring_two = self::ring(rt, alloc, two).ok_or(AllocError)?;
    println!(rt; "link: stream {stream} {stream_two}, ring {ring} {ring_two}")?;
    Ok(())
}

/// Measures so many bytes each way, in pieces of three sizes.
pub fn measure<R: Print + Threads + Wait + Clock + Sync>(
    rt: &R,
    alloc: Global,
    total: u64,
) -> anyhow::Result<()>
where
    R: Net<Listener = TcpListener, Stream = TcpStream>,
{
    for two in [false, true] {
        for size in [48, 1500, 65_536] {
            let load = Load { total, size, two };
            compare(rt, alloc, load)?;
        }
    }
    Ok(())
}

// One line for each of the three ways.
fn compare<R: Print + Threads + Wait + Clock + Sync>(
    rt: &R,
    alloc: Global,
    load: Load,
) -> anyhow::Result<()>
where
    R: Net<Listener = TcpListener, Stream = TcpStream>,
    requires { 0 < load.size }
{
    let start = Instant::now(rt)?;
    let done = stream(rt, alloc, load).ok_or(AllocError)?;
    tell(rt, "stream", load, done, start)?;
    let start = Instant::now(rt)?;
    let done = ring(rt, alloc, load).ok_or(AllocError)?;
    tell(rt, "ring", load, done, start)?;
    let start = Instant::now(rt)?;
    let done = socket(rt, alloc, load)?;
    tell(rt, "socket", load, done, start)
}

// So many bytes since the start, as millions a second.
fn tell<R: Print + Clock>(
    rt: &R,
    way: &str,
    load: Load,
    done: u64,
    start: Instant,
) -> anyhow::Result<()> {
    let nanos = start.elapsed(rt)?.as_nanos().max(1);
    let millions = u128::from(done) * 1000 / nanos;
    let threads = if load.two { 2 } else { 1 };
    let size = load.size;
    println!(rt; "{way}, pieces of {size}, threads {threads}: {millions} MB a second")?;
    Ok(())
}

fn stream<R: Threads + Wait + Net + Sync>(rt: &R, alloc: Global, load: Load) -> Option<u64>
    requires { 0 < load.size }
{
    let mut wire = MemWire::new(alloc, Vec::new(alloc), Vec::new(alloc));
    let (from, to) = wire.open(rt, 1, 2, 1).ok()?;
    through(rt, alloc, StreamEnd(from), StreamEnd(to), load)
}

fn ring<R: Threads + Wait + Sync>(rt: &R, alloc: Global, load: Load) -> Option<u64>
    requires { 0 < load.size }
{
    let (from, to) = RingBuffer::<u8>::new(alloc, ROOM).ok()?;
    through(rt, alloc, from, to, load)
}

fn socket<R: Threads + Wait + Sync>(rt: &R, alloc: Global, load: Load) -> anyhow::Result<u64>
where
    R: Net<Listener = TcpListener, Stream = TcpStream>,
    requires { 0 < load.size }
{
    let (from, to) = sockets(rt)?;
    let done = through(rt, alloc, SocketEnd(from), SocketEnd(to), load).ok_or(AllocError)?;
    Ok(done)
}

fn sockets<R: Net<Listener = TcpListener, Stream = TcpStream>>(
    rt: &R,
) -> io::Result<(TcpStream, TcpStream)> {
    let listener = TcpListener::bind(rt, "127.0.0.1:0")?;
    let from = TcpStream::connect(rt, listener.local_addr()?)?;
    let (to, _) = listener.accept()?;
    Ok((from, to))
}

// How many bytes came, or `None` where memory runs out.
fn through<S: Sends + Send, G: Gets + Send, R: Threads + Wait + Sync>(
    rt: &R,
    alloc: Global,
    from: S,
    to: G,
    load: Load,
) -> Option<u64>
    requires { 0 < load.size }
{
    let piece = vec![in alloc; 7u8; load.size].ok()?;
    let mut buf = vec![in alloc; 0u8; load.size].ok()?;
    let come = if load.two {
        by_two(rt, from, to, &piece, &mut buf, load.total)
    } else {
        by_one(rt, from, to, &piece, &mut buf, load.total)
    };
    Some(come)
}
