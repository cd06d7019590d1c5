//! Two TCP streams that are each other's peers.
use std::io;
use std::net::{Ipv4Addr, Net, SocketAddr, TcpListener, TcpStream};
use std::sync::Wait;
use std::thread::Parker;
use std::time::Duration;

/// How many times at most the listener is asked whether a stream that was connected has come.
const ASKS: u32 = 5_000;

/// How many milliseconds pass from one such question to the next.
const ASK_PAUSE: u64 = 1;

/// After how many milliseconds a write that moves nothing comes back, so that its thread can look whether the end closes.
const WRITE_TIMEOUT: u64 = 50;

/// The two TCP streams of one connection on this machine, the first of which connected.
pub(crate) fn dial<R: Wait + Net<Listener = TcpListener, Stream = TcpStream>>(
    rt: &R,
) -> io::Result<(TcpStream, TcpStream)> {
    let listener = TcpListener::bind(rt, SocketAddr::from((Ipv4Addr::LOCALHOST, 0)))?;
    listener.set_nonblocking(true)?;
    let low = TcpStream::connect(rt, listener.local_addr()?)?;
    let (high, caller) = accepted(rt, &listener)?;
    if caller != low.local_addr()? {
        // Another program of this machine connected first.
        return Err(io::Error::from(io::ErrorKind::ConnectionRefused));
    }
    prepare(&low)?;
    prepare(&high)?;
    Ok((low, high))
}

// The stream that comes to the listener. One that was closed from outside before it came never does, so this doesn't wait for ever.
fn accepted<R: Wait>(rt: &R, listener: &TcpListener) -> io::Result<(TcpStream, SocketAddr)> {
    let pause = Parker::new();
    for _ in 0..ASKS {
        let came = listener.accept();
        if !is_early(&came) {
            return came;
        }
        pause.park_timeout(rt, Duration::from_millis(ASK_PAUSE));
    }
    Err(io::Error::from(io::ErrorKind::TimedOut))
}

// Whether no stream has come yet.
fn is_early(came: &io::Result<(TcpStream, SocketAddr)>) -> bool {
    match came {
        Ok(_) => false,
        Err(error) => error.kind() == io::ErrorKind::WouldBlock,
    }
}

// Sets up a stream: small pieces go at once, and a write comes back after `WRITE_TIMEOUT` milliseconds.
fn prepare(tcp: &TcpStream) -> io::Result<()> {
    tcp.set_nodelay(true)?;
    tcp.set_write_timeout(Some(Duration::from_millis(WRITE_TIMEOUT)))
}
