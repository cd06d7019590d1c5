//! What the two sockets say to each other.
ghost use Rattle.std.specs.Prelude.{◌≡◌, ◌≤◌, None, IfOk, IsSome, IsSomeAnd, length};
ghost use Rattle.rds_example_hosts.specs.Hosts.{SocketKeeps};

use crate::hosts::{A, B, out_of_memory};
use futures::executor::block_on;
use futures::task::{Context, Poll};
use futures::{Future, ready};
use rds_fmap::Reader;
use rds_model::Datagram;
use rds_socket::Socket;
use rds_wire::{Memory, Payload};
use std::alloc::AllocGlobal;
use std::io::Print;
use std::net::Ipv4Addr;
use std::random::RandomSource;
use std::sync::Wait;

/// The sockets of both hosts.
pub type Sockets = (Socket<Reader>, Socket<Reader>);

/// A sends three texts to B, which receives them and sends one back.
pub fn talk<R: Print + Wait + AllocGlobal + RandomSource>(
    rt: &R,
    mut a: Socket<Reader>,
    b: Socket<Reader>,
) -> anyhow::Result<Sockets>
    requires a { a.told ≡ None }
    requires b { b.told ≡ None }
    ensures a { IfOk result (λ after. SocketKeeps a after.0) }
    ensures b { IfOk result (λ after. SocketKeeps b after.1) }
{
    send(rt, &mut a, B, 4001, "one")?;
    send(rt, &mut a, B, 4001, "two")?;
    send(rt, &mut a, B, 4001, "three")?;
    let b = receive(rt, "B", b)?;
    let b = receive(rt, "B", b)?;
    let mut b = receive(rt, "B", b)?;
    send(rt, &mut b, A, 4000, "thanks")?;
    let a = receive(rt, "A", a)?;
    Ok((a, b))
}

// Sends a text to a port of a peer.
fn send<R: Wait + AllocGlobal>(
    rt: &R,
    socket: &mut Socket<Reader>,
    peer: u32,
    port: u16,
    text: &str,
) -> anyhow::Result<()>
    requires told { socket.old.told ≡ None }
    requires text { length text.now ≤ 4096 }
    ensures { SocketKeeps socket.old socket.new }
{
    let payload = Payload::copy_of(rt.alloc(), text.as_bytes()).map_err(out_of_memory)?;
    match socket.send(rt, peer, port, payload) {
        Ok(()) => Ok(()),
        Err((_, error)) => Err(error.into()),
    }
}

// Receives the next datagram, and shows it. Where none is there the thread sleeps until one comes.
fn receive<R: Print + Wait + AllocGlobal + RandomSource>(
    rt: &R,
    host: &str,
    socket: Socket<Reader>,
) -> anyhow::Result<Socket<Reader>>
    ensures { IfOk result (SocketKeeps socket) }
{
    let next = NextDatagram {
        rt,
        socket: Some(socket),
    };
    let (socket, datagram) = block_on(rt, next)?.map_err(out_of_memory)?;
    show(rt, host, &datagram)?;
    Ok(socket)
}

// A datagram that a host received, as a text, and where it came from.
fn show(rt: &impl Print, host: &str, datagram: &Datagram) -> anyhow::Result<()> {
    let text = std::str::from_utf8(datagram.payload.as_slice())?;
    let from = Ipv4Addr::from(datagram.from);
    println!(rt;
        "{host} receives \"{text}\" from {from}, port {}.",
        datagram.sport
    )?;
    Ok(())
}

// The next datagram of a socket, which is handed back with it.
#[derive(Drop)]
struct NextDatagram<'a, R> {
    rt: &'a R,
    socket: Option<Socket<Reader>>,
}

impl<R: Wait> Future for NextDatagram<'_, R> {
    type Output = Result<(Socket<Reader>, Datagram), Memory>;

    ghost can_poll = { λ next. IsSome next.socket };

    ghost needs = { λ next source. IsSomeAnd next.socket (λ socket. source ≡ socket.own.inbox.bell) };

    ghost gives = { λ next given. IsSomeAnd next.socket (λ socket. IfOk given (λ came. SocketKeeps socket came.0)) };

    fn poll(&mut self, cx: &mut Context<'_>) -> Poll<Result<(Socket<Reader>, Datagram), Memory>> {
        let Some(socket) = &mut self.socket else {
            unreachable!()
        };
        match ready!(socket.poll_recv(self.rt, cx)) {
            Ok(datagram) => Poll::Ready(Ok((self.socket.take().unwrap(), datagram))),
            Err(memory) => Poll::Ready(Err(memory)),
        }
    }
}
