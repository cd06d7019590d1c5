//! A socket, and what its host puts into its mailbox.
ghost use Rattle.std.specs.Prelude.{◌≡◌, None, IfSome};

use super::tried::Tried;
use rds_fmap::Reader;
use rds_model::Datagram;
use rds_socket::{CancelError, SendError, Socket};
use rds_test_hosts::{Bound, HandmadeHost, LineEnd, Orders};
use rds_wire::Payload;
use std::alloc::Global;
use std::sync::Wait;

/// The only peer.
const PEER: u32 = 2;

/// Its port.
const PORT: u16 = 4001;

/// How much a send or a receive buffer holds.
const BUFFER: u32 = 65_536;

/// How often a call is made that doesn't end the socket.
const TIMES: u32 = 100;

/// How many orders or datagrams are counted at most.
const MOST: usize = 1_000;

// A host whose socket is bound to port 4000.
fn bound(alloc: Global) -> Option<Bound>
    ensures { IfSome result (λ b. b.socket.told ≡ None) }
{
    let host = HandmadeHost::new(alloc, 1, PEER).ok()?;
    host.bind(4000, BUFFER, BUFFER).ok()
}

// How many orders wait.
fn waiting(rt: &impl Wait, orders: &mut Orders) -> usize {
    for count in 0..MOST {
        if orders.next(rt).is_none() {
            return count;
        }
    }
    MOST
}

pub fn send(rt: &impl Wait, alloc: Global) -> Option<Tried> {
    let payload = Payload::copy_of(alloc, b"hello").ok()?;
    let mut bound = bound(alloc)?;
    let again = send_all(rt, &mut bound.socket, &payload)?;
    Some(Tried::of(again, waiting(rt, &mut bound.end.orders)))
}

// Sends the payload many times. Whether a call was made again.
fn send_all(rt: &impl Wait, socket: &mut Socket<Reader>, payload: &Payload) -> Option<bool>
    requires { socket.old.told ≡ None }
{
    let mut again = false;
    for _ in 0..TIMES {
        again = send_once(rt, socket, payload.share().ok()?)? || again;
    }
    Some(again)
}

// Sends the payload. Whether the call was made again.
fn send_once(rt: &impl Wait, socket: &mut Socket<Reader>, payload: Payload) -> Option<bool>
    requires { socket.old.told ≡ None }
    ensures { socket.new.told ≡ None }
{
    match socket.send(rt, PEER, PORT, payload) {
        Ok(()) => Some(false),
        Err((payload, SendError::Memory)) => {
            socket.send(rt, PEER, PORT, payload).ok()?;
            Some(true)
        }
        Err(_) => None,
    }
}

pub fn cancel(rt: &impl Wait, alloc: Global) -> Option<Tried> {
    let mut bound = bound(alloc)?;
    let again = cancel_all(rt, &mut bound.socket)?;
    Some(Tried::of(again, waiting(rt, &mut bound.end.orders)))
}

// Takes back what was sent, many times. Whether a call was made again.
fn cancel_all(rt: &impl Wait, socket: &mut Socket<Reader>) -> Option<bool>
    requires { socket.old.told ≡ None }
{
    let mut again = false;
    for _ in 0..TIMES {
        again = cancel_once(rt, socket)? || again;
    }
    Some(again)
}

fn cancel_once(rt: &impl Wait, socket: &mut Socket<Reader>) -> Option<bool>
    requires { socket.old.told ≡ None }
    ensures { socket.new.told ≡ None }
{
    match socket.cancel(rt, PEER, PORT) {
        Ok(()) => Some(false),
        Err(CancelError::Memory) => {
            socket.cancel(rt, PEER, PORT).ok()?;
            Some(true)
        }
        Err(CancelError::NoRoute { .. }) => None,
    }
}

pub fn cut(rt: &impl Wait, alloc: Global) -> Option<Tried> {
    let mut bound = bound(alloc)?;
    let again = cut_all(rt, &mut bound.socket)?;
    Some(Tried::of(again, waiting(rt, &mut bound.end.orders)))
}

// Cuts the stream many times. Whether a call was made again.
fn cut_all(rt: &impl Wait, socket: &mut Socket<Reader>) -> Option<bool> {
    let mut again = false;
    for _ in 0..TIMES {
        if socket.cut(rt, PEER).is_err() {
            socket.cut(rt, PEER).ok()?;
            again = true;
        }
    }
    Some(again)
}

pub fn close(rt: &impl Wait, alloc: Global) -> Option<Tried> {
    let again = closed(rt, bound(alloc)?.into_socket())?;
    Some(Tried::of(again, 1))
}

// Closes the socket. Whether the call was made again.
fn closed(rt: &impl Wait, socket: Socket<Reader>) -> Option<bool> {
    match socket.close(rt) {
        Ok(_) => Some(false),
        Err((socket, _)) => match socket.close(rt) {
            Ok(_) => Some(true),
            Err(_) => None,
        },
    }
}

pub fn deliver(rt: &impl Wait, alloc: Global) -> Option<Tried> {
    let payload = Payload::copy_of(alloc, b"hello").ok()?;
    let mut bound = bound(alloc)?;
    let again = deliver_all(rt, &mut bound.end, &payload)?;
    Some(Tried::of(again, received(rt, &mut bound.socket)))
}

// Delivers the payload many times. Whether a call was made again.
fn deliver_all(rt: &impl Wait, end: &mut LineEnd, payload: &Payload) -> Option<bool> {
    let mut again = false;
    for _ in 0..TIMES {
        if end.deliver(rt, datagram(payload)?).is_err() {
            end.deliver(rt, datagram(payload)?).ok()?;
            again = true;
        }
    }
    Some(again)
}

fn datagram(payload: &Payload) -> Option<Datagram> {
    Some(Datagram {
        from: PEER,
        sport: PORT,
        dport: 4000,
        payload: payload.share().ok()?,
    })
}

// How many datagrams wait.
fn received(rt: &impl Wait, socket: &mut Socket<Reader>) -> usize {
    for count in 0..MOST {
        if socket.recv(rt).is_none() {
            return count;
        }
    }
    MOST
}
