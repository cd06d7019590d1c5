//! Datagrams that a socket sends, each taken from the order queue at once.
ghost use Rattle.std.specs.Prelude.{◌≡◌, None};

use crate::socket::bound::{PEER, bound};
use rds_fmap::Reader;
use rds_model::Order;
use rds_socket::Socket;
use rds_test_hosts::{Bound, Orders};
use rds_wire::Payload;
use std::alloc::{AllocGlobal, Global};
use std::sync::Wait;

// Sends a payload and takes it from the order queue. `None` where it wasn't sent.
fn send(
    rt: &impl Wait,
    socket: &mut Socket<Reader>,
    orders: &mut Orders,
    payload: Payload,
) -> Option<Payload>
    requires { socket.old.told ≡ None }
    ensures { socket.new.told ≡ None }
{
    socket.send(rt, PEER, 4001, payload).ok()?;
    match orders.next(rt)? {
        Order::Send { payload, .. } => Some(payload),
        _ => None,
    }
}

// How often in so many rounds the payload was sent and taken.
fn sends(
    rt: &impl Wait,
    socket: &mut Socket<Reader>,
    orders: &mut Orders,
    mut payload: Payload,
    rounds: u32,
) -> u32
    requires { socket.old.told ≡ None }
{
    for i in 0..rounds {
        match send(rt, socket, orders, payload) {
            Some(taken) => payload = taken,
            None => return i,
        }
    }
    rounds
}

// The same with a payload of 1 byte.
fn sent_by(rt: &impl Wait, alloc: Global, bound: &mut Bound, rounds: u32) -> Option<u32>
    requires { bound.old.socket.told ≡ None }
{
    let payload = Payload::copy_of(alloc, b"x").ok()?;
    let orders = &mut bound.end.orders;
    Some(sends(rt, &mut bound.socket, orders, payload, rounds))
}

/// How many of so many datagrams of 1 byte are sent. `None` where memory runs out before the first.
pub fn sent<R: Wait + AllocGlobal>(rt: &R, rounds: u32) -> Option<u32> {
    let mut bound = bound(rt.alloc())?;
    sent_by(rt, rt.alloc(), &mut bound, rounds)
}
