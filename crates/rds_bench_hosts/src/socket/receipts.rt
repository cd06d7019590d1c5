//! Datagrams that are put into a socket's mailbox, each received at once.
use crate::socket::bound::{PEER, bound};
use rds_fmap::Reader;
use rds_model::Datagram;
use rds_socket::Socket;
use rds_test_hosts::{Bound, Deliverer};
use rds_wire::Payload;
use std::alloc::{AllocGlobal, Global};
use std::sync::Wait;

// Puts a datagram into the mailbox and receives it. `None` where it wasn't put.
fn receive(
    rt: &impl Wait,
    socket: &mut Socket<Reader>,
    inbox: &mut Deliverer,
    datagram: Datagram,
) -> Option<Datagram> {
    inbox.put(rt, datagram).ok()?;
    socket.recv(rt)
}

// How often in so many rounds the datagram was put and received.
fn receipts(
    rt: &impl Wait,
    socket: &mut Socket<Reader>,
    inbox: &mut Deliverer,
    mut datagram: Datagram,
    rounds: u32,
) -> u32 {
    for i in 0..rounds {
        match receive(rt, socket, inbox, datagram) {
            Some(received) => datagram = received,
            None => return i,
        }
    }
    rounds
}

// The same with a datagram of 1 byte.
fn received_by(rt: &impl Wait, alloc: Global, bound: &mut Bound, rounds: u32) -> Option<u32> {
    let payload = Payload::copy_of(alloc, b"x").ok()?;
    let datagram = Datagram {
        from: PEER,
        sport: 4001,
        dport: 4000,
        payload,
    };
    let inbox = &mut bound.end.inbox;
    Some(receipts(rt, &mut bound.socket, inbox, datagram, rounds))
}

/// How many of so many datagrams of 1 byte are received. `None` where memory runs out before the first.
pub fn received<R: Wait + AllocGlobal>(rt: &R, rounds: u32) -> Option<u32> {
    let mut bound = bound(rt.alloc())?;
    received_by(rt, rt.alloc(), &mut bound, rounds)
}
