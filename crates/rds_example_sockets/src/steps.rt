//! What the hosts do, each step with the text that it prints.
ghost use Rattle.std.specs.Prelude.{◌≡◌, ◌≤◌, length, None};

use crate::hosts::{B, out_of_memory};
use crate::waiting::NextDatagram;
use futures::executor::block_on;
use rds_fmap::Reader;
use rds_model::Datagram;
use rds_socket::Socket;
use rds_test_hosts::LineEnd;
use rds_wire::Payload;
use std::alloc::{AllocError, AllocGlobal};
use std::io::Print;
use std::net::Ipv4Addr;
use std::random::RandomSource;
use std::sync::Wait;

/// A sends a text to port 4001 of B, or says why it can't.
pub fn send<R: Print + Wait + AllocGlobal>(
    rt: &R,
    a: &mut Socket<Reader>,
    text: &str,
) -> anyhow::Result<()>
    requires told { a.old.told ≡ None }
    requires text { length text.now ≤ 8 }
    ensures { a.new.told ≡ None }
{
    let payload = Payload::copy_of(rt.alloc(), text.as_bytes()).map_err(out_of_memory)?;
    match a.send(rt, B, 4001, payload) {
        Ok(()) => println!(rt; "A sends \"{text}\".")?,
        Err((_, error)) => println!(rt; "A can't send \"{text}\": {error}.")?,
    }
    Ok(())
}

/// One datagram is carried from A to B.
pub fn carry(rt: &(impl Print + Wait), a: &mut LineEnd, b: &mut LineEnd) -> anyhow::Result<()> {
    if a.carry(rt, b).map_err(out_of_memory)? {
        println!(rt; "A datagram is carried to B.")?;
    }
    Ok(())
}

/// B receives the next datagram. Where none is there its task sleeps until one comes.
pub fn receive<R: Print + Wait + AllocGlobal + RandomSource>(
    rt: &R,
    b: &mut Socket<Reader>,
) -> anyhow::Result<()> {
    let datagram = block_on(rt, NextDatagram { rt, socket: b })?.map_err(out_of_memory)?;
    show(rt, "B receives", &datagram)
}

/// Closes a socket, and shows what it hasn't received.
pub fn close(rt: &(impl Print + Wait), host: &str, socket: Socket<Reader>) -> anyhow::Result<()> {
    let unread = closed(rt, socket)?;
    println!(rt; "{host} has closed its socket.")?;
    if let Some(datagram) = unread {
        show(rt, "It leaves unread", &datagram)?;
    }
    Ok(())
}

// Closes a socket, and takes the first datagram that it hasn't received.
fn closed(rt: &impl Wait, socket: Socket<Reader>) -> Result<Option<Datagram>, AllocError> {
    match socket.close(rt) {
        Ok(mut closed) => Ok(closed.unread(rt)),
        Err(_) => Err(AllocError),
    }
}

// A datagram, as a text, and where it came from.
fn show(rt: &impl Print, what: &str, datagram: &Datagram) -> anyhow::Result<()> {
    let text = std::str::from_utf8(datagram.payload.as_slice())?;
    let from = Ipv4Addr::from(datagram.from);
    println!(rt; "{what} \"{text}\" from {from}, port {}.", datagram.sport)?;
    Ok(())
}
