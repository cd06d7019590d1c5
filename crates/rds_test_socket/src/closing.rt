//! A socket from its bind to its parts.
use rds_fmap::Reader;
use rds_socket::{BindError, CancelError, Closed, Socket, Vacant};
use rds_test_hosts::HandmadeHost;
use std::alloc::Global;
use std::sync::Wait;
use std::test::Fail;

const PEER: u32 = 2;

/// A slot that is refused port 1, and then takes the first that is free from there on.
fn bound(vacant: Vacant<Reader>) -> Option<(Socket<Reader>, BindError)> {
    match vacant.bind(1, 10, 100) {
        Ok(_) => None,
        Err((vacant, error)) => match vacant.bind_any(1, 10, 100) {
            Ok(socket) => Some((socket, error)),
            Err(_) => None,
        },
    }
}

/// What orders to the peer and to another address answer.
fn asks(rt: &impl Wait, socket: &mut Socket<Reader>) -> [Result<(), CancelError>; 2] {
    let first = socket.cut(rt, PEER);
    [first, socket.cut(rt, 7)]
}

/// Whether nothing was left unread, and what a cut answers.
fn ends(rt: &impl Wait, closed: &mut Closed<Reader>) -> (bool, Result<(), CancelError>) {
    let is_empty = closed.unread(rt).is_none();
    (is_empty, closed.cut(rt, PEER))
}

/// The same of a socket that is closed. `None` where memory runs out.
fn closes(rt: &impl Wait, socket: Socket<Reader>) -> Option<(bool, Result<(), CancelError>)> {
    match socket.close(rt) {
        Ok(mut closed) => Some(ends(rt, &mut closed)),
        Err(_) => None,
    }
}

/// The port, the slot and whether it is closing, of a socket that was bound, why port 1 was refused, and what the socket's orders
/// and its end answer. `None` where memory runs out.
fn uses(
    rt: &impl Wait,
    vacant: Vacant<Reader>,
) -> Option<
    (
        (u16, u16, bool),
        BindError,
        [Result<(), CancelError>; 2],
        (bool, Result<(), CancelError>),
    ),
> {
    let (mut socket, error) = bound(vacant)?;
    let names = (socket.port(), socket.slot(), socket.closing());
    let asked = asks(rt, &mut socket);
    let ended = closes(rt, socket)?;
    Some((names, error, asked, ended))
}

fn slot(alloc: Global) -> Option<Vacant<Reader>> {
    match HandmadeHost::new(alloc, 1, PEER) {
        Ok(host) => Some(host.into_vacant()),
        Err(_) => None,
    }
}

#[test]
fn a_socket_is_bound_and_closed(rt: HostRuntime) -> Result<(), Fail> {
    let vacant = slot(rt.alloc()).expect(&rt, "memory");
    let (names, error, asked, ended) = uses(&rt, vacant).expect(&rt, "memory");
    assert_eq!(rt; names, (2, 0, false));
    assert_eq!(rt; error, BindError::Reserved { port: 1 });
    assert_eq!(rt; asked, [Ok(()), Err(CancelError::NoRoute { peer: 7 })]);
    assert_eq!(rt; ended, (true, Ok(())));
    Ok(())
}
