//! How a host is made by hand, with one slot and one peer.
ghost use Rattle.std.specs.Prelude.{◌≡◌, ◌∷◌, [], None, IfOk};
ghost use Rattle.rds_socket_parts.specs.Lanes.{peers_of, ArePutOf};
ghost use Rattle.rds_socket.specs.Holding.{IsSendBuffer, IsReceiveBuffer};

use crate::line::LineEnd;
use crate::queues::{Deliverer, Orders};
use crate::seats::Seats;
use rds_fmap::{Reader, Writer, pair};
use rds_socket::{BindError, Route, Socket, Vacant};
use rds_wire::Memory;
use std::alloc::Global;

/// A host whose socket isn't bound yet.
pub struct HandmadeHost {
    /// Its slot, which can be bound.
    pub vacant: Vacant<Reader>,
    /// Its end of the line to the peer.
    pub end: LineEnd,
    /// Where the peer's congestion map is published.
    pub map: Writer,
}

// By hand, so that one call drops it wherever it is let go, and no function that owns one drops each field.
impl Drop for HandmadeHost {
    fn drop(self) {
        let Self {
            vacant: _vacant,
            end: _end,
            map: _map,
        } = self;
    }
}

impl HandmadeHost {
    /// A host of this address with one peer.
    pub fn new(alloc: Global, address: u32, peer: u32) -> Result<HandmadeHost, Memory>
        ensures { IfOk result (λ h. h.map.published ≡ []) }
    {
        let (seats, counts) = Seats::new(alloc)?;
        let (mail, get, inbox) = Deliverer::new(alloc)?;
        let (routes, orders, map) = routes(alloc, peer)?;
        let end = LineEnd {
            address,
            counts,
            inbox,
            orders,
        };
        let vacant = seats.into_vacant(mail, get, routes);
        Ok(HandmadeHost { vacant, end, map })
    }

    /// Binds its socket to a port. Where the port is refused, the host is given up.
    pub fn bind(self, port: u16, sndbuf: u32, rcvbuf: u32) -> Result<Bound, BindError>
        requires sndbuf { IsSendBuffer sndbuf }
        requires rcvbuf { IsReceiveBuffer rcvbuf }
        ensures told { IfOk result (λ b. b.socket.told ≡ None) }
        ensures map { IfOk result (λ b. b.map ≡ self.map) }
    {
        let HandmadeHost { vacant, end, map } = self;
        match vacant.bind(port, sndbuf, rcvbuf) {
            Ok(socket) => Ok(Bound { socket, end, map }),
            Err((_, error)) => Err(error),
        }
    }

    /// Its slot alone.
    pub fn into_vacant(self) -> Vacant<Reader>
        ensures { result ≡ self.vacant }
    {
        let HandmadeHost {
            vacant,
            end: _end,
            map: _map,
        } = self;
        vacant
    }
}

/// A host with a socket.
pub struct Bound {
    pub socket: Socket<Reader>,
    /// Its end of the line to the peer.
    pub end: LineEnd,
    /// Where the peer's congestion map is published.
    pub map: Writer,
}

// By hand, so that one call drops it wherever it is let go, and no function that owns one drops each field.
impl Drop for Bound {
    fn drop(self) {
        let Self {
            socket: _socket,
            end: _end,
            map: _map,
        } = self;
    }
}

impl Bound {
    /// Its socket alone.
    pub fn into_socket(self) -> Socket<Reader>
        ensures { result ≡ self.socket }
    {
        let Bound {
            socket,
            end: _end,
            map: _map,
        } = self;
        socket
    }
}

// The route to the peer, the getter of its orders, and the writer of the peer's map.
fn routes(alloc: Global, peer: u32) -> Result<(Vec<Route<Reader>>, Orders, Writer), Memory>
    ensures put { IfOk result (λ r. ArePutOf 0 r.0.items) }
    ensures peers { IfOk result (λ r. peers_of r.0.items ≡ peer ∷ []) }
    ensures map { IfOk result (λ r. r.2.published ≡ []) }
{
    let (writer, mut readers) = pair(alloc, 1)?;
    let map = readers.pop().unwrap();
    let (mail, pass, orders) = Orders::new(alloc)?;
    let mut routes = Vec::with_capacity(alloc, 1)?;
    routes.push(Route {
        peer,
        orders: mail,
        pass,
        map,
    })?;
    Ok((routes, orders, writer))
}
