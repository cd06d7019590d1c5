//! A task that waits for a datagram.
ghost use Rattle.std.specs.Prelude.{◌≡◌};

use futures::Future;
use futures::task::{Context, Poll};
use rds_fmap::Reader;
use rds_model::Datagram;
use rds_socket::Socket;
use rds_wire::Memory;
use std::sync::Wait;

/// The next datagram of a socket.
#[derive(Drop)]
pub struct NextDatagram<'a, R> {
    pub rt: &'a R,
    pub socket: &'a mut Socket<Reader>,
}

impl<R: Wait> Future for NextDatagram<'_, R> {
    type Output = Result<Datagram, Memory>;

    ghost needs = { λ r source. source ≡ r.socket.now.own.inbox.bell };

    fn poll(&mut self, cx: &mut Context<'_>) -> Poll<Result<Datagram, Memory>> {
        self.socket.poll_recv(self.rt, cx)
    }
}
