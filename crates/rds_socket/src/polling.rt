//! How datagrams are received.
ghost use Rattle.std.specs.Prelude.{◌≡◌, IfOk, IfErr, IfSome, IfNone};
ghost use Rattle.futures.specs.Poll.{IfReady, OnPending};
ghost use Rattle.futures.specs.Task.{IsArmed, Hears, Keeps};
ghost use Rattle.rds_mail.specs.Learning.{AllGot};
ghost use Rattle.rds_socket.specs.Calls.{IsReceived};
ghost use Rattle.rds_socket.specs.Stays.{Stays};

use crate::socket::Socket;
use futures::task::{Context, Poll};
use rds_fmap::MapReader;
use rds_model::Datagram;
use rds_wire::Memory;
use std::sync::Wait;

impl<R: MapReader> Socket<R> {
    /// Takes the first datagram of its mailbox and counts its bytes as taken. `None` where its own step found the mailbox empty.
    pub fn recv<W: Wait>(&mut self, rt: &W) -> Option<Datagram>
        ensures received { IfSome result (λ item. IsReceived item self.old self.new) }
        ensures same { IfNone result (self.new ≡ self.old) }
        ensures empty { IfNone result (AllGot self.old.own.inbox.get) }
        ensures stays { Stays R.pair R.has_seen self.old self.new }
    {
        let item = self.inbox.get(rt)?;
        self.words
            .receive(self.port, self.rcvbuf, item.payload.len());
        Some(item)
    }

    /// Registers at the mailbox's bell, and then does as `recv`. `Pending` where its own step after the registration found the
    /// mailbox empty: the task is woken when a datagram comes. `Memory` comes from the registration alone, and then nothing was
    /// taken.
    pub fn poll_recv<W: Wait>(
        &mut self,
        rt: &W,
        cx: &mut Context<'_>,
    ) -> Poll<Result<Datagram, Memory>>
        ensures received { IfReady result (λ r. IfOk r (λ item. IsReceived item self.old self.new)) }
        ensures memory { IfReady result (λ r. IfErr r (λ _. self.new ≡ self.old)) }
        ensures same { OnPending result (self.new ≡ self.old) }
        ensures empty { OnPending result (AllGot self.old.own.inbox.get) }
        ensures armed { OnPending result (IsArmed cx.new) }
        ensures heard { OnPending result (Hears cx.new self.old.own.inbox.bell) }
        ensures kept { Keeps cx.old cx.new }
        ensures stays { Stays R.pair R.has_seen self.old self.new }
    {
        match self.inbox.poll_get(rt, cx) {
            Poll::Ready(Ok(item)) => {
                let n = item.payload.len();
                self.words.receive(self.port, self.rcvbuf, n);
                Poll::Ready(Ok(item))
            }
            Poll::Ready(Err(memory)) => Poll::Ready(Err(memory)),
            Poll::Pending => Poll::Pending,
        }
    }
}
