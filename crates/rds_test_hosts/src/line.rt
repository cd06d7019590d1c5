//! What carries datagrams from one host to another, in place of a connection and a network.
use crate::counts::LineCounts;
use crate::queues::{Deliverer, Orders};
use rds_model::{Datagram, Order};
use rds_wire::{Memory, Payload};
use std::sync::Wait;

/// What a line to the peer holds of a host.
pub struct LineEnd {
    /// The host's IPv4 address.
    pub address: u32,
    pub counts: LineCounts,
    pub inbox: Deliverer,
    pub orders: Orders,
}

// By hand, so that one call drops it wherever it is let go, and no function that owns one drops each field.
impl Drop for LineEnd {
    fn drop(self) {
        let Self {
            address: _,
            counts: _counts,
            inbox: _inbox,
            orders: _orders,
        } = self;
    }
}

impl LineEnd {
    /// Gives a datagram to the host's socket.
    pub fn deliver(&mut self, rt: &impl Wait, datagram: Datagram) -> Result<(), Memory> {
        let bytes = datagram.payload.len();
        self.inbox.put(rt, datagram)?;
        self.counts.count_put(bytes);
        self.inbox.ring(rt);
        Ok(())
    }

    // The payload and the two ports of the oldest order. An order that is no datagram is dropped.
    fn next(&mut self, rt: &impl Wait) -> Option<(Payload, u16, u16)> {
        match self.orders.next(rt)? {
            Order::Send {
                sport,
                dport,
                payload,
                ..
            } => Some((payload, sport, dport)),
            _ => None,
        }
    }

    /// Carries the oldest datagram that this host's socket has sent to the other host, and answers whether there was one. It
    /// arrives at once, whatever its port, and its bytes no longer count against the sender's buffer.
    pub fn carry(&mut self, rt: &impl Wait, to: &mut LineEnd) -> Result<bool, Memory> {
        let Some((payload, sport, dport)) = self.next(rt) else {
            return Ok(false);
        };
        let bytes = payload.len();
        let datagram = Datagram {
            from: self.address,
            sport,
            dport,
            payload,
        };
        to.deliver(rt, datagram)?;
        self.counts.count_freed(bytes);
        Ok(true)
    }
}
