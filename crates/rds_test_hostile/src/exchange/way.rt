//! What goes one way.
use super::TRIES;
use rds_link::MemEnd;
use rds_model::Order;
use rds_test_hosts::{LineHost, PORT};
use rds_wire::Payload;
use std::alloc::Global;
use std::fmt;
use std::sync::Wait;

/// How many datagrams were sent and how many came, and whether one that came was another than the next one. Each has its number as
/// its bytes.
#[derive(Clone, Copy, Default)]
pub struct Way {
    sent: u32,
    came: u32,
    is_astray: bool,
}

impl fmt::Display for Way {
    fn fmt<W: fmt::Write>(&self, f: &mut fmt::Formatter<W>) -> fmt::Result {
        let came = self.came;
        if self.is_astray {
            return write!(f, "{came} came astray");
        }
        write!(f, "{came} came in order")
    }
}

impl Way {
    /// Has the host send the next one.
    pub fn send_next<R: Wait>(&mut self, rt: &R, alloc: Global, host: &mut LineHost<MemEnd>) {
        for _ in 0..TRIES {
            if send(rt, alloc, host, self.sent) {
                self.sent = self.sent.wrapping_add(1);
                return;
            }
        }
    }

    /// Has the host take the one that waits first.
    pub fn take_next<R: Wait>(&mut self, rt: &R, host: &mut LineHost<MemEnd>) {
        if let Some(datagram) = host.next(rt) {
            self.note(datagram.payload.as_slice());
        }
    }

    // These bytes came.
    fn note(&mut self, bytes: &[u8]) {
        self.is_astray = self.is_astray || bytes != self.came.to_be_bytes().as_slice();
        self.came = self.came.wrapping_add(1);
    }
}

/// Gives a host's line the datagram with this number. `false` where there is no memory for it.
pub fn send<R: Wait>(rt: &R, alloc: Global, host: &mut LineHost<MemEnd>, number: u32) -> bool {
    let Ok(payload) = Payload::copy_of(alloc, &number.to_be_bytes()) else {
        return false;
    };
    let order = Order::Send {
        slot: 0,
        sport: PORT,
        dport: PORT,
        payload,
    };
    host.ask(rt, order)
}
