//! What went each of the two ways, and what came.
use crate::pair::send;
use crate::{LineHost, PORT};
use rds_link::End;
use rds_model::Order;
use std::alloc::Global;
use std::sync::Wait;

/// How many datagrams a host of a test sends at most.
const MOST: u32 = 60_000;

/// How many datagrams went one way and how many came. Each has its number as its bytes, from 0 on.
#[derive(Clone, Copy, Debug, PartialEq, Eq)]
pub struct Way {
    /// So many went.
    pub sent: u32,
    /// So many of them went before the last cancellation, which may have taken them back.
    pub loose: u32,
    /// So many came.
    pub came: u32,
    /// The least number that may come next.
    pub next: u32,
    /// From this number on, each below the next one came.
    pub unbroken: u32,
    /// Whether each that came has a higher number than those before it.
    pub rises: bool,
}

/// A way on which nothing went yet.
pub const NEW: Way = Way {
    sent: 0,
    loose: 0,
    came: 0,
    next: 0,
    unbroken: 0,
    rises: true,
};

impl Way {
    /// Whether those that came were sent, and came in order and each once.
    pub fn is_right(&self) -> bool {
        self.rises && self.next <= self.sent
    }

    /// Whether all came so that were sent after the last cancellation.
    pub fn is_whole(&self) -> bool {
        self.is_right()
            && (self.loose == self.sent || self.next == self.sent && self.unbroken <= self.loose)
    }

    // A datagram with this number came.
    fn note(&mut self, number: u32) {
        self.rises = self.rises && self.next <= number;
        if self.next != number {
            self.unbroken = number;
        }
        self.next = number.saturating_add(1);
        self.came = self.came.saturating_add(1);
    }
}

/// The host sends the next datagram of its way.
pub fn send_next<E: End>(rt: &impl Wait, alloc: Global, host: &mut LineHost<E>, way: &mut Way) {
    if way.sent < MOST && send(rt, alloc, host, &way.sent.to_be_bytes()) {
        way.sent += 1;
    }
}

/// The host takes back all that it has sent and that is not acknowledged.
pub fn cancel<E: End>(rt: &impl Wait, host: &mut LineHost<E>, way: &mut Way) {
    let order = Order::Cancel {
        slot: 0,
        dport: PORT,
    };
    if host.ask(rt, order) {
        way.loose = way.sent;
    }
}

/// The host takes the datagram that waits first.
pub fn take_next<E: End>(rt: &impl Wait, host: &mut LineHost<E>, way: &mut Way) -> bool {
    match host.next(rt) {
        Some(datagram) => {
            way.note(number_of(datagram.payload.as_slice()));
            true
        }
        None => false,
    }
}

// The number that a datagram has as its bytes. Bytes of another length are no number that was sent.
fn number_of(bytes: &[u8]) -> u32 {
    match bytes.first_chunk::<4>() {
        Some(number) if bytes.len() == 4 => u32::from_be_bytes(*number),
        _ => u32::MAX,
    }
}
