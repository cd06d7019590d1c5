//! When a frame carries the flag ACK_REQUIRED: what was asked on the open stream, and what may still go unasked.
ghost use Rattle.std.specs.Prelude.{◌≡◌, ◌+◌, ◌<◌, ◌^◌, ◌||◌, nat_le, nat_lt, ◌&&◌, false, true, if◌then◌else◌};
ghost use Rattle.rds_model.specs.declared.owed.TheConstants.{MAX_UNASKED as most, MAX_UNASKED_BYTES as most_bytes};
ghost use Rattle.rds_model.specs.Owed.{answers_kind};
ghost use Rattle.rds_wire.specs.declared.header.TheConstants.{ACK_REQUIRED as asking_flag};
ghost use Rattle.rds_wire.specs.Kinds.{carries, kind_of as kind_in};

use rds_model::{MAX_UNASKED, MAX_UNASKED_BYTES};
use rds_wire::{ACK_REQUIRED, Header, Kind, kind_of};

/// What was asked on the open stream.
#[derive(Clone, Copy)]
pub(crate) struct Asking {
    /// How many datagrams were pulled after the last frame that asks.
    pub(crate) unasked: u64,
    /// The bytes of their payloads.
    pub(crate) bytes: u64,
    /// The peer asks, and no frame was pulled since.
    pub(crate) is_asked: bool,
    /// A datagram was pulled, and neither the last one nor a frame after it asks.
    pub(crate) must_ask: bool,
}

impl Asking {
    /// Of a stream on which nothing was pulled or read, or after a frame that asks.
    pub(crate) fn new() -> Asking
        ensures { result ≡ record { unasked = 0; bytes = 0; is_asked = false; must_ask = false } }
    {
        Asking {
            unasked: 0,
            bytes: 0,
            is_asked: false,
            must_ask: false,
        }
    }

    /// Whether so many or so large datagrams went unasked that one with a payload of this length has to ask.
    pub(crate) fn is_due(self, len: u32) -> bool
        requires { self.bytes < 2 ^ 63 }
        ensures { result ≡ (nat_le most self.unasked || nat_lt most_bytes (self.bytes + len)) }
    {
        self.unasked >= MAX_UNASKED as u64 || self.bytes + u64::from(len) > MAX_UNASKED_BYTES
    }

    /// Whether an acknowledgement is owed: the peer asks, or this end has to.
    pub(crate) fn owes(self) -> bool
        ensures { result ≡ (self.is_asked || self.must_ask) }
    {
        self.is_asked || self.must_ask
    }

    /// After a map was pulled.
    pub(crate) fn after_map(self) -> Asking
        ensures { result ≡ record self { is_asked = false } }
    {
        Asking {
            is_asked: false,
            ..self
        }
    }

    /// After a datagram with a payload of this length was pulled.
    pub(crate) fn after_datagram(self, len: u32, asks: bool) -> Asking
        requires count { self.unasked < 2 ^ 63 }
        requires bytes { self.bytes < 2 ^ 63 }
        ensures { result ≡ (if asks then record { unasked = 0; bytes = 0; is_asked = false; must_ask = false }
            else record { unasked = self.unasked + 1; bytes = self.bytes + len; is_asked = false; must_ask = true }) }
    {
        if asks {
            return Asking::new();
        }
        Asking {
            unasked: self.unasked + 1,
            bytes: self.bytes + u64::from(len),
            is_asked: false,
            must_ask: true,
        }
    }

    /// After an acknowledgement was pulled, which asks where it has to.
    pub(crate) fn after_acknowledgement(self) -> Asking
        ensures { result ≡ (if self.must_ask then record { unasked = 0; bytes = 0; is_asked = false; must_ask = false }
            else record self { is_asked = false }) }
    {
        if self.must_ask {
            return Asking::new();
        }
        Asking {
            is_asked: false,
            ..self
        }
    }

    /// After a frame was read.
    pub(crate) fn after_read(self, h: &Header) -> Asking
        ensures { result ≡ record self { is_asked = carries asking_flag h.now.flags && answers_kind (kind_in h.now) || self.is_asked } }
    {
        Asking {
            is_asked: wants_answer(h) || self.is_asked,
            ..self
        }
    }
}

fn wants_answer(h: &Header) -> bool
    ensures { result ≡ (carries asking_flag h.now.flags && answers_kind (kind_in h.now)) }
{
    h.flags & ACK_REQUIRED != 0
        && match kind_of(h) {
            Kind::Data | Kind::Ack => true,
            Kind::Map | Kind::OddMap => false,
        }
}
