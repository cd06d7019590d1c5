//! A wire whose ends take all bytes, tell nothing, and never hear anything.
use rds_link::{End, Got, MemEnd, MemWire, Put, Wire, WireCounts, WireError};
use std::alloc::Global;
use std::net::Net;
use std::sync::Wait;
use std::thread::Threads;

/// An end that takes bytes and loses them. It stands as an end in memory does.
#[derive(Drop)]
pub struct DeafEnd {
    own: MemEnd,
    nothings: u64,
}

impl End for DeafEnd {
    ghost use Rattle.std.specs.Prelude.{false, []};
    ghost use Rattle.rds_link.specs.Memory.{memory_means};

    ghost means = { record {
      tells = false;
      sent = λ e. [];
      got = λ e. [];
      known = λ e. [];
      room = λ e. 0;
      calls = λ e. 0;
      fail = λ e. [];
      stand = λ e. memory_means.stand e.own;
      nothings = λ e. e.nothings;
      fulls = λ e. memory_means.fulls e.own;
      meets = λ a b. memory_means.meets a.own b.own;
    } };

    // Nobody ever puts a byte there.
    fn read(&mut self, buf: &mut [u8]) -> Got {
        let got = self.own.read(buf);
        if got == Got::Nothing {
            self.nothings = self.nothings.saturating_add(1);
        }
        got
    }

    // A read of nothing tells whether the stream is over.
    fn write(&mut self, piece: &[u8]) -> Put {
        let mut none = [0u8; 1];
        if self.own.read(&mut none) == Got::Over {
            return Put::Over;
        }
        Put::Took(piece.len())
    }

    fn shut(&mut self) {
        self.own.shut();
    }

    fn finish<R: Wait>(self, rt: &R) {
        let DeafEnd { own, nothings: _ } = self;
        own.finish(rt);
    }

    fn rest<R: Wait>(&self, rt: &R) {
        self.own.rest(rt);
    }
}

/// A wire of such ends.
#[derive(Drop)]
pub struct DeafWire {
    own: MemWire,
    nothings: u64,
}

impl DeafWire {
    /// A wire all of whose ends are deaf.
    pub fn new(alloc: Global) -> DeafWire {
        DeafWire {
            own: MemWire::new(alloc, Vec::new(alloc), Vec::new(alloc)),
            nothings: 0,
        }
    }
}

impl Wire for DeafWire {
    type End = DeafEnd;

    ghost counted = { λ w. record { faults = w.own.faults; nothings = w.nothings; fulls = w.own.fulls } };

    ghost out = { λ w. w.own.out };

    ghost may_fail = { λ w. Unit {0} };

    fn tells(&self) -> bool {
        false
    }

    fn can_fail(&self) -> bool {
        true
    }

    fn counts(&self) -> WireCounts {
        WireCounts {
            nothings: self.nothings,
            ..self.own.counts()
        }
    }

    fn open<R: Threads + Wait + Net>(
        &mut self,
        rt: &R,
        low: u32,
        high: u32,
        stream: u32,
    ) -> Result<(DeafEnd, DeafEnd), WireError> {
        let (first, second) = self.own.open(rt, low, high, stream)?;
        let one = DeafEnd {
            own: first,
            nothings: 0,
        };
        let other = DeafEnd {
            own: second,
            nothings: 0,
        };
        Ok((one, other))
    }

    fn meet(a: &mut DeafEnd, b: &mut DeafEnd) {
        MemWire::meet(&mut a.own, &mut b.own);
    }

    fn give_back<R: Wait>(&mut self, rt: &R, end: DeafEnd) {
        let DeafEnd { own, nothings } = end;
        self.nothings = self.nothings.saturating_add(nothings);
        self.own.give_back(rt, own);
    }
}
